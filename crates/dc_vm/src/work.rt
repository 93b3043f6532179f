//! The work of instructions behind which the next place comes.

ghost use Rattle.std.specs.Prelude.{◌≡◌, ℕ};
ghost use Rattle.dc_code.specs.OverCells.{over_cells};
ghost use Rattle.dc_steps.specs.Halting.{Leaves, LeavesBoth};
ghost use Rattle.dc_steps.specs.Ready.{AreReady, UnlessNoMemory};
ghost use Rattle.dc_vm.specs.Groups.{work_of, values_made, frame_asked, cells_asked};

use dc_code::{Code, What};
use dc_int::FaultKind;
use dc_steps::{
    Frame, Halt, all_put, arithmetic, compared, conjunction, contributed, counted, disjunction,
    dropped, dummy_loaded, dummy_stored, equivalence, filled, folding_pushed, forget_outer,
    forget_slot, load_outer, load_slot, merged, negated, non_equivalence, push_dummy, push_outer,
    push_slot, result_pushed, slot_folding_pushed, slots_filled, store_outer, store_slot,
    subscript_outer, subscript_slot, text_put, value_pushed, value_put, wrapped,
};
use dc_store::Cells;
use std::alloc::Global;

/// What an instruction works on: values of the stack alone, what else the frame holds, or cells; or it is the
/// caller's, or says where to go on.
#[derive(Clone, Copy, Debug, PartialEq, Eq)]
pub(crate) enum Work {
    Values,
    Frame,
    Cells,
    Callers,
    Control,
}

/// An instruction of another group comes here in no run.
const OTHER: Halt = Halt::Fault(FaultKind::Undefined);

/// What an instruction works on.
pub(crate) fn work_of(what: What) -> Work
    ensures { result ≡ work_of what }
{
    match what {
        What::Const { .. }
        | What::Truth { .. }
        | What::Drop
        | What::Arith { .. }
        | What::Wrap { .. }
        | What::Compare { .. }
        | What::And
        | What::Or
        | What::Eqv
        | What::Neqv
        | What::Not
        | What::Merge
        | What::Count { .. }
        | What::PutNumber
        | What::PutTruth => Work::Values,
        What::Subscript { .. }
        | What::SubscriptSlot { .. }
        | What::PlaceOf { .. }
        | What::PlaceOfSlot { .. }
        | What::PlaceOfDummy { .. }
        | What::FillSlot { .. }
        | What::FoldSlot { .. }
        | What::LoadResult
        | What::PutChars { .. } => Work::Frame,
        What::Load { .. }
        | What::LoadSlot { .. }
        | What::Store { .. }
        | What::StoreSlot { .. }
        | What::Forget { .. }
        | What::ForgetSlot { .. }
        | What::LoadDummy { .. }
        | What::StoreDummy { .. }
        | What::Fill { .. }
        | What::Fold { .. }
        | What::Contribute { .. }
        | What::PutAll { .. } => Work::Cells,
        What::TakeNumber { .. }
        | What::TakeTruth
        | What::TakeAll { .. }
        | What::TakeEnd { .. }
        | What::Enter { .. }
        | What::Stop => Work::Callers,
        What::Jump { .. }
        | What::JumpFalse { .. }
        | What::Turn
        | What::Back { .. }
        | What::Call { .. }
        | What::Return
        | What::PutEnd
        | What::End
        | What::ErrorStop => Work::Control,
    }
}

/// Values that are made of values of the stack.
pub(crate) fn values_made(frame: &mut Frame, what: What) -> Result<(), Halt>
    ensures { (line : ℕ) → Leaves line result frame.new (values_made line what frame.old) }
{
    match what {
        What::Const { n, .. } => value_pushed(frame, n),
        What::Truth { n } => value_pushed(frame, i64::from(n)),
        What::Drop => dropped(frame),
        What::Arith { op, k } => arithmetic(frame, op, k),
        What::Wrap { k } => wrapped(frame, k),
        What::Compare { r } => compared(frame, r),
        What::And => conjunction(frame),
        What::Or => disjunction(frame),
        What::Eqv => equivalence(frame),
        What::Neqv => non_equivalence(frame),
        What::Not => negated(frame),
        What::Merge => merged(frame),
        What::Count { .. } => counted(frame),
        What::PutNumber => value_put(frame, false),
        What::PutTruth => value_put(frame, true),
        _ => Err(OTHER),
    }
}

/// Work that asks the units of the frame and the lists of the code.
pub(crate) fn frame_asked(frame: &mut Frame, code: &Code, what: What) -> Result<(), Halt>
    ensures { (line : ℕ)
        → Leaves line result frame.new (frame_asked code.now line what frame.old) }
{
    match what {
        What::Subscript { v } => subscript_outer(frame, code, v),
        What::SubscriptSlot { s } => subscript_slot(frame, code, s),
        What::PlaceOf { v } => push_outer(frame, v),
        What::PlaceOfSlot { s } => push_slot(frame, s),
        What::PlaceOfDummy { d } => push_dummy(frame, d),
        What::FillSlot { s } => slots_filled(frame, code, s),
        What::FoldSlot { f, s } => slot_folding_pushed(frame, code, f, s),
        What::LoadResult => result_pushed(frame),
        What::PutChars { x } => text_put(frame, code, x),
        _ => Err(OTHER),
    }
}

/// Work that asks the cells.
pub(crate) fn cells_asked<M: Cells>(
    alloc: Global,
    code: &Code,
    frame: &mut Frame,
    cells: &mut M,
    what: What,
    line: u32,
) -> Result<(), Halt>
    requires { AreReady code.now M.shapes M.shown (M.holds cells.old) }
    ensures ready { UnlessNoMemory result (AreReady code.now M.shapes M.shown (M.holds cells.new)) }
    ensures works { LeavesBoth line result frame.new (M.holds cells.new)
        (over_cells M.shown M.after (M.holds cells.old)
        (cells_asked code.now line what frame.old)) }
{
    match what {
        What::Load { v } => load_outer(alloc, code, frame, cells, v, line),
        What::LoadSlot { s } => load_slot(alloc, code, frame, cells, s, line),
        What::Store { v } => store_outer(alloc, code, frame, cells, v, line),
        What::StoreSlot { s } => store_slot(alloc, code, frame, cells, s, line),
        What::Forget { v } => forget_outer(alloc, code, frame, cells, v, line),
        What::ForgetSlot { s } => forget_slot(alloc, code, frame, cells, s, line),
        What::LoadDummy { d } => dummy_loaded(alloc, code, frame, cells, d, line),
        What::StoreDummy { d } => dummy_stored(alloc, code, frame, cells, d, line),
        What::Fill { v } => filled(alloc, code, frame, cells, v, line),
        What::Fold { f, v } => folding_pushed(alloc, code, frame, cells, f, v, line),
        What::Contribute { op, v } => contributed(alloc, code, frame, cells, op, v, line),
        What::PutAll { v } => all_put(alloc, code, frame, cells, v, line),
        _ => Err(OTHER),
    }
}
