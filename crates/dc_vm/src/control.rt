//! Instructions that say where to go on.

ghost use Rattle.std.specs.Prelude.{◌≡◌, ◌<◌, slice_get, Some};
ghost use Rattle.dc_steps.specs.Carrying.{Carries};
ghost use Rattle.dc_steps.specs.Ready.{AreReady, UnlessNextOver};
ghost use Rattle.dc_vm.specs.declared.work.Work.{Work};
ghost use Rattle.dc_vm.specs.Groups.{work_of};

use crate::calls::called;
use crate::jumps::{ahead, ahead_unless, returned, spent_to};
use crate::next::paused_behind;
use dc_code::{Code, Instr, What};
use dc_int::FaultKind;
use dc_steps::{Ended, Frame, Next, line_ended};
use dc_store::Cells;
use std::alloc::Global;

/// Carries out an instruction that says where to go on.
#[tactic(auto, using(crate::proofs::Moved::moved))]
pub(crate) fn controlled<M: Cells>(
    alloc: Global,
    code: &Code,
    instr: Instr,
    at: usize,
    frame: &mut Frame,
    cells: &mut M,
    turns: u64,
) -> Next
    requires at { at < 4294967295 }
    requires found { slice_get (code.now).instructions at ≡ Some instr }
    requires control { work_of instr.what ≡ Work.Control }
    requires ready { AreReady code.now M.shapes M.shown (M.holds cells.old) }
    ensures carries { Carries code.now M.shown M.after instr.line instr.what at turns
        frame.old (M.holds cells.old) result frame.new (M.holds cells.new) }
    ensures ready { UnlessNextOver result (AreReady code.now M.shapes M.shown (M.holds cells.new)) }
{
    let line = instr.line;
    match instr.what {
        What::Jump { t } => ahead(t, at, turns, line),
        What::JumpFalse { t } => ahead_unless(frame, t, at, turns, line),
        What::Turn => spent_to(at + 1, turns, line),
        What::Back { t } => spent_to(t as usize, turns, line),
        What::Call { p, n } => called(alloc, code, frame, cells, p, n, at, turns, line),
        What::Return => returned(frame, turns, line),
        What::PutEnd => paused_behind(line_ended(frame), at, turns, line),
        What::End => Next::Over(Ended::Done { turns }),
        What::ErrorStop => Next::Over(Ended::Fault {
            why: FaultKind::ErrorStop,
            line,
        }),
        _ => unreachable!(),
    }
}
