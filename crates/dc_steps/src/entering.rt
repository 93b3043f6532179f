//! How a procedure is entered and left.

ghost use Rattle.std.specs.Prelude.{◌≡◌, ◌≤◌, ℕ, OnOk, length};
ghost use Rattle.dc_code.specs.Instructions.{deepened, result_pushed};
ghost use Rattle.dc_code.specs.Instructions.{forgotten_out, all_forgotten_out};
ghost use Rattle.dc_code.specs.OverCells.{over_cells};
ghost use Rattle.dc_steps.specs.Calling.{entering, unit_left};
ghost use Rattle.dc_steps.specs.Halting.{Gives, Leaves, LeavesBoth};
ghost use Rattle.dc_steps.specs.Ready.{AreReady, UnlessNoMemory};

use crate::arguments::dummies_of;
use crate::halt::{Halt, STUCK};
use crate::places::place_forgotten;
use crate::values::value_pushed;
use dc_code::{Code, DummyPlan, Passed, Passing};
use dc_frame::Frame;
use dc_int::FaultKind;
use dc_store::Cells;
use dc_text::DcList;
use std::alloc::Global;

/// How many calls stand open at most.
const GREATEST_CALLS: u32 = 100;

/// Whether one more call may stand open.
pub fn deepened(frame: &Frame) -> Result<(), Halt>
    ensures deepens { (line : ℕ) → Gives line result (λ a. tt) (deepened line frame.now) }
    ensures few { OnOk result (length frame.now.units ≤ 100) }
{
    if frame.level() >= GREATEST_CALLS {
        return Err(Halt::Fault(FaultKind::TooDeep));
    }
    Ok(())
}

/// Makes the place of an INTENT(OUT) dummy undefined.
fn forgotten_out<M: Cells>(
    alloc: Global,
    code: &Code,
    frame: &mut Frame,
    cells: &mut M,
    passing: Passing,
    given: Passed,
    line: u32,
) -> Result<(), Halt>
    requires { AreReady code.now M.shapes M.shown (M.holds cells.old) }
    ensures ready { UnlessNoMemory result (AreReady code.now M.shapes M.shown (M.holds cells.new)) }
    ensures forgets { LeavesBoth line result frame.new (M.holds cells.new)
        (over_cells M.shown M.after (M.holds cells.old)
        (forgotten_out code.now line passing given frame.old)) }
    ensures units { length frame.new.units ≡ length frame.old.units }
{
    match (passing, given) {
        (Passing::OutPlace, Passed::AtPlace(place)) => {
            place_forgotten(alloc, code, frame, cells, place, line)
        }
        _ => Ok(()),
    }
}

/// Makes the places of all INTENT(OUT) dummies undefined.
fn all_forgotten_out<M: Cells>(
    alloc: Global,
    code: &Code,
    frame: &mut Frame,
    cells: &mut M,
    dummies: &[DummyPlan],
    passed: &[Passed],
    line: u32,
) -> Result<(), Halt>
    requires { AreReady code.now M.shapes M.shown (M.holds cells.old) }
    ensures ready { UnlessNoMemory result (AreReady code.now M.shapes M.shown (M.holds cells.new)) }
    ensures forgets { LeavesBoth line result frame.new (M.holds cells.new)
        (over_cells M.shown M.after (M.holds cells.old)
        (all_forgotten_out code.now line dummies.now passed.now frame.old)) }
    ensures units { length frame.new.units ≡ length frame.old.units }
{
    let count = dummies.len().min(passed.len());
    for at in 0..count {
        let passing = dummies[at].passing;
        if let Err(halt) = forgotten_out(alloc, code, frame, cells, passing, passed[at], line) {
            return Err(halt);
        }
    }
    Ok(())
}

/// Enters a procedure, after the places of INTENT(OUT) dummies became undefined.
#[tactic(auto, using(crate::proofs::Leading::behind_work))]
pub fn entered<M: Cells>(
    alloc: Global,
    code: &Code,
    frame: &mut Frame,
    cells: &mut M,
    procedure: u32,
    passed: DcList<Passed>,
    back: u32,
    line: u32,
) -> Result<(), Halt>
    requires few { length frame.old.units ≤ 100 }
    requires ready { AreReady code.now M.shapes M.shown (M.holds cells.old) }
    ensures ready { UnlessNoMemory result (AreReady code.now M.shapes M.shown (M.holds cells.new)) }
    ensures enters { LeavesBoth line result frame.new (M.holds cells.new)
        (over_cells M.shown M.after (M.holds cells.old)
        (entering code.now line procedure passed back frame.old)) }
{
    let dummies = dummies_of(code, procedure);
    all_forgotten_out(alloc, code, frame, cells, dummies, passed.as_slice(), line)?;
    frame.enter(alloc, code, procedure, passed, back)?;
    Ok(())
}

/// Leaves the innermost unit, and gives the place behind its call.
pub fn unit_left(frame: &mut Frame) -> Result<u32, Halt>
    ensures { (line : ℕ)
        → Gives line result (λ back. (back, frame.new)) (unit_left line frame.old) }
{
    if frame.level() == 0 {
        return Err(STUCK);
    }
    let back = frame.back();
    frame.leave();
    Ok(back)
}

/// Pushes the result of the procedure that was called last.
pub fn result_pushed(frame: &mut Frame) -> Result<(), Halt>
    ensures { (line : ℕ) → Leaves line result frame.new (result_pushed line frame.old) }
{
    let value = frame.returned().ok_or(STUCK)?;
    value_pushed(frame, value)
}
