//! Instructions on a dummy.

ghost use Rattle.std.specs.Prelude.{◌≡◌, slice_get};
ghost use Rattle.dc_code.specs.Codes.{plan_numbered};
ghost use Rattle.dc_code.specs.OverCells.{over_cells};
ghost use Rattle.dc_code.specs.Reaching.{dummy_sort, fitted_to, dummy, dummy_loaded, dummy_stored};
ghost use Rattle.dc_steps.specs.Halting.{LeavesBoth};
ghost use Rattle.dc_steps.specs.Ready.{AreReady, UnlessNoMemory};

use crate::elements::fitted;
use crate::halt::{Halt, STUCK};
use crate::places::{loaded, stored};
use crate::values::value_off;
use dc_code::{Code, Passed};
use dc_frame::Frame;
use dc_store::Cells;
use std::alloc::Global;

/// A value as a dummy of a plan takes it.
fn fitted_to_dummy(code: &Code, plan: u32, number: u32, value: i64) -> i64
    ensures { result ≡ fitted_to
        (dummy_sort (slice_get (plan_numbered code.now plan).dummies number)) value }
{
    let Some(plan) = code.plans().get(plan as usize) else {
        return value;
    };
    match plan.dummies.get(number as usize) {
        Some(dummy) => fitted(dummy.logical, dummy.kind, value),
        None => value,
    }
}

/// Pushes the value of a dummy.
pub fn dummy_loaded<M: Cells>(
    alloc: Global,
    code: &Code,
    frame: &mut Frame,
    cells: &mut M,
    number: u32,
    line: u32,
) -> Result<(), Halt>
    requires { AreReady code.now M.shapes M.shown (M.holds cells.old) }
    ensures ready { UnlessNoMemory result (AreReady code.now M.shapes M.shown (M.holds cells.new)) }
    ensures loads { LeavesBoth line result frame.new (M.holds cells.new)
        (over_cells M.shown M.after (M.holds cells.old)
        (dummy_loaded code.now line frame.old (dummy frame.old number))) }
{
    match frame.dummy(number) {
        Some(Passed::ByValue(value)) => {
            frame.push(value)?;
            Ok(())
        }
        Some(Passed::AtPlace(place)) => loaded(alloc, code, frame, cells, place, line),
        None => Err(STUCK),
    }
}

/// Takes a value off and gives it to a dummy.
pub fn dummy_stored<M: Cells>(
    alloc: Global,
    code: &Code,
    frame: &mut Frame,
    cells: &mut M,
    number: u32,
    line: u32,
) -> Result<(), Halt>
    requires { AreReady code.now M.shapes M.shown (M.holds cells.old) }
    ensures ready { UnlessNoMemory result (AreReady code.now M.shapes M.shown (M.holds cells.new)) }
    ensures stores { LeavesBoth line result frame.new (M.holds cells.new)
        (over_cells M.shown M.after (M.holds cells.old)
        (dummy_stored code.now line number frame.old (dummy frame.old number))) }
{
    match frame.dummy(number) {
        Some(Passed::ByValue(_)) => {
            let value = value_off(frame)?;
            let value = fitted_to_dummy(code, frame.plan(), number, value);
            frame.put_dummy(number, value);
            Ok(())
        }
        Some(Passed::AtPlace(place)) => stored(alloc, code, frame, cells, place, line),
        None => Err(STUCK),
    }
}
