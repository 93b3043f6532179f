//! The positions of elements and slots, by their subscripts.

ghost use Rattle.std.specs.Prelude.{ℕ, slice_get, Some, IsTrue};
ghost use Rattle.dc_code.specs.Codes.{is_small};
ghost use Rattle.dc_code.specs.Reaching.{group_bounds, group_planned, positioned};
ghost use Rattle.dc_steps.specs.Halting.{Leaves};

use crate::halt::{Halt, STUCK};
use crate::places::group_of;
use dc_code::{Code, Item};
use dc_frame::{Frame, Subscripted};
use dc_int::FaultKind;

/// Takes subscripts off, and pushes the position of their element.
#[tactic(auto, using(crate::proofs::Placing::placing))]
fn positioned(frame: &mut Frame, bounds: &[(i64, i64)]) -> Result<(), Halt>
    requires { IsTrue (is_small bounds.now) }
    ensures { (line : ℕ)
        → Leaves line result frame.new (positioned line (Some bounds.now) frame.old) }
{
    match frame.take_subscripts(bounds) {
        Subscripted::At(position) => {
            frame.push_item(Item::Position(position))?;
            Ok(())
        }
        Subscripted::Out => Err(Halt::Fault(FaultKind::Subscript)),
        Subscripted::Missing => Err(STUCK),
    }
}

/// The position in an outside variable.
pub fn subscript_outer(frame: &mut Frame, code: &Code, variable: u32) -> Result<(), Halt>
    ensures { (line : ℕ) → Leaves line result frame.new
        (positioned line (slice_get (code.now).bounds variable) frame.old) }
{
    match code.bounds().get(variable as usize) {
        Some(bounds) => positioned(frame, bounds.as_slice()),
        None => Err(STUCK),
    }
}

/// The position in a group of slots of the innermost unit.
pub fn subscript_slot(frame: &mut Frame, code: &Code, group: u32) -> Result<(), Halt>
    ensures { (line : ℕ) → Leaves line result frame.new
        (positioned line (group_bounds (group_planned code.now frame.old group)) frame.old) }
{
    match group_of(code, frame.plan(), group) {
        Some(group) => positioned(frame, group.bounds.as_slice()),
        None => Err(STUCK),
    }
}
