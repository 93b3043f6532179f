//! SUM, COUNT, ANY and ALL of all elements of an array.

ghost use Rattle.std.specs.Prelude.{◌≡◌, ℕ, slice_get};
ghost use Rattle.dc_code.specs.Codes.{elements_of_variable};
ghost use Rattle.dc_code.specs.Instructions.{folding_pushed, slot_folding_pushed};
ghost use Rattle.dc_code.specs.OverCells.{over_cells};
ghost use Rattle.dc_code.specs.Reaching.{group_planned};
ghost use Rattle.dc_steps.specs.Elementwise.{folded_first, folded_further};
ghost use Rattle.dc_steps.specs.Elementwise.{elements_folded, states_folded};
ghost use Rattle.dc_steps.specs.Halting.{Gives, Leaves, Reaches, LeavesBoth};
ghost use Rattle.dc_steps.specs.Ready.{AreReady, UnlessNoMemory};

use crate::arrays::elements_of;
use crate::elements::{element_read, shape_numbered};
use crate::halt::{Halt, STUCK};
use crate::places::group_of;
use crate::values::value_pushed;
use dc_code::{Code, Folding};
use dc_frame::Frame;
use dc_int::{ElementId, Kind, wrap_to};
use dc_store::Cells;
use std::alloc::Global;

/// What is made of no values.
fn folded_first(folding: Folding) -> i64
    ensures { result ≡ folded_first folding }
{
    match folding {
        Folding::Sum | Folding::Count | Folding::Any => 0,
        Folding::All => 1,
    }
}

/// What is made of one value more.
fn folded_further(folding: Folding, kind: Kind, before: i64, value: i64) -> i64
    ensures { result ≡ folded_further folding kind before value }
{
    match folding {
        Folding::Sum => wrap_to(kind, i128::from(before) + i128::from(value)),
        Folding::Count => wrap_to(Kind::K4, i128::from(before) + i128::from(value != 0)),
        Folding::Any => i64::from(before != 0 || value != 0),
        Folding::All => i64::from(before != 0 && value != 0),
    }
}

/// What is made of the elements of a variable.
fn elements_folded<M: Cells>(
    alloc: Global,
    code: &Code,
    cells: &mut M,
    folding: Folding,
    kind: Kind,
    variable: u32,
    line: u32,
) -> Result<i64, Halt>
    requires { AreReady code.now M.shapes M.shown (M.holds cells.old) }
    ensures ready { UnlessNoMemory result (AreReady code.now M.shapes M.shown (M.holds cells.new)) }
    ensures folds { Reaches line result (λ z. z) (M.holds cells.new)
        (over_cells M.shown M.after (M.holds cells.old)
        (elements_folded code.now line folding kind (elements_of_variable code.now variable))) }
{
    let count = elements_of(code, variable);
    let mut value = folded_first(folding);
    for position in 0..count {
        let element = ElementId { variable, position };
        match element_read(alloc, code, cells, element, line) {
            Ok(other) => value = folded_further(folding, kind, value, other),
            Err(halt) => return Err(halt),
        }
    }
    Ok(value)
}

/// What is made of the states of slots, which have to be defined.
fn states_folded(states: &[Option<i64>], folding: Folding, kind: Kind) -> Result<i64, Halt>
    ensures { (line : ℕ)
        → Gives line result (λ z. z) (states_folded line folding kind states.now) }
{
    let mut value = folded_first(folding);
    for state in states {
        let Some(other) = *state else {
            return Err(STUCK);
        };
        value = folded_further(folding, kind, value, other);
    }
    Ok(value)
}

/// Pushes what is made of the elements of a variable.
pub fn folding_pushed<M: Cells>(
    alloc: Global,
    code: &Code,
    frame: &mut Frame,
    cells: &mut M,
    folding: Folding,
    variable: u32,
    line: u32,
) -> Result<(), Halt>
    requires { AreReady code.now M.shapes M.shown (M.holds cells.old) }
    ensures ready { UnlessNoMemory result (AreReady code.now M.shapes M.shown (M.holds cells.new)) }
    ensures folds { LeavesBoth line result frame.new (M.holds cells.new)
        (over_cells M.shown M.after (M.holds cells.old)
        (folding_pushed code.now line folding variable
        (slice_get (code.now).shapes variable) frame.old)) }
{
    let Some(shape) = shape_numbered(code, variable) else {
        return Err(STUCK);
    };
    match elements_folded(alloc, code, cells, folding, shape.kind, variable, line) {
        Ok(value) => value_pushed(frame, value),
        Err(halt) => Err(halt),
    }
}

/// Pushes what is made of the slots of a group.
pub fn slot_folding_pushed(
    frame: &mut Frame,
    code: &Code,
    folding: Folding,
    group: u32,
) -> Result<(), Halt>
    ensures { (line : ℕ) → Leaves line result frame.new
        (slot_folding_pushed line folding group
        (group_planned code.now frame.old group) frame.old) }
{
    let Some(found) = group_of(code, frame.plan(), group) else {
        return Err(STUCK);
    };
    match states_folded(frame.group(group), folding, found.kind) {
        Ok(value) => value_pushed(frame, value),
        Err(halt) => Err(halt),
    }
}
