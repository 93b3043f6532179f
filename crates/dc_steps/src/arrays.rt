//! Instructions on whole arrays.

ghost use Rattle.std.specs.Prelude.{◌≡◌, ℕ, slice_get};
ghost use Rattle.dc_code.specs.Codes.{elements_of_shape, elements_of_variable};
ghost use Rattle.dc_code.specs.OverCells.{over_cells};
ghost use Rattle.dc_code.specs.Reaching.{all_defined, filled, slots_filled};
ghost use Rattle.dc_steps.specs.Halting.{Leaves, Reaches, LeavesBoth};
ghost use Rattle.dc_steps.specs.Ready.{AreReady, UnlessNoMemory};

use crate::elements::element_defined;
use crate::halt::Halt;
use crate::places::{fitted_to_group, group_of};
use crate::values::value_off;
use dc_code::Code;
use dc_frame::Frame;
use dc_int::ElementId;
use dc_store::Cells;
use std::alloc::Global;

/// How many elements a variable has, and none where there is no such variable.
pub fn elements_of(code: &Code, variable: u32) -> u32
    ensures { result ≡ elements_of_shape (slice_get (code.now).shapes variable) }
{
    match code.shapes().get(variable as usize) {
        Some(shape) => shape.elements,
        None => 0,
    }
}

/// Defines all elements of a variable.
fn all_defined<M: Cells>(
    alloc: Global,
    code: &Code,
    cells: &mut M,
    variable: u32,
    value: i64,
    line: u32,
) -> Result<(), Halt>
    requires { AreReady code.now M.shapes M.shown (M.holds cells.old) }
    ensures ready { UnlessNoMemory result (AreReady code.now M.shapes M.shown (M.holds cells.new)) }
    ensures defines { Reaches line result (λ a. tt) (M.holds cells.new)
        (over_cells M.shown M.after (M.holds cells.old)
        (all_defined code.now line (elements_of_variable code.now variable) value)) }
{
    let count = elements_of(code, variable);
    for position in 0..count {
        let element = ElementId { variable, position };
        if let Err(halt) = element_defined(alloc, code, cells, element, value, line) {
            return Err(halt);
        }
    }
    Ok(())
}

/// Takes a value off, and defines all elements of a variable with it.
#[tactic(auto, using(crate::proofs::Leading::behind_work))]
pub fn filled<M: Cells>(
    alloc: Global,
    code: &Code,
    frame: &mut Frame,
    cells: &mut M,
    variable: u32,
    line: u32,
) -> Result<(), Halt>
    requires { AreReady code.now M.shapes M.shown (M.holds cells.old) }
    ensures ready { UnlessNoMemory result (AreReady code.now M.shapes M.shown (M.holds cells.new)) }
    ensures fills { LeavesBoth line result frame.new (M.holds cells.new)
        (over_cells M.shown M.after (M.holds cells.old)
        (filled code.now line variable frame.old)) }
{
    let value = value_off(frame)?;
    all_defined(alloc, code, cells, variable, value, line)
}

/// Takes a value off, and gives it to all slots of a group.
pub fn slots_filled(frame: &mut Frame, code: &Code, group: u32) -> Result<(), Halt>
    ensures { (line : ℕ)
        → Leaves line result frame.new (slots_filled code.now line group frame.old) }
{
    let value = value_off(frame)?;
    let value = fitted_to_group(group_of(code, frame.plan(), group), value);
    frame.fill_group(group, value);
    Ok(())
}
