//! Instructions that put values and texts on the output line.

ghost use Rattle.std.specs.Prelude.{◌≡◌, ℕ, slice_get, Some};
ghost use Rattle.dc_int.specs.declared.kind.Kind.{Kind};
ghost use Rattle.dc_int.specs.Sorts.{sort_with};
ghost use Rattle.dc_code.specs.Instructions.{value_put, text_put, all_put};
ghost use Rattle.dc_code.specs.OverCells.{over_cells};
ghost use Rattle.dc_steps.specs.Halting.{Leaves, LeavesBoth};
ghost use Rattle.dc_steps.specs.Ready.{AreReady, UnlessNoMemory};
ghost use Rattle.dc_steps.specs.Working.{line_ended};

use crate::elements::{element_read, shape_numbered};
use crate::halt::{Halt, STUCK};
use crate::values::value_off;
use dc_code::Code;
use dc_frame::Frame;
use dc_int::{ElementId, Shape};
use dc_store::Cells;
use std::alloc::Global;

/// Puts a value on the line.
pub fn value_put(frame: &mut Frame, logical: bool) -> Result<(), Halt>
    ensures { (line : ℕ) → Leaves line result frame.new
        (value_put line (sort_with logical Kind.K8) frame.old) }
{
    let value = value_off(frame)?;
    frame.put_value(logical, value)?;
    Ok(())
}

/// Puts a text on the line.
pub fn text_put(frame: &mut Frame, code: &Code, number: u32) -> Result<(), Halt>
    ensures { (line : ℕ) → Leaves line result frame.new
        (text_put line (slice_get (code.now).texts number) frame.old) }
{
    match code.texts().get(number as usize) {
        Some(text) => {
            frame.put_text(text.as_bytes())?;
            Ok(())
        }
        None => Err(STUCK),
    }
}

/// Puts the elements of a variable of this shape on the line.
fn elements_put<M: Cells>(
    alloc: Global,
    code: &Code,
    frame: &mut Frame,
    cells: &mut M,
    variable: u32,
    shape: Shape,
    line: u32,
) -> Result<(), Halt>
    requires shape { slice_get (code.now).shapes variable ≡ Some shape }
    requires ready { AreReady code.now M.shapes M.shown (M.holds cells.old) }
    ensures ready { UnlessNoMemory result (AreReady code.now M.shapes M.shown (M.holds cells.new)) }
    ensures puts { LeavesBoth line result frame.new (M.holds cells.new)
        (over_cells M.shown M.after (M.holds cells.old)
        (all_put code.now line variable (Some shape) frame.old)) }
{
    for position in 0..shape.elements {
        let element = ElementId { variable, position };
        match element_read(alloc, code, cells, element, line) {
            Ok(value) => frame.put_value(shape.logical, value)?,
            Err(halt) => return Err(halt),
        }
    }
    Ok(())
}

/// Puts all elements of a variable on the line.
pub fn all_put<M: Cells>(
    alloc: Global,
    code: &Code,
    frame: &mut Frame,
    cells: &mut M,
    variable: u32,
    line: u32,
) -> Result<(), Halt>
    requires { AreReady code.now M.shapes M.shown (M.holds cells.old) }
    ensures ready { UnlessNoMemory result (AreReady code.now M.shapes M.shown (M.holds cells.new)) }
    ensures puts { LeavesBoth line result frame.new (M.holds cells.new)
        (over_cells M.shown M.after (M.holds cells.old)
        (all_put code.now line variable (slice_get (code.now).shapes variable) frame.old)) }
{
    match shape_numbered(code, variable) {
        Some(shape) => elements_put(alloc, code, frame, cells, variable, shape, line),
        None => Err(STUCK),
    }
}

/// Ends the line.
pub fn line_ended(frame: &mut Frame) -> Result<(), Halt>
    ensures { (line : ℕ) → Leaves line result frame.new (line_ended frame.old) }
{
    frame.end_line()?;
    Ok(())
}
