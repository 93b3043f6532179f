//! Elements of outside variables.

ghost use Rattle.std.specs.Prelude.{◌≡◌, slice_get, is_some, option_map};
ghost use Rattle.dc_int.specs.Sorts.{sort_with, fitted};
ghost use Rattle.dc_code.specs.OverCells.{over_cells};
ghost use Rattle.dc_code.specs.Instructions.{contributed_as};
ghost use Rattle.dc_code.specs.Reaching.{sort_of_shape, element_sort, element_read, element_defined};
ghost use Rattle.dc_steps.specs.Halting.{Reaches};
ghost use Rattle.dc_steps.specs.Ready.{AreReady, UnlessNoMemory};
ghost use Rattle.dc_steps.specs.Working.{element_forgotten};

use crate::halt::{Halt, STUCK};
use dc_code::Code;
use dc_int::{ElementId, Kind, ReduceOp, Shape, wrap_to};
use dc_store::Cells;
use std::alloc::Global;

/// The shape of a variable, where there is such a variable.
pub(crate) fn shape_numbered(code: &Code, variable: u32) -> Option<Shape>
    ensures { result ≡ slice_get (code.now).shapes variable }
{
    code.shapes().get(variable as usize).copied()
}

/// The shape of the variable of an element, where there is such an element.
fn shape_of(code: &Code, element: ElementId) -> Option<Shape>
    ensures { option_map sort_of_shape result ≡ element_sort code.now element }
{
    let shape = code.shapes().get(element.variable as usize)?;
    if element.position < shape.elements {
        Some(*shape)
    } else {
        None
    }
}

/// A value as a variable, a group of slots or a dummy takes it.
pub fn fitted(logical: bool, kind: Kind, value: i64) -> i64
    ensures { result ≡ fitted (sort_with logical kind) value }
{
    if logical {
        i64::from(value != 0)
    } else {
        wrap_to(kind, i128::from(value))
    }
}

/// The value of an element.
#[tactic(auto, using(crate::proofs::Asking::asking))]
pub fn element_read<M: Cells>(
    alloc: Global,
    code: &Code,
    cells: &mut M,
    element: ElementId,
    line: u32,
) -> Result<i64, Halt>
    requires { AreReady code.now M.shapes M.shown (M.holds cells.old) }
    ensures ready { UnlessNoMemory result (AreReady code.now M.shapes M.shown (M.holds cells.new)) }
    ensures reads { Reaches line result (λ z. z) (M.holds cells.new)
        (over_cells M.shown M.after (M.holds cells.old) (element_read code.now line element)) }
{
    if shape_of(code, element).is_none() {
        return Err(STUCK);
    }
    cells.get(alloc, element, line)?.ok_or(STUCK)
}

/// Defines an element.
#[tactic(auto, using(crate::proofs::Asking::asking))]
pub fn element_defined<M: Cells>(
    alloc: Global,
    code: &Code,
    cells: &mut M,
    element: ElementId,
    value: i64,
    line: u32,
) -> Result<(), Halt>
    requires { AreReady code.now M.shapes M.shown (M.holds cells.old) }
    ensures ready { UnlessNoMemory result (AreReady code.now M.shapes M.shown (M.holds cells.new)) }
    ensures defines { Reaches line result (λ a. tt) (M.holds cells.new)
        (over_cells M.shown M.after (M.holds cells.old)
        (element_defined code.now line element value)) }
{
    let Some(shape) = shape_of(code, element) else {
        return Err(STUCK);
    };
    let value = fitted(shape.logical, shape.kind, value);
    cells.set(alloc, element, value, line)?;
    Ok(())
}

/// Makes an element undefined.
#[tactic(auto, using(crate::proofs::Asking::asking))]
pub fn element_forgotten<M: Cells>(
    alloc: Global,
    code: &Code,
    cells: &mut M,
    element: ElementId,
    line: u32,
) -> Result<(), Halt>
    requires { AreReady code.now M.shapes M.shown (M.holds cells.old) }
    ensures ready { UnlessNoMemory result (AreReady code.now M.shapes M.shown (M.holds cells.new)) }
    ensures forgets { Reaches line result (λ a. tt) (M.holds cells.new)
        (over_cells M.shown M.after (M.holds cells.old) (element_forgotten code.now line element)) }
{
    if shape_of(code, element).is_none() {
        return Err(STUCK);
    }
    cells.forget(alloc, element, line)?;
    Ok(())
}

/// Contributes a value to an element.
#[tactic(auto, using(crate::proofs::Asking::asking))]
pub fn element_contributed<M: Cells>(
    alloc: Global,
    code: &Code,
    cells: &mut M,
    element: ElementId,
    op: ReduceOp,
    value: i64,
    line: u32,
) -> Result<(), Halt>
    requires { AreReady code.now M.shapes M.shown (M.holds cells.old) }
    ensures ready { UnlessNoMemory result (AreReady code.now M.shapes M.shown (M.holds cells.new)) }
    ensures contributes { Reaches line result (λ a. tt) (M.holds cells.new)
        (over_cells M.shown M.after (M.holds cells.old)
        (contributed_as line element op value (element_sort code.now element))) }
{
    let Some(shape) = shape_of(code, element) else {
        return Err(STUCK);
    };
    let value = fitted(shape.logical, shape.kind, value);
    cells.contribute(alloc, element, op, value)?;
    Ok(())
}
