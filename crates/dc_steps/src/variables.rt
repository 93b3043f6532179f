//! Instructions on an element or a slot.

ghost use Rattle.dc_code.specs.Instructions.{contributed};
ghost use Rattle.dc_code.specs.OverCells.{over_cells};
ghost use Rattle.dc_code.specs.Reaching.{outer_place, slot_place, loaded, stored, forgotten};
ghost use Rattle.dc_steps.specs.Halting.{LeavesBoth};
ghost use Rattle.dc_steps.specs.Ready.{AreReady, UnlessNoMemory};

use crate::elements::element_contributed;
use crate::finding::{outer_place, slot_place};
use crate::halt::{Halt, STUCK};
use crate::places::{loaded, place_forgotten, stored};
use crate::values::value_off;
use dc_code::Code;
use dc_frame::Frame;
use dc_int::{ElementId, ReduceOp};
use dc_store::Cells;
use std::alloc::Global;

/// Pushes the value of an element.
pub fn load_outer<M: Cells>(
    alloc: Global,
    code: &Code,
    frame: &mut Frame,
    cells: &mut M,
    variable: u32,
    line: u32,
) -> Result<(), Halt>
    requires { AreReady code.now M.shapes M.shown (M.holds cells.old) }
    ensures ready { UnlessNoMemory result (AreReady code.now M.shapes M.shown (M.holds cells.new)) }
    ensures loads { LeavesBoth line result frame.new (M.holds cells.new)
        (over_cells M.shown M.after (M.holds cells.old)
        (loaded code.now line (outer_place line variable frame.old))) }
{
    let place = outer_place(frame, variable)?;
    loaded(alloc, code, frame, cells, place, line)
}

/// Pushes the value of a slot.
pub fn load_slot<M: Cells>(
    alloc: Global,
    code: &Code,
    frame: &mut Frame,
    cells: &mut M,
    group: u32,
    line: u32,
) -> Result<(), Halt>
    requires { AreReady code.now M.shapes M.shown (M.holds cells.old) }
    ensures ready { UnlessNoMemory result (AreReady code.now M.shapes M.shown (M.holds cells.new)) }
    ensures loads { LeavesBoth line result frame.new (M.holds cells.new)
        (over_cells M.shown M.after (M.holds cells.old)
        (loaded code.now line (slot_place line group frame.old))) }
{
    let place = slot_place(frame, group)?;
    loaded(alloc, code, frame, cells, place, line)
}

/// Defines an element.
pub fn store_outer<M: Cells>(
    alloc: Global,
    code: &Code,
    frame: &mut Frame,
    cells: &mut M,
    variable: u32,
    line: u32,
) -> Result<(), Halt>
    requires { AreReady code.now M.shapes M.shown (M.holds cells.old) }
    ensures ready { UnlessNoMemory result (AreReady code.now M.shapes M.shown (M.holds cells.new)) }
    ensures stores { LeavesBoth line result frame.new (M.holds cells.new)
        (over_cells M.shown M.after (M.holds cells.old)
        (stored code.now line (outer_place line variable frame.old))) }
{
    let place = outer_place(frame, variable)?;
    stored(alloc, code, frame, cells, place, line)
}

/// Defines a slot.
pub fn store_slot<M: Cells>(
    alloc: Global,
    code: &Code,
    frame: &mut Frame,
    cells: &mut M,
    group: u32,
    line: u32,
) -> Result<(), Halt>
    requires { AreReady code.now M.shapes M.shown (M.holds cells.old) }
    ensures ready { UnlessNoMemory result (AreReady code.now M.shapes M.shown (M.holds cells.new)) }
    ensures stores { LeavesBoth line result frame.new (M.holds cells.new)
        (over_cells M.shown M.after (M.holds cells.old)
        (stored code.now line (slot_place line group frame.old))) }
{
    let place = slot_place(frame, group)?;
    stored(alloc, code, frame, cells, place, line)
}

/// Makes an element undefined.
pub fn forget_outer<M: Cells>(
    alloc: Global,
    code: &Code,
    frame: &mut Frame,
    cells: &mut M,
    variable: u32,
    line: u32,
) -> Result<(), Halt>
    requires { AreReady code.now M.shapes M.shown (M.holds cells.old) }
    ensures ready { UnlessNoMemory result (AreReady code.now M.shapes M.shown (M.holds cells.new)) }
    ensures forgets { LeavesBoth line result frame.new (M.holds cells.new)
        (over_cells M.shown M.after (M.holds cells.old)
        (forgotten code.now line (outer_place line variable frame.old))) }
{
    let place = outer_place(frame, variable)?;
    place_forgotten(alloc, code, frame, cells, place, line)
}

/// Makes a slot undefined.
pub fn forget_slot<M: Cells>(
    alloc: Global,
    code: &Code,
    frame: &mut Frame,
    cells: &mut M,
    group: u32,
    line: u32,
) -> Result<(), Halt>
    requires { AreReady code.now M.shapes M.shown (M.holds cells.old) }
    ensures ready { UnlessNoMemory result (AreReady code.now M.shapes M.shown (M.holds cells.new)) }
    ensures forgets { LeavesBoth line result frame.new (M.holds cells.new)
        (over_cells M.shown M.after (M.holds cells.old)
        (forgotten code.now line (slot_place line group frame.old))) }
{
    let place = slot_place(frame, group)?;
    place_forgotten(alloc, code, frame, cells, place, line)
}

/// Contributes a value to a REDUCE element.
pub fn contributed<M: Cells>(
    alloc: Global,
    code: &Code,
    frame: &mut Frame,
    cells: &mut M,
    op: ReduceOp,
    variable: u32,
    line: u32,
) -> Result<(), Halt>
    requires { AreReady code.now M.shapes M.shown (M.holds cells.old) }
    ensures ready { UnlessNoMemory result (AreReady code.now M.shapes M.shown (M.holds cells.new)) }
    ensures contributes { LeavesBoth line result frame.new (M.holds cells.new)
        (over_cells M.shown M.after (M.holds cells.old)
        (contributed code.now line op variable frame.old)) }
{
    let position = frame.take_position().ok_or(STUCK)?;
    let value = value_off(frame)?;
    let element = ElementId { variable, position };
    element_contributed(alloc, code, cells, element, op, value, line)
}
