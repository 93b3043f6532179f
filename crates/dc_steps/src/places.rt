//! Places, which are read, defined and forgotten.

ghost use Rattle.std.specs.Prelude.{◌≡◌, length, slice_get, IfSome, IsTrue};
ghost use Rattle.std.specs.Option.{option_copied};
ghost use Rattle.dc_code.specs.Codes.{is_small, has_small_groups, plan_numbered};
ghost use Rattle.dc_code.specs.Computation.{give};
ghost use Rattle.dc_code.specs.OverCells.{over_cells};
ghost use Rattle.dc_code.specs.Reaching.{group_sort, slot_sort, fitted_to};
ghost use Rattle.dc_code.specs.Reaching.{place_read, place_defined, place_forgotten};
ghost use Rattle.dc_code.specs.Reaching.{loaded, stored};
ghost use Rattle.dc_steps.specs.Halting.{Reaches, LeavesBoth};
ghost use Rattle.dc_steps.specs.Ready.{AreReady, UnlessNoMemory};

use crate::elements::{element_defined, element_forgotten, element_read, fitted};
use crate::halt::{Halt, STUCK};
use crate::values::value_off;
use dc_code::{Code, Group, Place, Plan};
use dc_frame::Frame;
use dc_store::Cells;
use std::alloc::Global;

/// The plan of a number, where there is one.
pub(crate) fn plan_numbered(code: &Code, number: u32) -> Option<&Plan>
    ensures plan { option_copied result ≡ slice_get (code.now).plans number }
    ensures small { IfSome result (λ found. IsTrue (has_small_groups found.now)) }
{
    code.plans().get(number as usize)
}

/// A group of slots of a plan.
#[tactic(auto, using(crate::proofs::Placing::placing))]
fn group_in(plan: &Plan, group: u32) -> Option<&Group>
    requires { IsTrue (has_small_groups plan.now) }
    ensures group { option_copied result ≡ slice_get (plan.now).groups group }
    ensures small { IfSome result (λ found. IsTrue (is_small found.now.bounds)) }
{
    match plan.groups.get(group as usize) {
        Some(group) => Some(group),
        None => None,
    }
}

/// A group of slots of the plan of a number.
pub fn group_of(code: &Code, plan: u32, group: u32) -> Option<&Group>
    ensures group { option_copied result ≡ slice_get (plan_numbered code.now plan).groups group }
    ensures small { IfSome result (λ found. IsTrue (is_small found.now.bounds)) }
{
    match plan_numbered(code, plan) {
        Some(plan) => group_in(plan, group),
        None => None,
    }
}

/// A value as a group of slots takes it.
pub fn fitted_to_group(group: Option<&Group>, value: i64) -> i64
    ensures { result ≡ fitted_to (group_sort (option_copied group.entry)) value }
{
    match group {
        Some(group) => fitted(group.logical, group.kind, value),
        None => value,
    }
}

/// A value as a slot of a unit takes it.
fn fitted_to_slot(code: &Code, frame: &Frame, level: u32, group: u32, value: i64) -> i64
    ensures { result ≡ fitted_to (slot_sort code.now frame.now level group) value }
{
    match frame.plan_of(level) {
        Some(plan) => fitted_to_group(group_of(code, plan, group), value),
        None => value,
    }
}

/// The value of a place.
pub fn place_read<M: Cells>(
    alloc: Global,
    code: &Code,
    frame: &Frame,
    cells: &mut M,
    place: Place,
    line: u32,
) -> Result<i64, Halt>
    requires { AreReady code.now M.shapes M.shown (M.holds cells.old) }
    ensures ready { UnlessNoMemory result (AreReady code.now M.shapes M.shown (M.holds cells.new)) }
    ensures reads { Reaches line result (λ z. z) (M.holds cells.new)
        (over_cells M.shown M.after (M.holds cells.old) (place_read code.now line frame.now place)) }
{
    match place {
        Place::Outer(element) => element_read(alloc, code, cells, element, line),
        Place::InFrame {
            level,
            group,
            position,
        } => frame.slot(level, group, position).ok_or(STUCK),
    }
}

/// Defines a place.
#[tactic(auto, using(crate::proofs::Leading::behind_work))]
pub fn place_defined<M: Cells>(
    alloc: Global,
    code: &Code,
    frame: &mut Frame,
    cells: &mut M,
    place: Place,
    value: i64,
    line: u32,
) -> Result<(), Halt>
    requires { AreReady code.now M.shapes M.shown (M.holds cells.old) }
    ensures ready { UnlessNoMemory result (AreReady code.now M.shapes M.shown (M.holds cells.new)) }
    ensures defines { LeavesBoth line result frame.new (M.holds cells.new)
        (over_cells M.shown M.after (M.holds cells.old)
        (place_defined code.now line place value frame.old)) }
{
    match place {
        Place::Outer(element) => element_defined(alloc, code, cells, element, value, line),
        Place::InFrame {
            level,
            group,
            position,
        } => {
            let value = fitted_to_slot(code, frame, level, group, value);
            frame.put_slot(level, group, position, Some(value));
            Ok(())
        }
    }
}

/// Makes a place undefined.
pub fn place_forgotten<M: Cells>(
    alloc: Global,
    code: &Code,
    frame: &mut Frame,
    cells: &mut M,
    place: Place,
    line: u32,
) -> Result<(), Halt>
    requires { AreReady code.now M.shapes M.shown (M.holds cells.old) }
    ensures ready { UnlessNoMemory result (AreReady code.now M.shapes M.shown (M.holds cells.new)) }
    ensures forgets { LeavesBoth line result frame.new (M.holds cells.new)
        (over_cells M.shown M.after (M.holds cells.old)
        (place_forgotten code.now line place frame.old)) }
    ensures units { length frame.new.units ≡ length frame.old.units }
{
    match place {
        Place::Outer(element) => element_forgotten(alloc, code, cells, element, line),
        Place::InFrame {
            level,
            group,
            position,
        } => {
            frame.put_slot(level, group, position, None);
            Ok(())
        }
    }
}

/// Pushes the value of a place.
#[tactic(auto, using(crate::proofs::Leading::behind_work))]
pub fn loaded<M: Cells>(
    alloc: Global,
    code: &Code,
    frame: &mut Frame,
    cells: &mut M,
    place: Place,
    line: u32,
) -> Result<(), Halt>
    requires { AreReady code.now M.shapes M.shown (M.holds cells.old) }
    ensures ready { UnlessNoMemory result (AreReady code.now M.shapes M.shown (M.holds cells.new)) }
    ensures loads { LeavesBoth line result frame.new (M.holds cells.new)
        (over_cells M.shown M.after (M.holds cells.old)
        (loaded code.now line (give (place, frame.old)))) }
{
    let value = place_read(alloc, code, frame, cells, place, line)?;
    frame.push(value)?;
    Ok(())
}

/// Takes a value off and stores it in a place.
#[tactic(auto, using(crate::proofs::Leading::behind_work))]
pub fn stored<M: Cells>(
    alloc: Global,
    code: &Code,
    frame: &mut Frame,
    cells: &mut M,
    place: Place,
    line: u32,
) -> Result<(), Halt>
    requires { AreReady code.now M.shapes M.shown (M.holds cells.old) }
    ensures ready { UnlessNoMemory result (AreReady code.now M.shapes M.shown (M.holds cells.new)) }
    ensures stores { LeavesBoth line result frame.new (M.holds cells.new)
        (over_cells M.shown M.after (M.holds cells.old)
        (stored code.now line (give (place, frame.old)))) }
{
    let value = value_off(frame)?;
    place_defined(alloc, code, frame, cells, place, value, line)
}
