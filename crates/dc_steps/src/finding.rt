//! The places that instructions name.

ghost use Rattle.std.specs.Prelude.{ℕ};
ghost use Rattle.dc_code.specs.Reaching.{outer_place, slot_place, dummy, dummy_place, place_pushed};
ghost use Rattle.dc_steps.specs.Halting.{Gives, Leaves};

use crate::halt::{Halt, STUCK};
use dc_code::{Item, Passed, Place};
use dc_frame::Frame;
use dc_int::ElementId;

/// The element of an outside variable whose position is taken off.
pub fn outer_place(frame: &mut Frame, variable: u32) -> Result<Place, Halt>
    ensures { (line : ℕ)
        → Gives line result (λ at. (at, frame.new)) (outer_place line variable frame.old) }
{
    let position = frame.take_position().ok_or(STUCK)?;
    Ok(Place::Outer(ElementId { variable, position }))
}

/// The slot of the innermost unit whose position is taken off.
pub fn slot_place(frame: &mut Frame, group: u32) -> Result<Place, Halt>
    ensures { (line : ℕ)
        → Gives line result (λ at. (at, frame.new)) (slot_place line group frame.old) }
{
    let position = frame.take_position().ok_or(STUCK)?;
    Ok(Place::InFrame {
        level: frame.level(),
        group,
        position,
    })
}

/// The place with which a dummy is associated.
pub fn dummy_place(frame: &Frame, number: u32) -> Result<Place, Halt>
    ensures { (line : ℕ) → Gives line result (λ at. (at, frame.now))
        (dummy_place line frame.now (dummy frame.now number)) }
{
    match frame.dummy(number) {
        Some(Passed::AtPlace(place)) => Ok(place),
        Some(Passed::ByValue(_)) | None => Err(STUCK),
    }
}

/// Pushes the place of an element.
pub fn push_outer(frame: &mut Frame, variable: u32) -> Result<(), Halt>
    ensures { (line : ℕ) → Leaves line result frame.new
        (place_pushed (outer_place line variable frame.old)) }
{
    let place = outer_place(frame, variable)?;
    frame.push_item(Item::Place(place))?;
    Ok(())
}

/// Pushes the place of a slot.
pub fn push_slot(frame: &mut Frame, group: u32) -> Result<(), Halt>
    ensures { (line : ℕ) → Leaves line result frame.new
        (place_pushed (slot_place line group frame.old)) }
{
    let place = slot_place(frame, group)?;
    frame.push_item(Item::Place(place))?;
    Ok(())
}

/// Pushes the place of a dummy.
pub fn push_dummy(frame: &mut Frame, number: u32) -> Result<(), Halt>
    ensures { (line : ℕ) → Leaves line result frame.new
        (place_pushed (dummy_place line frame.old (dummy frame.old number))) }
{
    let place = dummy_place(frame, number)?;
    frame.push_item(Item::Place(place))?;
    Ok(())
}
