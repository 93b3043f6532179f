//! Accesses, last states and contributions, from notes.

ghost use Rattle.std.specs.Prelude.{◌≡◌, ◌++◌, map, None, IfOk, OnOk};
ghost use Rattle.std.specs.List.{list_any};
ghost use Rattle.dc_int.specs.Entries as entries;
ghost use Rattle.dc_int.specs.Entries.{accesses_of, contributions_of, touched_of, state_after};
ghost use Rattle.dc_int.specs.Store as stores;
ghost use Rattle.dc_plain.specs.Views.{entry_of, entries_of, more_seen, states_in, store_of};

use crate::note::{Note, Variable, same_element};
use dc_int::{Access, Contribution, ElementId, Touch};
use dc_text::{DcList, NoMemory};
use std::alloc::Global;

/// The accesses that were noted, in their order.
pub(crate) fn accesses(alloc: Global, notes: &[Note]) -> Result<DcList<Access>, NoMemory>
    ensures { IfOk result (λ made. made ≡ accesses_of (entries_of notes.now)) }
{
    let mut accesses = DcList::new(alloc);
    for note in notes {
        accesses.push(note.access())?;
    }
    Ok(accesses)
}

/// The contributions that were noted: there are none.
pub(crate) fn contributions(alloc: Global, _notes: &[Note]) -> DcList<Contribution>
    ensures { result ≡ contributions_of (entries_of _notes.now) }
{
    DcList::new(alloc)
}

fn is_among(elements: &[ElementId], element: ElementId) -> bool
    ensures { result ≡ list_any (stores.same_element element) elements.now }
{
    for other in elements {
        if same_element(element, *other) {
            return true;
        }
    }
    false
}

fn state_behind(note: Note, element: ElementId, state: Option<i64>) -> Option<i64>
    ensures { result ≡ entries.state_after_entry element (entry_of note) state }
{
    match note {
        Note::Read { .. } => state,
        Note::Defined {
            element: other,
            value,
            ..
        } => {
            if same_element(element, other) {
                Some(value)
            } else {
                state
            }
        }
    }
}

/// The state in which the notes leave an element.
fn last_state(notes: &[Note], element: ElementId) -> Option<i64>
    ensures { result ≡ state_after element (entries_of notes.now) None }
{
    let mut state = None;
    for note in notes {
        state = state_behind(*note, element, state);
    }
    state
}

/// Adds the element that was defined, unless it is among the elements.
fn add(elements: &mut DcList<ElementId>, note: Note) -> Result<(), NoMemory>
    ensures { OnOk result (elements.new ≡ more_seen elements.old (entry_of note)) }
{
    match note {
        Note::Read { .. } => Ok(()),
        Note::Defined { element, .. } => {
            if is_among(elements.as_slice(), element) {
                Ok(())
            } else {
                elements.push(element)
            }
        }
    }
}

/// The elements that were defined, each once, in the order in which they were first.
fn touched(alloc: Global, notes: &[Note]) -> Result<DcList<ElementId>, NoMemory>
    ensures { IfOk result (λ made. made ≡ touched_of (entries_of notes.now)) }
{
    let mut elements = DcList::new(alloc);
    for note in notes {
        add(&mut elements, *note)?;
    }
    Ok(elements)
}

fn last_states(
    alloc: Global,
    notes: &[Note],
    elements: &[ElementId],
) -> Result<DcList<Touch>, NoMemory>
    ensures { IfOk result
        (λ made. made ≡ map (entries.last_state (entries_of notes.now)) elements.now) }
{
    let mut touches = DcList::new(alloc);
    for element in elements {
        touches.push(Touch {
            element: *element,
            value: last_state(notes, *element),
        })?;
    }
    Ok(touches)
}

/// The last states of the elements that were defined, in the order in which they were first.
pub(crate) fn touches(alloc: Global, notes: &[Note]) -> Result<DcList<Touch>, NoMemory>
    ensures { IfOk result (λ made. made ≡ entries.last_states (entries_of notes.now)) }
{
    let elements = touched(alloc, notes)?;
    last_states(alloc, notes, elements.as_slice())
}

fn add_states(made: &mut DcList<Option<i64>>, states: &[Option<i64>]) -> Result<(), NoMemory>
    ensures { OnOk result (made.new ≡ made.old ++ states.now) }
{
    for state in states {
        made.push(*state)?;
    }
    Ok(())
}

/// The states of all elements of these variables, in store order.
pub(crate) fn states(alloc: Global, variables: &[Variable]) -> Result<DcList<Option<i64>>, NoMemory>
    ensures { IfOk result (λ made. made ≡ states_in (store_of variables.now)) }
{
    let mut made = DcList::new(alloc);
    for variable in variables {
        add_states(&mut made, variable.cells.as_slice())?;
    }
    Ok(made)
}
