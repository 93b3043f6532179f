//! Two iterations that were run in succession, and what of the second breaks with the first.

ghost use Rattle.std.specs.Prelude.{◌≡◌, option_map, find};
ghost use Rattle.dc_int.specs.Entries.{touches, exposes};
ghost use Rattle.dc_code.specs.Verdicts.{party};
ghost use Rattle.dc_code.specs.Breaks.{entry_breaks, first_break, named_beside};
ghost use Rattle.dc_code.specs.Breaks.{first_read, first_touch};
ghost use Rattle.dc_plain.specs.Plainly.{plain, race_by};
ghost use Rattle.dc_plain.specs.Views.{entry_of, entries_of};

use crate::note::Note;
use dc_code::{Party, Race};
use dc_int::{Access, ElementId};

fn touches(element: ElementId, notes: &[Note]) -> bool
    ensures { result ≡ touches element (entries_of notes.now) }
{
    for note in notes {
        if note.is_touch_of(element) {
            return true;
        }
    }
    false
}

/// A read that has no touch of the element before it.
fn exposes(element: ElementId, notes: &[Note]) -> bool
    ensures { result ≡ exposes element (entries_of notes.now) }
{
    for note in notes {
        if note.is_read_of(element) {
            return true;
        }
        if note.is_touch_of(element) {
            return false;
        }
    }
    false
}

fn breaks(first: &[Note], before: &[Note], note: Note) -> bool
    ensures { result
        ≡ entry_breaks plain (entries_of first.now) (entries_of before.now) (entry_of note) }
{
    match note {
        Note::Read { element, .. } => touches(element, first) && !touches(element, before),
        Note::Defined { element, .. } => exposes(element, first),
    }
}

/// What the second iteration does first that breaks with what the first one did.
fn first_break(first: &[Note], second: &[Note]) -> Option<Note>
    ensures { option_map entry_of result
        ≡ first_break plain (entries_of first.now) (entries_of second.now) }
{
    let mut count = 0;
    for note in second {
        if breaks(first, &second[..count], *note) {
            return Some(*note);
        }
        count += 1;
    }
    None
}

fn first_touch(element: ElementId, notes: &[Note]) -> Option<Note>
    ensures { option_map entry_of result ≡ first_touch element (entries_of notes.now) }
{
    for note in notes {
        if note.is_touch_of(element) {
            return Some(*note);
        }
    }
    None
}

fn first_read(element: ElementId, notes: &[Note]) -> Option<Note>
    ensures { option_map entry_of result ≡ first_read element (entries_of notes.now) }
{
    for note in notes {
        if note.is_read_of(element) {
            return Some(*note);
        }
    }
    None
}

/// What the first iteration did that is named beside it.
fn named_beside(first: &[Note], note: Note) -> Option<Note>
    ensures { option_map entry_of result
        ≡ named_beside plain (entries_of first.now) (entry_of note) }
{
    match note {
        Note::Read { element, .. } => first_touch(element, first),
        Note::Defined { element, .. } => first_read(element, first),
    }
}

fn party(iteration: u32, access: Access) -> Party
    ensures { result ≡ party iteration access }
{
    Party {
        iteration,
        action: access.action,
        line: access.line,
    }
}

/// The race of the iterations i and j, by what they did in succession.
pub fn race_by(i: u32, j: u32, first: &[Note], second: &[Note]) -> Option<Race>
    ensures { result ≡ race_by i j first.now second.now }
{
    let breaking = first_break(first, second)?;
    let beside = named_beside(first, breaking)?;
    let access = breaking.access();
    Some(Race {
        element: access.element,
        first: party(i, beside.access()),
        second: party(j, access),
    })
}
