//! Which iterations touch an element, and which have an exposed read of it.

ghost use Rattle.std.specs.Prelude.{◌≡◌, ◌≤◌, map, length, option_map, IfOk};
ghost use Rattle.dc_int.specs.Store.{changed_at};
ghost use Rattle.dc_plain.specs.Marks as judge;
ghost use Rattle.dc_plain.specs.MarkViews.{one_ends, ends_of_code, mark_of, row_of, marks_of};
ghost use Rattle.dc_plain.specs.MarkViews.{named_of, FitStore};
ghost use Rattle.dc_plain.specs.Sizes.{sizes_of, FitSizes};
ghost use Rattle.dc_plain.specs.Views.{entry_of, entries_of, variable_of, store_of};

use crate::note::{Note, Variable};
use dc_int::ElementId;
use dc_text::NoMemory;
use std::alloc::Global;

/// The least and the greatest of some iterations.
#[derive(Clone, Copy, Debug, PartialEq, Eq)]
pub struct Ends {
    pub least: u32,
    pub greatest: u32,
}

/// The iterations that touch an element, and those that have an exposed read of it.
#[derive(Clone, Copy, Debug, PartialEq, Eq)]
pub struct Mark {
    pub touchers: Option<Ends>,
    pub readers: Option<Ends>,
}

const BLANK: Mark = Mark {
    touchers: None,
    readers: None,
};

fn with_iteration(iteration: u32, ends: Option<Ends>) -> Option<Ends>
    ensures { ends_of_code result ≡ judge.with_iteration iteration (ends_of_code ends) }
{
    let least = match ends {
        Some(ends) => ends.least,
        None => iteration,
    };
    Some(Ends {
        least,
        greatest: iteration,
    })
}

fn is_last(iteration: u32, ends: Option<Ends>) -> bool
    ensures { result ≡ judge.is_last iteration (ends_of_code ends) }
{
    match ends {
        Some(ends) => ends.greatest == iteration,
        None => false,
    }
}

fn touched_in(iteration: u32, mark: Mark) -> Mark
    ensures { mark_of result ≡ judge.touched_in iteration (mark_of mark) }
{
    Mark {
        touchers: with_iteration(iteration, mark.touchers),
        readers: mark.readers,
    }
}

/// A read is exposed where its iteration hasn't touched the element yet.
fn read_in(iteration: u32, mark: Mark) -> Mark
    ensures { mark_of result ≡ judge.read_in iteration (mark_of mark) }
{
    if is_last(iteration, mark.touchers) {
        return mark;
    }
    Mark {
        touchers: mark.touchers,
        readers: with_iteration(iteration, mark.readers),
    }
}

fn mark_in_row(row: &mut Vec<Mark>, position: usize, iteration: u32, is_touch: bool)
    ensures { row_of row.new
        ≡ changed_at (judge.changed_by is_touch iteration) (row_of row.old) position }
{
    if position < row.len() {
        let mark = row[position];
        row[position] = if is_touch {
            touched_in(iteration, mark)
        } else {
            read_in(iteration, mark)
        };
    }
}

fn mark_element(rows: &mut Vec<Vec<Mark>>, element: ElementId, iteration: u32, is_touch: bool)
    ensures { marks_of rows.new.items
        ≡ judge.changed_in is_touch iteration element (marks_of rows.old.items) }
{
    let variable = element.variable as usize;
    if variable < rows.len() {
        mark_in_row(
            &mut rows[variable],
            element.position as usize,
            iteration,
            is_touch,
        );
    }
}

fn mark_note(rows: &mut Vec<Vec<Mark>>, iteration: u32, note: Note)
    ensures { marks_of rows.new.items
        ≡ judge.marked iteration (entry_of note) (marks_of rows.old.items) }
{
    match note {
        Note::Read { element, .. } => mark_element(rows, element, iteration, false),
        Note::Defined { element, .. } => mark_element(rows, element, iteration, true),
    }
}

/// Marks what an iteration did.
pub fn mark_notes(rows: &mut Vec<Vec<Mark>>, iteration: u32, notes: &[Note])
    ensures { marks_of rows.new.items
        ≡ judge.marked_all iteration (entries_of notes.now) (marks_of rows.old.items) }
{
    for note in notes {
        mark_note(rows, iteration, *note);
    }
}

/// An element that two iterations don't share as they may, and the two.
#[derive(Clone, Copy, Debug, PartialEq, Eq)]
pub struct Named {
    pub element: ElementId,
    pub first: u32,
    pub second: u32,
}

fn are_one(touchers: Ends, readers: Ends) -> bool
    ensures { result ≡ judge.are_one (one_ends touchers) (one_ends readers) }
{
    touchers.least == touchers.greatest
        && readers.least == readers.greatest
        && touchers.least == readers.least
}

/// A toucher and a reader that are different.
fn with_reader(touchers: Ends, readers: Ends) -> (u32, u32)
    ensures { result ≡ judge.with_reader_of (one_ends touchers) (one_ends readers) }
{
    if readers.least != touchers.least {
        (touchers.least, readers.least)
    } else if readers.greatest != touchers.least {
        (touchers.least, readers.greatest)
    } else {
        (touchers.greatest, readers.least)
    }
}

fn named_by(element: ElementId, mark: Mark) -> Option<Named>
    ensures { option_map named_of result ≡ judge.named_by element (mark_of mark) }
{
    let touchers = mark.touchers?;
    let readers = mark.readers?;
    if are_one(touchers, readers) {
        return None;
    }
    let (first, second) = with_reader(touchers, readers);
    Some(Named {
        element,
        first,
        second,
    })
}

fn named_in_row(variable: u32, row: &[Mark]) -> Option<Named>
    requires { length row.now ≤ 4194304 }
    ensures { option_map named_of result ≡ judge.named_in_row variable 0 (map mark_of row.now) }
{
    let mut position = 0;
    for mark in row {
        if let Some(named) = named_by(ElementId { variable, position }, *mark) {
            return Some(named);
        }
        position += 1;
    }
    None
}

/// The least element, in store order, that a toucher and an exposed reader share, and the two.
pub fn first_named(rows: &[Vec<Mark>]) -> Option<Named>
    requires { FitStore rows.now }
    ensures { option_map named_of result ≡ judge.named_from 0 (marks_of rows.now) }
{
    let mut variable = 0;
    for row in rows {
        if let Some(named) = named_in_row(variable, row.as_slice()) {
            return Some(named);
        }
        variable += 1;
    }
    None
}

fn blank_row(alloc: Global, variable: &Variable) -> Result<Vec<Mark>, NoMemory>
    ensures { IfOk result (λ row. row_of row ≡ judge.blank_row (variable_of variable.now)) }
{
    let states = variable.cells.as_slice();
    let row = Vec::from_elem(alloc, BLANK, states.len())?;
    Ok(row)
}

/// No mark yet of each element.
pub(crate) fn blank_marks(alloc: Global, variables: &[Variable]) -> Result<Vec<Vec<Mark>>, NoMemory>
    requires { FitSizes (sizes_of (store_of variables.now)) }
    ensures blank { IfOk result
        (λ rows. marks_of rows.items ≡ judge.blank_marks (store_of variables.now)) }
    ensures fit { IfOk result (λ rows. FitStore rows.items) }
{
    let mut rows = Vec::new(alloc);
    for variable in variables {
        rows.push(blank_row(alloc, variable)?)?;
    }
    Ok(rows)
}
