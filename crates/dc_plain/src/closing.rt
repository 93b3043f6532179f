//! What a loop changes at its end: an element that two iterations touched becomes undefined.

ghost use Rattle.std.specs.Prelude.{◌≡◌, ◌≤◌, map, length};
ghost use Rattle.dc_int.specs.Store.{put_at};
ghost use Rattle.dc_plain.specs.Marks as judge;
ghost use Rattle.dc_plain.specs.MarkViews.{mark_of, marks_of, FitStore};
ghost use Rattle.dc_plain.specs.Views.{store_of};

use crate::ledger::put;
use crate::marks::Mark;
use crate::note::Variable;
use dc_int::ElementId;

fn is_twice(mark: Mark) -> bool
    ensures { result ≡ judge.is_twice (mark_of mark) }
{
    match mark.touchers {
        Some(touchers) => touchers.least != touchers.greatest,
        None => false,
    }
}

fn forget_in_row(variables: &mut Vec<Variable>, variable: u32, row: &[Mark])
    requires { length row.now ≤ 4194304 }
    ensures { store_of variables.new.items
        ≡ judge.forget_in_row variable 0 (map mark_of row.now) (store_of variables.old.items) }
{
    let mut position = 0;
    for mark in row {
        if is_twice(*mark) {
            put(variables, ElementId { variable, position }, None);
        }
        position += 1;
    }
}

/// The elements that two iterations touched become undefined.
pub(crate) fn forget_touched_twice(variables: &mut Vec<Variable>, rows: &[Vec<Mark>])
    requires { FitStore rows.now }
    ensures { store_of variables.new.items
        ≡ judge.forget_from 0 (marks_of rows.now) (store_of variables.old.items) }
{
    let mut variable = 0;
    for row in rows {
        forget_in_row(variables, variable, row.as_slice());
        variable += 1;
    }
}
