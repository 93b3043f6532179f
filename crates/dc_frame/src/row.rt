//! `Row`, the slots of a group.

ghost use Rattle.std.specs.Prelude.{◌≡◌, None, IfOk, IsTrue, length, map, replicate, slice_get, slice_set};
ghost use Rattle.dc_int.specs.Store.{elements_in, number_in};
ghost use Rattle.dc_code.specs.Codes.{is_small};

use crate::subscripts::elements;
use dc_text::NoMemory;
use std::alloc::Global;
use std::marker::Model;

/// The slots of a group, seen as the list of their states.
#[derive(Drop)]
pub(crate) struct Row {
    cells: Vec<Option<i64>>,
}

impl Model for Row {
    ghost use Rattle.std.specs.Prelude.{List, Option, ℤ};

    ghost Value = { List (Option ℤ) };

    ghost view = { λ a. a.cells.items };
}

impl Row {
    /// The slots of a group with these bounds, undefined.
    pub(crate) fn new(alloc: Global, bounds: &[(i64, i64)]) -> Result<Row, NoMemory>
        requires { IsTrue (is_small bounds.now) }
        ensures { IfOk result (λ made. made ≡ replicate (elements_in bounds.now) None) }
    {
        let cells = Vec::from_elem(alloc, None, elements(bounds) as usize)?;
        Ok(Row { cells })
    }

    pub(crate) fn len(&self) -> usize
        ensures { result ≡ length self.now }
    {
        self.cells.len()
    }

    pub(crate) fn as_slice(&self) -> &[Option<i64>]
        ensures { result.now ≡ self.now }
    {
        self.cells.as_slice()
    }

    /// The state of a slot, undefined where there is none.
    pub(crate) fn state(&self, position: usize) -> Option<i64>
        ensures { result ≡ number_in (slice_get self.now position) }
    {
        *self.cells.get(position)?
    }

    /// Puts a slot in a state, where there is such a slot.
    pub(crate) fn put(&mut self, position: usize, state: Option<i64>)
        ensures { self.new ≡ slice_set self.old position state }
    {
        if position < self.cells.len() {
            self.cells[position] = state;
        }
    }

    /// Puts all slots in a state.
    pub(crate) fn put_all(&mut self, state: Option<i64>)
        ensures { self.new ≡ map (λ cell. state) self.old }
    {
        self.cells.fill(state);
    }
}
