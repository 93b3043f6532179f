//! `Ledger`, the cells of a program's variables with notes of what was done to them.

ghost use Rattle.std.specs.Prelude.{◌≡◌, slice_get, Some, OnOk, OnErr, IfOk, IsTrue};
ghost use Rattle.dc_int.specs.Entries.{Reads, Defines, store_after};
ghost use Rattle.dc_int.specs.Entries.{accesses_of, last_states, contributions_of};
ghost use Rattle.dc_int.specs.Store.{value_at, put_at, with_cell, number_in};
ghost use Rattle.dc_plain.specs.Marks as judge;
ghost use Rattle.dc_plain.specs.MarkViews.{marks_of, FitStore};
ghost use Rattle.dc_plain.specs.Views.{fresh, noted, variable_of, store_of, entries_of};
ghost use Rattle.dc_plain.specs.Views.{store_with, states_in};
ghost use Rattle.dc_plain.specs.FirstStores.{first_store};
ghost use Rattle.dc_form.specs.BuiltPrograms.{are_built_symbols};

use crate::back::take_back;
use crate::beginning::initial_variables;
use crate::closing::forget_touched_twice;
use crate::listing::{accesses, contributions, states, touches};
use crate::marks::{Mark, blank_marks};
use crate::note::{Note, Variable};
use crate::opening::{variable_with, variables_with};
use dc_int::{Access, Contribution, ElementId, Touch};
use dc_text::{DcList, NoMemory};
use dc_tree::Symbols;
use std::alloc::Global;
use std::marker::Model;

/// The cells of a main program's variables, and notes of what was done to them so far: seen as a
/// store, and the entries that led to it.
#[derive(Drop)]
pub struct Ledger {
    variables: Vec<Variable>,
    notes: DcList<Note>,
}

impl Model for Ledger {
    ghost use Rattle.dc_plain.specs.Views.{View, view_of, store_of};
    ghost use Rattle.dc_plain.specs.Sizes.{FitSizes, sizes_of};

    ghost Value = { View };

    ghost view = { λ a. view_of a.variables.items a.notes };

    ghost invariant = { λ a. FitSizes (sizes_of (store_of a.variables.items)) };
}

impl Ledger {
    /// The variables of a program, whose elements take these states in store order.
    pub fn new(
        alloc: Global,
        symbols: &Symbols,
        opening: &[Option<i64>],
    ) -> Result<Ledger, NoMemory>
        requires { IsTrue (are_built_symbols symbols.now) }
        ensures { IfOk result (λ made. made ≡ fresh (store_with symbols.now opening.now)) }
    {
        let variables = variables_with(alloc, symbols.as_slice(), opening)?;
        let notes = DcList::new(alloc);
        Ok(Ledger { variables, notes })
    }

    /// The variables of a program with their initial values. Those that have none begin undefined.
    pub fn initial(alloc: Global, symbols: &Symbols) -> Result<Ledger, NoMemory>
        requires { IsTrue (are_built_symbols symbols.now) }
        ensures { IfOk result (λ made. made ≡ fresh (first_store symbols.now)) }
    {
        let variables = initial_variables(alloc, symbols.as_slice())?;
        let notes = DcList::new(alloc);
        Ok(Ledger { variables, notes })
    }

    /// The accesses so far, in their order.
    pub fn accesses(&self, alloc: Global) -> Result<DcList<Access>, NoMemory>
        ensures { IfOk result (λ made. made ≡ accesses_of (self.now).entries) }
    {
        accesses(alloc, self.notes.as_slice())
    }

    /// The elements that were defined so far, each with its last state, in the order in which they
    /// were first.
    pub fn touches(&self, alloc: Global) -> Result<DcList<Touch>, NoMemory>
        ensures { IfOk result (λ made. made ≡ last_states (self.now).entries) }
    {
        touches(alloc, self.notes.as_slice())
    }

    /// The contributions so far: there are none.
    pub fn contributions(&self, alloc: Global) -> DcList<Contribution>
        ensures { result ≡ contributions_of (self.now).entries }
    {
        contributions(alloc, self.notes.as_slice())
    }

    /// Forgets what was done so far, and keeps what the elements hold. It takes no memory.
    pub fn forget_accesses(&mut self)
        ensures { self.new ≡ fresh (self.old).store }
    {
        self.notes.clear();
    }

    /// The same elements, with no notes.
    pub fn fresh(&self, alloc: Global) -> Result<Ledger, NoMemory>
        ensures { IfOk result (λ made. made ≡ fresh (self.now).store) }
    {
        let variables = copies(alloc, self.variables.as_slice())?;
        Ok(Ledger {
            variables,
            notes: DcList::new(alloc),
        })
    }

    /// Takes back what was done so far, from where the elements were as in the opening ledger, and
    /// forgets it. It takes no memory.
    pub fn take_back(&mut self, opening: &Ledger)
        requires { (self.old).store ≡ store_after (self.old).entries (opening.now).store }
        ensures { self.new ≡ fresh (opening.now).store }
    {
        take_back(
            &mut self.variables,
            self.notes.as_slice(),
            opening.variables.as_slice(),
        );
        self.notes.clear();
    }

    /// The states of all elements, in store order. `None` is undefined.
    pub fn states(&self, alloc: Global) -> Result<DcList<Option<i64>>, NoMemory>
        ensures { IfOk result (λ made. made ≡ states_in (self.now).store) }
    {
        states(alloc, self.variables.as_slice())
    }

    /// What was done so far.
    pub fn notes(&self) -> &[Note]
        ensures { entries_of result.now ≡ (self.now).entries }
    {
        self.notes.as_slice()
    }

    /// Takes the notes out.
    pub fn take_notes(&mut self, alloc: Global) -> DcList<Note>
        ensures taken { entries_of result ≡ (self.old).entries }
        ensures left { self.new ≡ fresh (self.old).store }
    {
        std::mem::replace(&mut self.notes, DcList::new(alloc))
    }

    /// No mark yet of each element.
    pub fn blank_marks(&self, alloc: Global) -> Result<Vec<Vec<Mark>>, NoMemory>
        ensures blank { IfOk result
            (λ rows. marks_of rows.items ≡ judge.blank_marks (self.now).store) }
        ensures fit { IfOk result (λ rows. FitStore rows.items) }
    {
        blank_marks(alloc, self.variables.as_slice())
    }

    /// The elements that two iterations touched become undefined. It is not noted.
    pub fn forget_touched_twice(&mut self, rows: &[Vec<Mark>])
        requires { FitStore rows.now }
        ensures store { (self.new).store
            ≡ judge.forget_from 0 (marks_of rows.now) (self.old).store }
        ensures entries { (self.new).entries ≡ (self.old).entries }
    {
        forget_touched_twice(&mut self.variables, rows);
    }

    /// The number of an element, and no note of it. `None` is undefined.
    pub fn value_at(&self, element: ElementId) -> Option<i64>
        ensures { result ≡ value_at (self.now).store element }
    {
        value_in(self.variables.as_slice(), element)
    }

    /// Puts an element in a state, and notes nothing. Where there is no such element nothing is done.
    pub fn put(&mut self, element: ElementId, state: Option<i64>)
        ensures store { (self.new).store ≡ put_at (self.old).store element state }
        ensures entries { (self.new).entries ≡ (self.old).entries }
    {
        put(&mut self.variables, element, state);
    }

    /// Reads an element, and notes that.
    pub fn get(&mut self, element: ElementId, line: u32) -> Result<Option<i64>, NoMemory>
        ensures state { IfOk result (λ state. state ≡ value_at (self.old).store element) }
        ensures noted { OnOk result (self.new ≡ noted (Reads element line) self.old) }
        ensures err { OnErr result (self.new ≡ self.old) }
    {
        self.notes.push(Note::Read { element, line })?;
        Ok(value_in(self.variables.as_slice(), element))
    }

    /// Defines an element, and notes that. Where there is no such element it is only noted.
    pub fn set(&mut self, element: ElementId, value: i64, line: u32) -> Result<(), NoMemory>
        ensures ok { OnOk result (self.new ≡ noted (Defines element value line) self.old) }
        ensures err { OnErr result (self.new ≡ self.old) }
    {
        self.notes.push(Note::Defined {
            element,
            value,
            line,
        })?;
        put(&mut self.variables, element, Some(value));
        Ok(())
    }
}

fn cell_in(variable: &Variable, position: usize) -> Option<i64>
    ensures { result ≡ number_in (slice_get (variable_of variable.now).cells position) }
{
    match variable.cells.get(position) {
        Some(state) => *state,
        None => None,
    }
}

pub(crate) fn value_in(variables: &[Variable], element: ElementId) -> Option<i64>
    ensures { result ≡ value_at (store_of variables.now) element }
{
    match variables.get(element.variable as usize) {
        Some(variable) => cell_in(variable, element.position as usize),
        None => None,
    }
}

fn put_cell(variable: &mut Variable, position: usize, state: Option<i64>)
    ensures { variable_of variable.new ≡ with_cell position state (variable_of variable.old) }
{
    if position < variable.cells.len() {
        variable.cells[position] = state;
    }
}

pub(crate) fn put(variables: &mut Vec<Variable>, element: ElementId, state: Option<i64>)
    ensures { store_of variables.new.items
        ≡ put_at (store_of variables.old.items) element state }
{
    let place = element.variable as usize;
    if place < variables.len() {
        put_cell(&mut variables[place], element.position as usize, state);
    }
}

fn copies(alloc: Global, variables: &[Variable]) -> Result<Vec<Variable>, NoMemory>
    ensures { IfOk result (λ made. store_of made.items ≡ store_of variables.now) }
{
    let mut made = Vec::new(alloc);
    for variable in variables {
        made.push(variable_with(alloc, variable.bounds.as_slice(), variable.cells.as_slice())?)?;
    }
    Ok(made)
}
