//! The numbers of the variables.

ghost use Rattle.std.specs.Prelude.{◌≡◌, IfOk, IsTrue, slice_get};
ghost use Rattle.dc_form.specs.BuiltPrograms.{are_built_symbols};
ghost use Rattle.dc_tree.specs.Entities.{is_variable};
ghost use Rattle.dc_entities.specs.Numbering.{numbers_of};

use dc_text::{DcList, NoMemory};
use dc_tree::{Role, Symbol, Symbols};
use std::alloc::Global;
use std::marker::Model;

/// For each symbol how many variables stand before it.
#[derive(Drop)]
pub struct Numbering {
    numbers: DcList<u32>,
}

impl Model for Numbering {
    ghost use Rattle.std.specs.Prelude.{List, ℕ};

    ghost Value = { List ℕ };

    ghost view = { λ a. a.numbers };
}

fn is_variable(symbol: &Symbol) -> bool
    ensures { result ≡ is_variable symbol.now }
{
    matches!(symbol.role, Role::Variable { .. })
}

impl Numbering {
    /// The numbers of the variables among these symbols.
    pub fn new(alloc: Global, symbols: &Symbols) -> Result<Numbering, NoMemory>
        requires { IsTrue (are_built_symbols symbols.now) }
        ensures { IfOk result (λ made. made ≡ numbers_of symbols.now) }
    {
        let mut numbers = DcList::new(alloc);
        let mut number: u32 = 0;
        for symbol in symbols.as_slice() {
            numbers.push(number)?;
            if is_variable(symbol) {
                number += 1;
            }
        }
        Ok(Numbering { numbers })
    }

    /// The number of the symbol at a place.
    pub(crate) fn at(&self, place: usize) -> Option<u32>
        ensures { result ≡ slice_get self.now place }
    {
        self.numbers.get(place).copied()
    }
}
