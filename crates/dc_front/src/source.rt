//! The phases of the text, names, types, and then the condition on the programs that are run today.

ghost use Rattle.std.specs.Prelude.{◌≡◌, false};
ghost use Rattle.dc_tree.specs.Blocks.{source_of};
ghost use Rattle.dc_front.specs.Form.{Answers, IsRunnable};

use dc_form::is_built;
use dc_phases::read_program;
use dc_scope::check_scope;
use dc_tree::{Fail, Program, Symbols};
use dc_types::check_types;
use std::alloc::Global;
use std::marker::Model;

/// A source that breaks no rule, with its tree and its declared names. Its program is run today.
pub struct Accepted {
    program: Program,
    symbols: Symbols,
}

impl Model for Accepted {
    ghost use Rattle.dc_tree.specs.Blocks.{source_of};
    ghost use Rattle.dc_tree.specs.contracts.program.Program as tree;
    ghost use Rattle.dc_tree.specs.contracts.symbols.Symbol as symbol;
    ghost use Rattle.dc_front.specs.Form.{Taken, taken_code, IsRunnable};

    ghost Value = { Taken };

    ghost coded = { taken_code tree.the_row.coded symbol.the_row.coded };

    ghost view = { λ a. record { program = a.program; symbols = a.symbols } };

    ghost invariant = { λ a. IsRunnable a.symbols (source_of a.program) };
}

impl Drop for Accepted {
    fn drop(self) {
        let Accepted {
            program: _,
            symbols: _,
        } = self;
    }
}

impl Accepted {
    /// The tree of the source.
    pub fn program(&self) -> &Program
        ensures value { result.now ≡ self.now.program }
        ensures runnable { IsRunnable self.now.symbols (source_of self.now.program) }
    {
        &self.program
    }

    /// The declared names.
    pub fn symbols(&self) -> &Symbols
        ensures value { result.now ≡ self.now.symbols }
        ensures runnable { IsRunnable self.now.symbols (source_of self.now.program) }
    {
        &self.symbols
    }

    /// Whether the source has a READ statement. No program of today has one.
    pub fn reads(&self) -> bool
        ensures { result ≡ false }
    {
        false
    }
}

/// The rule of what isn't built yet.
const NOT_BUILT: u8 = 0;

/// Reads a source. It is refused by the first rule that it breaks, and by rule 0 where it breaks none
/// and its program isn't one of those that are run today.
pub fn accept(alloc: Global, text: &[u8]) -> Result<Accepted, Fail>
    ensures { Answers text.now result }
{
    let program = read_program(alloc, text)?;
    let symbols = check_scope(alloc, &program)?;
    check_types(alloc, &program, &symbols)?;
    if is_built(&program, &symbols) {
        Ok(Accepted { program, symbols })
    } else {
        Err(Fail::refused(NOT_BUILT, 1))
    }
}
