//! The declared names of a program, or the first rule that it breaks by names.

ghost use Rattle.std.specs.Prelude.{◌≡◌, IfOk, OnOk};
ghost use Rattle.dc_tree.specs.Blocks.{source_of};
ghost use Rattle.dc_tree.specs.Findings.{least_with_all};
ghost use Rattle.dc_declare.specs.Declarations.{symbols_of};
ghost use Rattle.dc_scope.specs.Answer.{Answers, scope_findings};

use crate::program::note_statements;
use dc_declare::declare;
use dc_text::NoMemory;
use dc_tree::{Fail, LeastFinding, Program, Symbols};
use std::alloc::Global;

/// Gives the declared names of a program, and notes what it breaks by names.
#[tactic(auto, using(dc_tree::proofs::Findings::notes))]
fn note_program(
    alloc: Global,
    program: &Program,
    found: &mut LeastFinding,
) -> Result<Symbols, NoMemory>
    ensures symbols { IfOk result (λ symbols. symbols ≡ symbols_of (source_of program.now)) }
    ensures findings { OnOk result (found.new
        ≡ least_with_all found.old (scope_findings (source_of program.now))) }
{
    let symbols = declare(alloc, program, found)?;
    note_statements(alloc, &symbols, program, found)?;
    Ok(symbols)
}

/// Gives the declared names of a program, which breaks none of the rules K19 to K27, or refuses it
/// by the first that it breaks.
pub fn check_scope(alloc: Global, program: &Program) -> Result<Symbols, Fail>
    ensures { Answers (source_of program.now) result }
{
    let mut found = LeastFinding::none();
    let symbols = note_program(alloc, program, &mut found)?;
    match found.refusal() {
        Some(refusal) => Err(Fail::Refused(refusal)),
        None => Ok(symbols),
    }
}
