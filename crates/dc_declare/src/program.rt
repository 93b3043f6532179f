//! The declarations of programs.

ghost use Rattle.std.specs.Prelude.{◌≡◌, ◌+◌, IfOk, OnOk, map};
ghost use Rattle.dc_declare.specs.Declarations.{after_procedures, procedures_findings, symbols_of, declaration_findings};
ghost use Rattle.dc_tree.specs.Blocks.{source_of, subprogram_of};
ghost use Rattle.dc_tree.specs.Findings.{least_with_all};

use crate::front::declare_unit;
use crate::heading::Heading;
use crate::procedure::declare_procedure;
use dc_text::NoMemory;
use dc_tree::{LeastFinding, Procedure, Program, Symbols};
use std::alloc::Global;

/// The number behind this one.
fn next(number: u32) -> Result<u32, NoMemory>
    ensures { IfOk result (λ made. made ≡ number + 1) }
{
    match number.checked_add(1) {
        Some(sum) => Ok(sum),
        None => Err(NoMemory),
    }
}

/// Declares the procedures in their order, numbered from 1.
#[tactic(auto, using(dc_tree::proofs::Findings::notes))]
fn declare_procedures(
    alloc: Global,
    procedures: &[Procedure],
    mut symbols: Symbols,
    found: &mut LeastFinding,
) -> Result<Symbols, NoMemory>
    ensures symbols { IfOk result (λ made. made
        ≡ after_procedures 1 symbols (map subprogram_of procedures.now)) }
    ensures findings { OnOk result (found.new
        ≡ least_with_all found.old (procedures_findings 1 symbols
        (map subprogram_of procedures.now))) }
{
    let mut number = 1;
    for procedure in procedures {
        symbols = declare_procedure(alloc, number, procedure, symbols, found)?;
        number = next(number)?;
    }
    Ok(symbols)
}

/// Gives the declared names of a program, and notes what its declarations break.
#[tactic(auto, using(dc_tree::proofs::Findings::notes))]
pub fn declare(
    alloc: Global,
    program: &Program,
    found: &mut LeastFinding,
) -> Result<Symbols, NoMemory>
    ensures symbols { IfOk result (λ symbols. symbols ≡ symbols_of (source_of program.now)) }
    ensures findings { OnOk result (found.new
        ≡ least_with_all found.old (declaration_findings (source_of program.now))) }
{
    let heading = Heading::bare(alloc, 0);
    let front = program.front.as_slice();
    let symbols = declare_unit(alloc, &heading, front, Symbols::new(alloc), found)?;
    declare_procedures(alloc, program.procedures.as_slice(), symbols, found)
}
