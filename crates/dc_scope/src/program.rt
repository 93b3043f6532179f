//! The statements of whole programs.

ghost use Rattle.std.specs.Prelude.{◌≡◌, suc, map, IfOk, OnOk};
ghost use Rattle.dc_tree.specs.Blocks.{items, subprogram_of, source_of};
ghost use Rattle.dc_tree.specs.Findings.{least_with_all};
ghost use Rattle.dc_sorts.specs.Standing.{standing_of};
ghost use Rattle.dc_scope.specs.Scope.{unit_standing, unit_findings, procedures_findings, statement_findings};

use crate::walk::note_nodes;
use dc_sorts::Standing;
use dc_text::NoMemory;
use dc_tree::{Block, LeastFinding, Procedure, Program, Symbols};
use std::alloc::Global;

/// Where the statements of a unit stand.
fn standing_in<'a>(symbols: &'a Symbols, unit: u32) -> Standing<'a>
    ensures { standing_of result ≡ unit_standing symbols.now unit }
{
    Standing {
        symbols,
        unit,
        indexes: &[],
        counted: &[],
        callees: &[],
    }
}

/// Notes what the statements of a unit break.
#[tactic(auto, using(dc_tree::proofs::Views::statement_views))]
fn note_unit(
    alloc: Global,
    symbols: &Symbols,
    unit: u32,
    body: &Block,
    found: &mut LeastFinding,
) -> Result<(), NoMemory>
    ensures { OnOk result (found.new ≡ least_with_all found.old
        (unit_findings symbols.now unit (items body.now))) }
{
    let standing = standing_in(symbols, unit);
    note_nodes(alloc, &standing, &body.nodes, found)
}

/// The number of the next procedure. There are never so many that memory holds them and it is none.
fn next(unit: u32) -> Result<u32, NoMemory>
    ensures { IfOk result (λ number. number ≡ suc unit) }
{
    match unit.checked_add(1) {
        Some(number) => Ok(number),
        None => Err(NoMemory),
    }
}

/// Notes what the statements of procedures break.
#[tactic(auto, using(dc_tree::proofs::Findings::notes))]
fn note_procedures(
    alloc: Global,
    symbols: &Symbols,
    procedures: &[Procedure],
    found: &mut LeastFinding,
) -> Result<(), NoMemory>
    ensures { OnOk result (found.new ≡ least_with_all found.old
        (procedures_findings symbols.now 1 (map subprogram_of procedures.now))) }
{
    let mut unit = 1;
    for procedure in procedures {
        note_unit(alloc, symbols, unit, &procedure.body, found)?;
        unit = next(unit)?;
    }
    Ok(())
}

/// Notes what the statements of a program break.
#[tactic(auto, using(dc_tree::proofs::Findings::notes))]
pub(crate) fn note_statements(
    alloc: Global,
    symbols: &Symbols,
    program: &Program,
    found: &mut LeastFinding,
) -> Result<(), NoMemory>
    ensures { OnOk result (found.new ≡ least_with_all found.old
        (statement_findings symbols.now (source_of program.now))) }
{
    note_unit(alloc, symbols, 0, &program.body, found)?;
    note_procedures(alloc, symbols, program.procedures.as_slice(), found)
}
