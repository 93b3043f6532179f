//! Whole programs.

ghost use Rattle.std.specs.Prelude.{◌≡◌, map, OnOk};
ghost use Rattle.dc_tree.specs.Blocks.{items, line_of, source_of, subprogram_of};
ghost use Rattle.dc_tree.specs.Findings.{least_with_all};
ghost use Rattle.dc_sorts.specs.Standing.{standing_of};
ghost use Rattle.dc_types.specs.Types.{Answers, procedure_findings, procedures_findings, type_findings, unit_findings};

use crate::blocks::note_block;
use crate::callees::{callees, number_behind, standing_in};
use crate::fronts::{note_declared, note_front};
use dc_sorts::{Meaning, Standing};
use dc_text::{DcList, NoMemory};
use dc_tree::{Block, Fail, LeastFinding, Lined, Procedure, Program, Symbols};
use std::alloc::Global;

#[tactic(auto, using(dc_tree::proofs::Findings::notes))]
fn note_unit(
    alloc: Global,
    standing: &Standing,
    front: &[Lined],
    body: &Block,
    found: &mut LeastFinding,
) -> Result<(), NoMemory>
    ensures { OnOk result (found.new ≡ least_with_all found.old
        (unit_findings (standing_of standing.now) (map line_of front.now) (items body.now))) }
{
    note_front(standing, front, found);
    note_block(alloc, standing, body, found)
}

#[tactic(auto, using(dc_tree::proofs::Findings::notes))]
fn note_procedure(
    alloc: Global,
    standing: &Standing,
    procedure: &Procedure,
    found: &mut LeastFinding,
) -> Result<(), NoMemory>
    ensures { OnOk result (found.new ≡ least_with_all found.old
        (procedure_findings (standing_of standing.now) (subprogram_of procedure.now))) }
{
    let head = &procedure.head;
    note_declared(standing, head.line, &head.stmt, found);
    note_unit(
        alloc,
        standing,
        procedure.front.as_slice(),
        &procedure.body,
        found,
    )
}

#[tactic(auto, using(dc_tree::proofs::Findings::notes))]
fn note_procedures(
    alloc: Global,
    symbols: &Symbols,
    callees: &[DcList<Meaning>],
    procedures: &[Procedure],
    found: &mut LeastFinding,
) -> Result<(), NoMemory>
    ensures { OnOk result (found.new ≡ least_with_all found.old
        (procedures_findings symbols.now callees.now 1 (map subprogram_of procedures.now))) }
{
    let mut number = 1;
    for procedure in procedures {
        let standing = standing_in(symbols, callees, number);
        note_procedure(alloc, &standing, procedure, found)?;
        number = number_behind(number);
    }
    Ok(())
}

#[tactic(auto, using(dc_tree::proofs::Findings::notes))]
fn note_program(
    alloc: Global,
    program: &Program,
    symbols: &Symbols,
    found: &mut LeastFinding,
) -> Result<(), NoMemory>
    ensures { OnOk result (found.new ≡ least_with_all found.old
        (type_findings symbols.now (source_of program.now))) }
{
    let procedures = program.procedures.as_slice();
    let callees = callees(alloc, symbols, procedures)?;
    let standing = standing_in(symbols, callees.as_slice(), 0);
    note_unit(
        alloc,
        &standing,
        program.front.as_slice(),
        &program.body,
        found,
    )?;
    note_procedures(alloc, symbols, callees.as_slice(), procedures, found)
}

/// Refuses a program by the first rule that it breaks on what its expressions are, and on what it
/// defines. `symbols` are its declared names.
pub fn check_types(alloc: Global, program: &Program, symbols: &Symbols) -> Result<(), Fail>
    ensures { Answers symbols.now (source_of program.now) result }
{
    let mut found = LeastFinding::none();
    note_program(alloc, program, symbols, &mut found)?;
    found.pass()
}
