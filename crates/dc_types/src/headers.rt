//! The headers of loops.

ghost use Rattle.std.specs.Prelude.{◌≡◌, map, option_map, Some, OnOk};
ghost use Rattle.dc_tree.specs.Findings.{least_with_all};
ghost use Rattle.dc_tree.specs.Statements.{counted_ranging, index_ranging, type_form};
ghost use Rattle.dc_tree.specs.Syntax.{tree};
ghost use Rattle.dc_sorts.specs.Standing.{standing_of};
ghost use Rattle.dc_types.specs.Loops.{counted_findings, each_ranging_findings, header_type, limits_findings, ranging_findings, type_numbers};

use crate::actions::form_of_name;
use crate::expressions::{note_limit, note_step};
use crate::targets::note_defined;
use dc_operands::{is_logical, note_numbers};
use dc_sorts::Standing;
use dc_text::NoMemory;
use dc_tree::{Counted, Expr, Index, LeastFinding, TypeSpec};
use std::alloc::Global;

/// Notes a number in a type that isn't in the range of its kind.
pub(crate) fn note_type(standing: &Standing, line: u32, spec: &TypeSpec, found: &mut LeastFinding)
    ensures { found.new ≡ least_with_all found.old
        (type_numbers (standing_of standing.now) line (type_form spec.now)) }
{
    match spec {
        TypeSpec::Integer {
            selector: Some(expr),
            ..
        } => note_numbers(standing, line, expr, found),
        _ => {}
    }
}

pub(crate) fn note_header_type(
    standing: &Standing,
    line: u32,
    spec: &Option<TypeSpec>,
    found: &mut LeastFinding,
)
    ensures { found.new ≡ least_with_all found.old
        (header_type (standing_of standing.now) line (option_map type_form spec.now)) }
{
    match spec {
        Some(spec) => note_type(standing, line, spec, found),
        None => {}
    }
}

#[tactic(auto, using(dc_tree::proofs::Findings::notes))]
fn note_limits(
    alloc: Global,
    standing: &Standing,
    line: u32,
    first: &Expr,
    last: &Expr,
    step: &Option<Expr>,
    found: &mut LeastFinding,
) -> Result<(), NoMemory>
    ensures { OnOk result (found.new ≡ least_with_all found.old
        (limits_findings (standing_of standing.now) line (tree first.now) (tree last.now)
        (option_map tree step.now))) }
{
    note_limit(alloc, standing, line, first, found)?;
    note_limit(alloc, standing, line, last, found)?;
    note_step(alloc, standing, line, step, found)
}

fn note_index(
    alloc: Global,
    standing: &Standing,
    line: u32,
    index: &Index,
    found: &mut LeastFinding,
) -> Result<(), NoMemory>
    ensures { OnOk result (found.new ≡ least_with_all found.old
        (ranging_findings (standing_of standing.now) line (index_ranging index.now))) }
{
    note_limits(
        alloc,
        standing,
        line,
        &index.first,
        &index.last,
        &index.step,
        found,
    )
}

/// Notes the limits of indexes.
#[tactic(auto, using(dc_tree::proofs::Findings::notes))]
pub(crate) fn note_indexes(
    alloc: Global,
    standing: &Standing,
    line: u32,
    names: &[Index],
    found: &mut LeastFinding,
) -> Result<(), NoMemory>
    ensures { OnOk result (found.new ≡ least_with_all found.old
        (each_ranging_findings (standing_of standing.now) line (map index_ranging names.now))) }
{
    for index in names {
        note_index(alloc, standing, line, index, found)?;
    }
    Ok(())
}

/// Notes what the header of a counted DO breaks.
#[tactic(auto, using(dc_tree::proofs::Findings::notes))]
fn note_variable(
    alloc: Global,
    standing: &Standing,
    line: u32,
    counted: &Counted,
    found: &mut LeastFinding,
) -> Result<(), NoMemory>
    ensures { OnOk result (found.new ≡ least_with_all found.old
        (counted_findings (standing_of standing.now) line (Some (counted_ranging counted.now)))) }
{
    note_limits(
        alloc,
        standing,
        line,
        &counted.first,
        &counted.last,
        &counted.step,
        found,
    )?;
    let form = form_of_name(standing, counted.name.as_bytes());
    found.note_if(is_logical(form), 28, line);
    note_defined(standing, line, counted.name.as_bytes(), found);
    Ok(())
}

pub(crate) fn note_counted(
    alloc: Global,
    standing: &Standing,
    line: u32,
    counted: &Option<Counted>,
    found: &mut LeastFinding,
) -> Result<(), NoMemory>
    ensures { OnOk result (found.new ≡ least_with_all found.old
        (counted_findings (standing_of standing.now) line
        (option_map counted_ranging counted.now))) }
{
    match counted {
        Some(counted) => note_variable(alloc, standing, line, counted, found),
        None => Ok(()),
    }
}
