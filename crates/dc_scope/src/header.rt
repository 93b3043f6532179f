//! The headers of DO CONCURRENT.

ghost use Rattle.std.specs.Prelude.{◌≡◌, map, option_map, OnOk};
ghost use Rattle.dc_tree.specs.Findings.{least_with_all};
ghost use Rattle.dc_tree.specs.Statements.{type_form, index_ranging};
ghost use Rattle.dc_tree.specs.Syntax.{tree};
ghost use Rattle.dc_sorts.specs.Standing.{standing_of};
ghost use Rattle.dc_scope.specs.Headers as headers;
ghost use Rattle.dc_scope.specs.Headers.{selector_findings, type_findings, index_findings, indexes_in, types_findings, limit_findings, limits_in, listed_findings, listed_in, local_findings, locality_in, names_findings, inner_findings, outer_findings, header_findings};

use crate::deed::note_optional;
use crate::index::indexes_inside;
use crate::twice::has_twice;
use dc_sorts::{Form, IndexName, Meaning, Standing};
use dc_text::{DcList, DcText, NoMemory};
use dc_tree::{Expr, Index, LeastFinding, Local, TypeSpec};
use dc_uses::{note_kind, note_undeclared, note_uses};
use std::alloc::Global;

/// The greatest number of indexes.
const MOST_INDEXES: usize = 7;

/// Notes what the kind of a type breaks.
#[tactic(auto, using(dc_tree::proofs::Findings::notes))]
fn note_selector(
    alloc: Global,
    standing: &Standing,
    line: u32,
    selector: &Option<Expr>,
    found: &mut LeastFinding,
) -> Result<(), NoMemory>
    ensures { OnOk result (found.new ≡ least_with_all found.old
        (selector_findings (standing_of standing.now) line (option_map tree selector.now))) }
{
    let Some(selector) = selector else {
        return Ok(());
    };
    note_uses(alloc, standing, line, selector, found)?;
    note_kind(alloc, standing, line, selector, found)
}

fn note_type(
    alloc: Global,
    standing: &Standing,
    line: u32,
    spec: &TypeSpec,
    found: &mut LeastFinding,
) -> Result<(), NoMemory>
    ensures { OnOk result (found.new ≡ least_with_all found.old
        (type_findings (standing_of standing.now) line (type_form spec.now))) }
{
    match spec {
        TypeSpec::Integer { selector, .. } => note_selector(alloc, standing, line, selector, found),
        TypeSpec::Logical => Ok(()),
    }
}

/// Notes what the name of an index without a type breaks.
fn note_index(standing: &Standing, line: u32, text: &[u8], found: &mut LeastFinding)
    ensures { found.new
        ≡ least_with_all found.old (index_findings (standing_of standing.now) line text.now) }
{
    match standing.meaning(text) {
        Meaning::Nothing => note_undeclared(line, text, found),
        Meaning::Variable {
            form: Form::Whole(_),
            rank: 0,
        } => {}
        Meaning::Index(_) => {}
        _ => found.note(21, line),
    }
}

#[tactic(auto, using(dc_tree::proofs::Findings::notes))]
fn note_indexes(standing: &Standing, line: u32, indexes: &[Index], found: &mut LeastFinding)
    ensures { found.new ≡ least_with_all found.old
        (indexes_in (standing_of standing.now) line (map index_ranging indexes.now)) }
{
    for index in indexes {
        note_index(standing, line, index.name.as_bytes(), found);
    }
}

fn note_types(
    alloc: Global,
    standing: &Standing,
    line: u32,
    spec: &Option<TypeSpec>,
    indexes: &[Index],
    found: &mut LeastFinding,
) -> Result<(), NoMemory>
    ensures { OnOk result (found.new ≡ least_with_all found.old
        (types_findings (standing_of standing.now) line
        (option_map type_form spec.now) (map index_ranging indexes.now))) }
{
    match spec {
        Some(spec) => note_type(alloc, standing, line, spec, found),
        None => {
            note_indexes(standing, line, indexes, found);
            Ok(())
        }
    }
}

#[tactic(auto, using(dc_tree::proofs::Findings::notes, crate::proofs::Lists::lengths))]
fn note_names(
    alloc: Global,
    line: u32,
    indexes: &[Index],
    found: &mut LeastFinding,
) -> Result<(), NoMemory>
    ensures { OnOk result (found.new ≡ least_with_all found.old
        (names_findings line (map index_ranging indexes.now))) }
{
    found.note_if(has_twice(alloc, indexes)?, 19, line);
    found.note_if(indexes.len() > MOST_INDEXES, 24, line);
    Ok(())
}

#[tactic(auto, using(dc_tree::proofs::Findings::notes))]
fn note_limit(
    alloc: Global,
    standing: &Standing,
    line: u32,
    index: &Index,
    found: &mut LeastFinding,
) -> Result<(), NoMemory>
    ensures { OnOk result (found.new ≡ least_with_all found.old
        (limit_findings (standing_of standing.now) line (index_ranging index.now))) }
{
    note_uses(alloc, standing, line, &index.first, found)?;
    note_uses(alloc, standing, line, &index.last, found)?;
    note_optional(alloc, standing, line, &index.step, found)
}

#[tactic(auto, using(dc_tree::proofs::Findings::notes))]
fn note_limits(
    alloc: Global,
    standing: &Standing,
    line: u32,
    indexes: &[Index],
    found: &mut LeastFinding,
) -> Result<(), NoMemory>
    ensures { OnOk result (found.new ≡ least_with_all found.old
        (limits_in (standing_of standing.now) line (map index_ranging indexes.now))) }
{
    for index in indexes {
        note_limit(alloc, standing, line, index, found)?;
    }
    Ok(())
}

/// Notes what a name in a locality list breaks.
fn note_listed(standing: &Standing, line: u32, text: &[u8], found: &mut LeastFinding)
    ensures { found.new
        ≡ least_with_all found.old (listed_findings (standing_of standing.now) line text.now) }
{
    match standing.meaning(text) {
        Meaning::Nothing => note_undeclared(line, text, found),
        _ => {}
    }
}

#[tactic(auto, using(dc_tree::proofs::Findings::notes))]
fn note_list(standing: &Standing, line: u32, names: &[DcText], found: &mut LeastFinding)
    ensures { found.new
        ≡ least_with_all found.old (listed_in (standing_of standing.now) line names.now) }
{
    for name in names {
        note_listed(standing, line, name.as_bytes(), found);
    }
}

fn note_local(standing: &Standing, line: u32, local: &Local, found: &mut LeastFinding)
    ensures { found.new
        ≡ least_with_all found.old (local_findings (standing_of standing.now) line local.now) }
{
    match local {
        Local::Locals(names) => note_list(standing, line, names.as_slice(), found),
        Local::Inits(names) => note_list(standing, line, names.as_slice(), found),
        Local::Shared(names) => note_list(standing, line, names.as_slice(), found),
        Local::Reduce(_, names) => note_list(standing, line, names.as_slice(), found),
        Local::DefaultNone => {}
    }
}

#[tactic(auto, using(dc_tree::proofs::Findings::notes))]
fn note_locality(standing: &Standing, line: u32, locality: &[Local], found: &mut LeastFinding)
    ensures { found.new
        ≡ least_with_all found.old (locality_in (standing_of standing.now) line locality.now) }
{
    for local in locality {
        note_local(standing, line, local, found);
    }
}

/// Notes what stands outside of the scope of the indexes.
#[tactic(auto, using(dc_tree::proofs::Findings::notes))]
fn note_outer(
    alloc: Global,
    standing: &Standing,
    line: u32,
    spec: &Option<TypeSpec>,
    indexes: &[Index],
    found: &mut LeastFinding,
) -> Result<(), NoMemory>
    ensures { OnOk result (found.new ≡ least_with_all found.old
        (outer_findings (standing_of standing.now) line
        (option_map type_form spec.now) (map index_ranging indexes.now))) }
{
    note_types(alloc, standing, line, spec, indexes, found)?;
    note_names(alloc, line, indexes, found)
}

/// Notes what stands in the scope of the indexes.
#[tactic(auto, using(dc_tree::proofs::Findings::notes))]
fn note_inner(
    alloc: Global,
    standing: &Standing,
    line: u32,
    indexes: &[Index],
    mask: &Option<Expr>,
    locality: &[Local],
    found: &mut LeastFinding,
) -> Result<(), NoMemory>
    ensures { OnOk result (found.new ≡ least_with_all found.old
        (inner_findings (standing_of standing.now) line
        (map index_ranging indexes.now) (option_map tree mask.now) locality.now)) }
{
    note_limits(alloc, standing, line, indexes, found)?;
    note_optional(alloc, standing, line, mask, found)?;
    note_locality(standing, line, locality, found);
    Ok(())
}

/// Where the block of a loop stands with these indexes.
pub(crate) fn with_indexes<'a>(standing: &'a Standing<'_>, indexes: &'a [IndexName]) -> Standing<'a>
    ensures { standing_of result ≡ headers.with_indexes (standing_of standing.now) indexes.now }
{
    Standing {
        symbols: standing.symbols,
        unit: standing.unit,
        indexes,
        counted: standing.counted,
        callees: standing.callees,
    }
}

/// Notes what a header breaks.
#[tactic(auto, using(dc_tree::proofs::Findings::notes))]
pub(crate) fn note_header(
    alloc: Global,
    standing: &Standing,
    line: u32,
    spec: &Option<TypeSpec>,
    indexes: &[Index],
    mask: &Option<Expr>,
    locality: &[Local],
    found: &mut LeastFinding,
) -> Result<(), NoMemory>
    ensures { OnOk result (found.new ≡ least_with_all found.old
        (header_findings (standing_of standing.now) line (option_map type_form spec.now)
        (map index_ranging indexes.now) (option_map tree mask.now) locality.now)) }
{
    note_outer(alloc, standing, line, spec, indexes, found)?;
    let names: DcList<IndexName> = indexes_inside(alloc, standing, spec, indexes)?;
    let inner = with_indexes(standing, names.as_slice());
    note_inner(alloc, &inner, line, indexes, mask, locality, found)
}
