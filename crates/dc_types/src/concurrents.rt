//! The header of a DO CONCURRENT.

ghost use Rattle.std.specs.Prelude.{◌≡◌, [], map, option_map, OnOk};
ghost use Rattle.dc_tree.specs.Findings.{least_with_all};
ghost use Rattle.dc_tree.specs.Statements.{index_ranging, type_form};
ghost use Rattle.dc_tree.specs.Syntax.{tree};
ghost use Rattle.dc_sorts.specs.Standing.{standing_of};
ghost use Rattle.dc_types.specs.Loops.{each_ranging_findings, header_findings, in_concurrent, mask_findings};

use crate::expressions::note_mask;
use crate::headers::{note_header_type, note_indexes};
use crate::inner::in_concurrent;
use dc_sorts::Standing;
use dc_text::NoMemory;
use dc_tree::{Expr, Index, LeastFinding, Local, TypeSpec};
use std::alloc::Global;

/// Notes the limits, in which nothing is LOCAL yet.
fn note_all_limits(
    alloc: Global,
    standing: &Standing,
    line: u32,
    spec: &Option<TypeSpec>,
    names: &[Index],
    found: &mut LeastFinding,
) -> Result<(), NoMemory>
    ensures { OnOk result (found.new ≡ least_with_all found.old
        (each_ranging_findings (in_concurrent (standing_of standing.now)
        (option_map type_form spec.now) (map index_ranging names.now) []) line
        (map index_ranging names.now))) }
{
    let inner = in_concurrent(alloc, standing, spec, names, &[])?;
    let inside = inner.within(standing.symbols, standing.unit, standing.callees);
    note_indexes(alloc, &inside, line, names, found)
}

fn note_masked(
    alloc: Global,
    standing: &Standing,
    line: u32,
    spec: &Option<TypeSpec>,
    names: &[Index],
    mask: &Option<Expr>,
    locality: &[Local],
    found: &mut LeastFinding,
) -> Result<(), NoMemory>
    ensures { OnOk result (found.new ≡ least_with_all found.old
        (mask_findings (in_concurrent (standing_of standing.now)
        (option_map type_form spec.now) (map index_ranging names.now) locality.now) line
        (option_map tree mask.now))) }
{
    let inner = in_concurrent(alloc, standing, spec, names, locality)?;
    let inside = inner.within(standing.symbols, standing.unit, standing.callees);
    note_mask(alloc, &inside, line, mask, found)
}

/// Notes what the header of a DO CONCURRENT breaks.
#[tactic(auto, using(dc_tree::proofs::Findings::notes))]
pub(crate) fn note_header(
    alloc: Global,
    standing: &Standing,
    line: u32,
    spec: &Option<TypeSpec>,
    names: &[Index],
    mask: &Option<Expr>,
    locality: &[Local],
    found: &mut LeastFinding,
) -> Result<(), NoMemory>
    ensures { OnOk result (found.new ≡ least_with_all found.old
        (header_findings (standing_of standing.now) line (option_map type_form spec.now)
        (map index_ranging names.now) (option_map tree mask.now) locality.now)) }
{
    note_header_type(standing, line, spec, found);
    note_all_limits(alloc, standing, line, spec, names, found)?;
    note_masked(alloc, standing, line, spec, names, mask, locality, found)
}
