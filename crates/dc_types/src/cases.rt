//! The values of a SELECT CASE.

ghost use Rattle.std.specs.Prelude.{◌≡◌, map, option_map, IfOk, OnOk};
ghost use Rattle.dc_tree.specs.Findings.{least_with_all};
ghost use Rattle.dc_tree.specs.Statements.{case_range};
ghost use Rattle.dc_tree.specs.Syntax.{tree};
ghost use Rattle.dc_sorts.specs.Standing.{standing_of};
ghost use Rattle.dc_types.specs.Types.{each_range_findings, range_findings};

use crate::expressions::note_value;
use dc_sorts::{Form, Standing};
use dc_text::NoMemory;
use dc_tree::{LeastFinding, Range};
use std::alloc::Global;

#[tactic(auto, using(dc_tree::proofs::Findings::notes))]
fn note_range(
    alloc: Global,
    standing: &Standing,
    line: u32,
    form: Form,
    range: &Range,
    found: &mut LeastFinding,
) -> Result<(), NoMemory>
    ensures { OnOk result (found.new ≡ least_with_all found.old
        (range_findings (standing_of standing.now) line form (case_range range.now))) }
{
    match range {
        Range::One(value) => note_value(alloc, standing, line, form, value, found),
        Range::From(low) => note_value(alloc, standing, line, form, low, found),
        Range::To(high) => note_value(alloc, standing, line, form, high, found),
        Range::Both(low, high) => {
            note_value(alloc, standing, line, form, low, found)?;
            note_value(alloc, standing, line, form, high, found)
        }
    }
}

/// Notes the values of a CASE that aren't of the selector's type.
#[tactic(auto, using(dc_tree::proofs::Findings::notes))]
pub(crate) fn note_ranges(
    alloc: Global,
    standing: &Standing,
    line: u32,
    form: Form,
    ranges: &[Range],
    found: &mut LeastFinding,
) -> Result<(), NoMemory>
    ensures { OnOk result (found.new ≡ least_with_all found.old
        (each_range_findings (standing_of standing.now) line form (map case_range ranges.now))) }
{
    for range in ranges {
        note_range(alloc, standing, line, form, range, found)?;
    }
    Ok(())
}
