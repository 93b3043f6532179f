//! What is defined.

ghost use Rattle.std.specs.Prelude.{◌≡◌, map, option_map, OnOk};
ghost use Rattle.dc_tree.specs.Findings.{least_with_all};
ghost use Rattle.dc_tree.specs.Statements.{target_of};
ghost use Rattle.dc_tree.specs.Syntax.{tree};
ghost use Rattle.dc_sorts.specs.Standing.{standing_of};
ghost use Rattle.dc_types.specs.Actions.{defined_findings, place_findings, target_findings, each_target_findings};

use crate::expressions::note_each;
use dc_operands::note_subscripts;
use dc_sorts::Standing;
use dc_text::{DcList, NoMemory};
use dc_tree::{Expr, LeastFinding, Target};
use std::alloc::Global;

/// Notes that a name may not be defined here.
pub(crate) fn note_defined(standing: &Standing, line: u32, text: &[u8], found: &mut LeastFinding)
    ensures { found.new ≡ least_with_all found.old
        (defined_findings (standing_of standing.now) line text.now) }
{
    found.note_if(standing.is_fixed(text), 31, line);
}

#[tactic(auto, using(dc_tree::proofs::Findings::notes))]
fn note_place(
    alloc: Global,
    standing: &Standing,
    line: u32,
    subscripts: &Option<DcList<Expr>>,
    found: &mut LeastFinding,
) -> Result<(), NoMemory>
    ensures { OnOk result (found.new ≡ least_with_all found.old
        (place_findings (standing_of standing.now) line (option_map (map tree) subscripts.now))) }
{
    match subscripts {
        Some(exprs) => {
            let arguments = note_each(alloc, standing, line, exprs.as_slice(), found)?;
            note_subscripts(line, arguments.as_slice(), found);
            Ok(())
        }
        None => Ok(()),
    }
}

#[tactic(auto, using(dc_tree::proofs::Findings::notes))]
pub(crate) fn note_target(
    alloc: Global,
    standing: &Standing,
    line: u32,
    target: &Target,
    found: &mut LeastFinding,
) -> Result<(), NoMemory>
    ensures { OnOk result (found.new ≡ least_with_all found.old
        (target_findings (standing_of standing.now) line (target_of target.now))) }
{
    note_place(alloc, standing, line, &target.subscripts, found)?;
    note_defined(standing, line, target.name.as_bytes(), found);
    Ok(())
}

#[tactic(auto, using(dc_tree::proofs::Findings::notes))]
pub(crate) fn note_targets(
    alloc: Global,
    standing: &Standing,
    line: u32,
    targets: &[Target],
    found: &mut LeastFinding,
) -> Result<(), NoMemory>
    ensures { OnOk result (found.new ≡ least_with_all found.old
        (each_target_findings (standing_of standing.now) line (map target_of targets.now))) }
{
    for target in targets {
        note_target(alloc, standing, line, target, found)?;
    }
    Ok(())
}
