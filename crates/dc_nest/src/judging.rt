//! The rules that a list of statements breaks, of which the first is kept.

ghost use Rattle.std.specs.Prelude.{◌≡◌, map, IfOk};
ghost use Rattle.dc_tree.specs.Blocks.{line_of};
ghost use Rattle.dc_tree.specs.Findings.{least_of, least_with_all};
ghost use Rattle.dc_nest.specs.Judging.{finding_of, findings_at, findings};

use crate::allowing::{allows, is_ended};
use crate::breaking::breaks_at;
use crate::moving::behind;
use crate::place::Place;
use crate::rule::{Rule, number_of};
use dc_text::NoMemory;
use dc_tree::{LeastFinding, Lined};
use std::alloc::Global;

fn note(found: &mut LeastFinding, rule: Rule, place: &Place, lined: &Lined)
    ensures { found.new ≡ least_with_all found.old (finding_of rule place.now (line_of lined.now)) }
{
    found.note_if(
        breaks_at(rule, place, &lined.stmt),
        number_of(rule),
        lined.line,
    );
}

/// Notes the rules that a statement breaks in its place.
fn note_all(found: &mut LeastFinding, place: &Place, lined: &Lined)
    ensures { found.new ≡ least_with_all found.old (findings_at place.now (line_of lined.now)) }
{
    note(found, Rule::Misplaced, place, lined);
    note(found, Rule::TooDeep, place, lined);
    note(found, Rule::OtherName, place, lined);
    note(found, Rule::NoLoop, place, lined);
    note(found, Rule::Strays, place, lined);
    note(found, Rule::Confined, place, lined);
}

/// Gives the first broken rule. What stands behind a statement that isn't allowed in its place
/// has no place, and isn't read.
pub(crate) fn judge(alloc: Global, list: &[Lined]) -> Result<LeastFinding, NoMemory>
    ensures { IfOk result (λ found. found ≡ least_of (findings (map line_of list.now))) }
{
    let mut place = Place::Outset;
    let mut line = 1;
    let mut found = LeastFinding::none();
    for lined in list {
        note_all(&mut found, &place, lined);
        if !allows(&place, &lined.stmt) {
            return Ok(found);
        }
        line = lined.line;
        place = behind(alloc, place, &lined.stmt)?;
    }
    found.note_if(!is_ended(&place), number_of(Rule::Misplaced), line);
    Ok(found)
}
