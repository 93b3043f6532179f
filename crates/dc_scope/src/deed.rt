//! The names in actions.

ghost use Rattle.std.specs.Prelude.{◌≡◌, map, option_map, OnOk};
ghost use Rattle.dc_tree.specs.Findings.{least_with_all};
ghost use Rattle.dc_tree.specs.Statements as statements;
ghost use Rattle.dc_tree.specs.Statements.{target_of, counted_ranging};
ghost use Rattle.dc_tree.specs.Syntax.{tree};
ghost use Rattle.dc_sorts.specs.Standing.{standing_of};
ghost use Rattle.dc_scope.specs.Deeds.{uses_in, optional_findings, whole_findings, item_findings, items_in, element_findings, placed_findings, target_findings, targets_in, count_findings, fill_findings, callee_findings, deed_findings, counted_findings, do_findings};

use crate::holding::{bounds_at, holds};
use dc_sorts::{Meaning, Standing};
use dc_text::{DcList, NoMemory};
use dc_tree::{Action, Counted, Expr, LeastFinding, Target};
use dc_uses::{misfits, note_array, note_name, note_undeclared, note_uses};
use std::alloc::Global;

/// Notes what each of some expressions breaks.
#[tactic(auto, using(dc_tree::proofs::Findings::notes))]
pub(crate) fn note_all(
    alloc: Global,
    standing: &Standing,
    line: u32,
    list: &[Expr],
    found: &mut LeastFinding,
) -> Result<(), NoMemory>
    ensures { OnOk result (found.new ≡ least_with_all found.old
        (uses_in (standing_of standing.now) line (map tree list.now))) }
{
    for expr in list {
        note_uses(alloc, standing, line, expr, found)?;
    }
    Ok(())
}

/// Notes what an expression breaks, where there is one.
pub(crate) fn note_optional(
    alloc: Global,
    standing: &Standing,
    line: u32,
    expr: &Option<Expr>,
    found: &mut LeastFinding,
) -> Result<(), NoMemory>
    ensures { OnOk result (found.new ≡ least_with_all found.old
        (optional_findings (standing_of standing.now) line (option_map tree expr.now))) }
{
    match expr {
        Some(expr) => note_uses(alloc, standing, line, expr, found),
        None => Ok(()),
    }
}

/// Notes what a name breaks where a scalar or an array is asked.
fn note_whole(standing: &Standing, line: u32, text: &[u8], found: &mut LeastFinding)
    ensures { found.new
        ≡ least_with_all found.old (whole_findings (standing_of standing.now) line text.now) }
{
    match standing.meaning(text) {
        Meaning::Nothing => note_undeclared(line, text, found),
        Meaning::Procedure { .. } => found.note(21, line),
        _ => {}
    }
}

/// Notes what an item breaks.
#[tactic(auto, using(dc_tree::proofs::Views::expression_views))]
fn note_item(
    alloc: Global,
    standing: &Standing,
    line: u32,
    expr: &Expr,
    found: &mut LeastFinding,
) -> Result<(), NoMemory>
    ensures { OnOk result (found.new ≡ least_with_all found.old
        (item_findings (standing_of standing.now) line (tree expr.now))) }
{
    if let Expr::Name(text) = expr {
        note_whole(standing, line, text.as_bytes(), found);
        return Ok(());
    }
    note_uses(alloc, standing, line, expr, found)
}

#[tactic(auto, using(dc_tree::proofs::Findings::notes))]
fn note_items(
    alloc: Global,
    standing: &Standing,
    line: u32,
    list: &[Expr],
    found: &mut LeastFinding,
) -> Result<(), NoMemory>
    ensures { OnOk result (found.new ≡ least_with_all found.old
        (items_in (standing_of standing.now) line (map tree list.now))) }
{
    for expr in list {
        note_item(alloc, standing, line, expr, found)?;
    }
    Ok(())
}

/// Notes what a name breaks in front of so many subscripts.
fn note_element(standing: &Standing, line: u32, text: &[u8], count: usize, found: &mut LeastFinding)
    ensures { found.new ≡ least_with_all found.old
        (element_findings (standing_of standing.now) line text.now count) }
{
    match standing.meaning(text) {
        Meaning::Nothing => note_undeclared(line, text, found),
        Meaning::Variable { rank, .. } => found.note_if(misfits(rank, count), 21, line),
        _ => found.note(21, line),
    }
}

#[tactic(auto, using(dc_tree::proofs::Findings::notes))]
fn note_placed(
    alloc: Global,
    standing: &Standing,
    line: u32,
    text: &[u8],
    subscripts: &Option<DcList<Expr>>,
    found: &mut LeastFinding,
) -> Result<(), NoMemory>
    ensures { OnOk result (found.new ≡ least_with_all found.old
        (placed_findings (standing_of standing.now) line text.now
        (option_map (map tree) subscripts.now))) }
{
    match subscripts {
        Some(list) => {
            note_element(standing, line, text, list.len(), found);
            note_all(alloc, standing, line, list.as_slice(), found)
        }
        None => {
            note_whole(standing, line, text, found);
            Ok(())
        }
    }
}

/// Notes what a target breaks.
fn note_target(
    alloc: Global,
    standing: &Standing,
    line: u32,
    target: &Target,
    found: &mut LeastFinding,
) -> Result<(), NoMemory>
    ensures { OnOk result (found.new ≡ least_with_all found.old
        (target_findings (standing_of standing.now) line (target_of target.now))) }
{
    note_placed(
        alloc,
        standing,
        line,
        target.name.as_bytes(),
        &target.subscripts,
        found,
    )
}

#[tactic(auto, using(dc_tree::proofs::Findings::notes))]
fn note_targets(
    alloc: Global,
    standing: &Standing,
    line: u32,
    targets: &[Target],
    found: &mut LeastFinding,
) -> Result<(), NoMemory>
    ensures { OnOk result (found.new ≡ least_with_all found.old
        (targets_in (standing_of standing.now) line (map target_of targets.now))) }
{
    for target in targets {
        note_target(alloc, standing, line, target, found)?;
    }
    Ok(())
}

/// Notes that a list hasn't as many items as the array has elements.
fn note_count(standing: &Standing, line: u32, text: &[u8], count: usize, found: &mut LeastFinding)
    ensures { found.new ≡ least_with_all found.old
        (count_findings (standing_of standing.now) line text.now count) }
{
    match standing.meaning(text) {
        Meaning::Variable { rank, .. } if rank > 0 => {
            found.note_if(!holds(bounds_at(standing, text), count), 25, line);
        }
        _ => {}
    }
}

#[tactic(auto, using(dc_tree::proofs::Findings::notes, crate::proofs::Lists::lengths))]
fn note_fill(
    alloc: Global,
    standing: &Standing,
    line: u32,
    text: &[u8],
    items: &[Expr],
    found: &mut LeastFinding,
) -> Result<(), NoMemory>
    ensures { OnOk result (found.new ≡ least_with_all found.old
        (fill_findings (standing_of standing.now) line text.now (map tree items.now))) }
{
    note_array(standing, line, text, found);
    note_all(alloc, standing, line, items, found)?;
    note_count(standing, line, text, items.len(), found);
    Ok(())
}

/// Notes what a name breaks that is called.
fn note_callee(standing: &Standing, line: u32, text: &[u8], found: &mut LeastFinding)
    ensures { found.new
        ≡ least_with_all found.old (callee_findings (standing_of standing.now) line text.now) }
{
    match standing.meaning(text) {
        Meaning::Nothing => note_undeclared(line, text, found),
        Meaning::Procedure {
            function: false,
            ..
        } => {}
        _ => found.note(21, line),
    }
}

/// Notes what an action breaks.
#[tactic(auto, using(dc_tree::proofs::Findings::notes))]
pub(crate) fn note_deed(
    alloc: Global,
    standing: &Standing,
    line: u32,
    action: &Action,
    found: &mut LeastFinding,
) -> Result<(), NoMemory>
    ensures { OnOk result (found.new ≡ least_with_all found.old
        (deed_findings (standing_of standing.now) line (statements.deed action.now))) }
{
    match action {
        Action::Assign { left, right } => {
            note_target(alloc, standing, line, left, found)?;
            note_uses(alloc, standing, line, right, found)
        }
        Action::Fill { name, items } => {
            note_fill(
                alloc,
                standing,
                line,
                name.as_bytes(),
                items.as_slice(),
                found,
            )
        }
        Action::Call { name, args, .. } => {
            note_callee(standing, line, name.as_bytes(), found);
            note_all(alloc, standing, line, args.as_slice(), found)
        }
        Action::Print { items, .. } => note_items(alloc, standing, line, items.as_slice(), found),
        Action::Read { items, .. } => note_targets(alloc, standing, line, items.as_slice(), found),
        _ => Ok(()),
    }
}

/// Notes what the variable and the limits of a counted DO break.
#[tactic(auto, using(dc_tree::proofs::Findings::notes))]
fn note_counted(
    alloc: Global,
    standing: &Standing,
    line: u32,
    counted: &Counted,
    found: &mut LeastFinding,
) -> Result<(), NoMemory>
    ensures { OnOk result (found.new ≡ least_with_all found.old
        (counted_findings (standing_of standing.now) line (counted_ranging counted.now))) }
{
    note_name(standing, line, counted.name.as_bytes(), found);
    note_uses(alloc, standing, line, &counted.first, found)?;
    note_uses(alloc, standing, line, &counted.last, found)?;
    note_optional(alloc, standing, line, &counted.step, found)
}

/// Notes what the head of a DO breaks.
pub(crate) fn note_do(
    alloc: Global,
    standing: &Standing,
    line: u32,
    counted: &Option<Counted>,
    found: &mut LeastFinding,
) -> Result<(), NoMemory>
    ensures { OnOk result (found.new ≡ least_with_all found.old
        (do_findings (standing_of standing.now) line (option_map counted_ranging counted.now))) }
{
    match counted {
        Some(counted) => note_counted(alloc, standing, line, counted, found),
        None => Ok(()),
    }
}
