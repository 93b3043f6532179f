//! Actions.

ghost use Rattle.std.specs.Prelude.{◌≡◌, map, OnOk};
ghost use Rattle.dc_tree.specs.Findings.{least_with_all};
ghost use Rattle.dc_tree.specs.Statements.{deed, target_of};
ghost use Rattle.dc_tree.specs.Syntax.{name, tree};
ghost use Rattle.dc_sorts.specs.Standing.{standing_of};
ghost use Rattle.dc_types.specs.Actions.{all_of_type, assign_findings, called_findings, deed_findings, each_findings, fill_findings, form_at, subroutine_findings};

use crate::expressions::{note_each, note_value, same_type};
use crate::targets::{note_defined, note_target, note_targets};
use dc_operands::{Argument, dummies_of, note_call};
use dc_sorts::{Form, Meaning, Standing, known_name};
use dc_text::NoMemory;
use dc_tree::{Action, Expr, LeastFinding, Target};
use std::alloc::Global;

pub(crate) fn form_of_name(standing: &Standing, text: &[u8]) -> Form
    ensures { result ≡ form_at (standing_of standing.now) (name text.now) }
{
    known_name(standing, text).form
}

#[tactic(auto, using(dc_tree::proofs::Findings::notes))]
fn note_assign(
    alloc: Global,
    standing: &Standing,
    line: u32,
    target: &Target,
    value: &Expr,
    found: &mut LeastFinding,
) -> Result<(), NoMemory>
    ensures { OnOk result (found.new ≡ least_with_all found.old
        (assign_findings (standing_of standing.now) line (target_of target.now) (tree value.now))) }
{
    note_target(alloc, standing, line, target, found)?;
    let form = form_of_name(standing, target.name.as_bytes());
    note_value(alloc, standing, line, form, value, found)
}

fn all_of_type(form: Form, arguments: &[Argument]) -> bool
    ensures { result ≡ all_of_type form arguments.now }
{
    for argument in arguments {
        if !same_type(form, argument.form) {
            return false;
        }
    }
    true
}

#[tactic(auto, using(dc_tree::proofs::Findings::notes))]
fn note_fill(
    alloc: Global,
    standing: &Standing,
    line: u32,
    text: &[u8],
    items: &[Expr],
    found: &mut LeastFinding,
) -> Result<(), NoMemory>
    ensures { OnOk result (found.new ≡ least_with_all found.old
        (fill_findings (standing_of standing.now) line text.now (map tree items.now))) }
{
    let arguments = note_each(alloc, standing, line, items, found)?;
    let form = form_of_name(standing, text);
    found.note_if(!all_of_type(form, arguments.as_slice()), 28, line);
    note_defined(standing, line, text, found);
    Ok(())
}

fn note_called(
    standing: &Standing,
    line: u32,
    meaning: Meaning,
    arguments: &[Argument],
    found: &mut LeastFinding,
)
    ensures { found.new ≡ least_with_all found.old
        (called_findings (standing_of standing.now) line meaning arguments.now) }
{
    match meaning {
        Meaning::Procedure { number, .. } => {
            note_call(line, dummies_of(standing, number), arguments, found)
        }
        _ => {}
    }
}

#[tactic(auto, using(dc_tree::proofs::Findings::notes))]
fn note_subroutine(
    alloc: Global,
    standing: &Standing,
    line: u32,
    text: &[u8],
    args: &[Expr],
    found: &mut LeastFinding,
) -> Result<(), NoMemory>
    ensures { OnOk result (found.new ≡ least_with_all found.old
        (subroutine_findings (standing_of standing.now) line text.now (map tree args.now))) }
{
    let arguments = note_each(alloc, standing, line, args, found)?;
    note_called(
        standing,
        line,
        standing.meaning(text),
        arguments.as_slice(),
        found,
    );
    Ok(())
}

fn note_items(
    alloc: Global,
    standing: &Standing,
    line: u32,
    items: &[Expr],
    found: &mut LeastFinding,
) -> Result<(), NoMemory>
    ensures { OnOk result (found.new ≡ least_with_all found.old
        (each_findings (standing_of standing.now) line (map tree items.now))) }
{
    note_each(alloc, standing, line, items, found)?;
    Ok(())
}

/// Notes what an action breaks.
pub(crate) fn note_action(
    alloc: Global,
    standing: &Standing,
    line: u32,
    action: &Action,
    found: &mut LeastFinding,
) -> Result<(), NoMemory>
    ensures { OnOk result (found.new ≡ least_with_all found.old
        (deed_findings (standing_of standing.now) line (deed action.now))) }
{
    match action {
        Action::Assign { left, right } => note_assign(alloc, standing, line, left, right, found),
        Action::Fill { name, items } => {
            note_fill(
                alloc,
                standing,
                line,
                name.as_bytes(),
                items.as_slice(),
                found,
            )
        }
        Action::Call { name, args, .. } => {
            note_subroutine(
                alloc,
                standing,
                line,
                name.as_bytes(),
                args.as_slice(),
                found,
            )
        }
        Action::Print { items, .. } => note_items(alloc, standing, line, items.as_slice(), found),
        Action::Read { items, .. } => note_targets(alloc, standing, line, items.as_slice(), found),
        _ => Ok(()),
    }
}
