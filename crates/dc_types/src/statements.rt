//! Single statements.

ghost use Rattle.std.specs.Prelude.{◌≡◌, Some, IfOk, OnOk};
ghost use Rattle.dc_tree.specs.Findings.{least_with_all};
ghost use Rattle.dc_tree.specs.Statements.{deed, statement};
ghost use Rattle.dc_tree.specs.Syntax.{tree};
ghost use Rattle.dc_sorts.specs.Standing.{standing_of};
ghost use Rattle.dc_types.specs.Actions.{expression_findings, form_at};
ghost use Rattle.dc_types.specs.Types.{guarded_findings, head_findings, selector_form, statement_findings};

use crate::actions::note_action;
use crate::cases::note_ranges;
use crate::concurrents::note_header;
use crate::expressions::{note_expression, note_test};
use crate::headers::note_counted;
use dc_operands::note_operands;
use dc_sorts::{Form, Standing};
use dc_text::NoMemory;
use dc_tree::{Action, Expr, LeastFinding, Stmt};
use std::alloc::Global;

#[tactic(auto, using(dc_tree::proofs::Findings::notes))]
fn note_guarded(
    alloc: Global,
    standing: &Standing,
    line: u32,
    test: &Expr,
    action: &Action,
    found: &mut LeastFinding,
) -> Result<(), NoMemory>
    ensures { OnOk result (found.new ≡ least_with_all found.old
        (guarded_findings (standing_of standing.now) line (tree test.now) (deed action.now))) }
{
    note_test(alloc, standing, line, test, found)?;
    note_action(alloc, standing, line, action, found)
}

fn note_selector(
    alloc: Global,
    standing: &Standing,
    line: u32,
    selector: &Expr,
    found: &mut LeastFinding,
) -> Result<(), NoMemory>
    ensures { OnOk result (found.new ≡ least_with_all found.old
        (expression_findings (standing_of standing.now) line (tree selector.now))) }
{
    note_expression(alloc, standing, line, selector, found)?;
    Ok(())
}

/// Notes what a statement breaks by itself.
pub(crate) fn note_statement(
    alloc: Global,
    standing: &Standing,
    line: u32,
    stmt: &Stmt,
    found: &mut LeastFinding,
) -> Result<(), NoMemory>
    ensures { OnOk result (found.new ≡ least_with_all found.old
        (statement_findings (standing_of standing.now) line (statement stmt.now))) }
{
    match stmt {
        Stmt::IfThen(test) => note_test(alloc, standing, line, test, found),
        Stmt::ElseIf(test) => note_test(alloc, standing, line, test, found),
        Stmt::IfAction { test, action } => {
            note_guarded(alloc, standing, line, test, action, found)
        }
        Stmt::Select(selector) => note_selector(alloc, standing, line, selector, found),
        Stmt::Do { counted, .. } => note_counted(alloc, standing, line, counted, found),
        Stmt::DoWhile { test, .. } => note_test(alloc, standing, line, test, found),
        Stmt::Concurrent {
            spec,
            indexes,
            mask,
            locality,
            ..
        } => note_header(
            alloc,
            standing,
            line,
            spec,
            indexes.as_slice(),
            mask,
            locality.as_slice(),
            found,
        ),
        Stmt::Act(action) => note_action(alloc, standing, line, action, found),
        _ => Ok(()),
    }
}

fn form_of(alloc: Global, standing: &Standing, expr: &Expr) -> Result<Form, NoMemory>
    ensures { IfOk result (λ form. form ≡ form_at (standing_of standing.now) (tree expr.now)) }
{
    let mut noted = LeastFinding::none();
    let known = note_operands(alloc, standing, 0, expr, &mut noted)?;
    Ok(known.form)
}

/// The form of the selector that a statement has.
pub(crate) fn selector_form(
    alloc: Global,
    standing: &Standing,
    stmt: &Stmt,
) -> Result<Option<Form>, NoMemory>
    ensures { IfOk result (λ form. form
        ≡ selector_form (standing_of standing.now) (statement stmt.now)) }
{
    match stmt {
        Stmt::Select(selector) => Ok(Some(form_of(alloc, standing, selector)?)),
        _ => Ok(None),
    }
}

fn note_case(
    alloc: Global,
    standing: &Standing,
    form: Form,
    line: u32,
    stmt: &Stmt,
    found: &mut LeastFinding,
) -> Result<(), NoMemory>
    ensures { OnOk result (found.new ≡ least_with_all found.old
        (head_findings (standing_of standing.now) (Some form) line (statement stmt.now))) }
{
    match stmt {
        Stmt::Case(ranges) => note_ranges(alloc, standing, line, form, ranges.as_slice(), found),
        _ => note_statement(alloc, standing, line, stmt, found),
    }
}

/// Notes what stands in front of an arm.
pub(crate) fn note_head(
    alloc: Global,
    standing: &Standing,
    selector: Option<Form>,
    line: u32,
    stmt: &Stmt,
    found: &mut LeastFinding,
) -> Result<(), NoMemory>
    ensures { OnOk result (found.new ≡ least_with_all found.old
        (head_findings (standing_of standing.now) selector line (statement stmt.now))) }
{
    match selector {
        Some(form) => note_case(alloc, standing, form, line, stmt, found),
        None => note_statement(alloc, standing, line, stmt, found),
    }
}
