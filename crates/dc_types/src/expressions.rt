//! What is asked of single expressions.

ghost use Rattle.std.specs.Prelude.{◌≡◌, map, option_map, IfOk, OnOk};
ghost use Rattle.dc_tree.specs.Findings.{least_with_all};
ghost use Rattle.dc_tree.specs.Syntax.{tree};
ghost use Rattle.dc_sorts.specs.Standing.{standing_of};
ghost use Rattle.dc_operands.specs.Operands.{plain_arguments};
ghost use Rattle.dc_types.specs.Actions.{form_at, expression_findings, each_findings, same_type, test_findings, limit_findings, value_findings};
ghost use Rattle.dc_types.specs.Loops.{mask_findings, step_findings};

use dc_operands::{
    Argument, is_logical, is_whole, note_all_numbers, note_arguments, note_numbers, note_operands,
};
use dc_sorts::{Form, Standing};
use dc_text::{DcList, NoMemory};
use dc_tree::{Expr, LeastFinding};
use std::alloc::Global;

/// Notes what an expression breaks by itself, and gives its form.
#[tactic(auto, using(dc_tree::proofs::Findings::notes))]
pub(crate) fn note_expression(
    alloc: Global,
    standing: &Standing,
    line: u32,
    expr: &Expr,
    found: &mut LeastFinding,
) -> Result<Form, NoMemory>
    ensures form { IfOk result (λ form. form
        ≡ form_at (standing_of standing.now) (tree expr.now)) }
    ensures findings { OnOk result (found.new ≡ least_with_all found.old
        (expression_findings (standing_of standing.now) line (tree expr.now))) }
{
    note_numbers(standing, line, expr, found);
    let known = note_operands(alloc, standing, line, expr, found)?;
    Ok(known.form)
}

/// Notes what expressions break by themselves, and gives them as arguments.
#[tactic(auto, using(dc_tree::proofs::Findings::notes))]
pub(crate) fn note_each(
    alloc: Global,
    standing: &Standing,
    line: u32,
    exprs: &[Expr],
    found: &mut LeastFinding,
) -> Result<DcList<Argument>, NoMemory>
    ensures arguments { IfOk result (λ arguments. arguments
        ≡ plain_arguments (standing_of standing.now) (map tree exprs.now)) }
    ensures findings { OnOk result (found.new ≡ least_with_all found.old
        (each_findings (standing_of standing.now) line (map tree exprs.now))) }
{
    note_all_numbers(standing, line, exprs, found);
    note_arguments(alloc, standing, line, exprs, found)
}

pub(crate) fn same_type(a: Form, b: Form) -> bool
    ensures { result ≡ same_type a b }
{
    if is_whole(a) {
        is_whole(b)
    } else {
        is_logical(b)
    }
}

/// Notes an expression that is asked to be LOGICAL.
#[tactic(auto, using(dc_tree::proofs::Findings::notes))]
pub(crate) fn note_test(
    alloc: Global,
    standing: &Standing,
    line: u32,
    expr: &Expr,
    found: &mut LeastFinding,
) -> Result<(), NoMemory>
    ensures { OnOk result (found.new ≡ least_with_all found.old
        (test_findings (standing_of standing.now) line (tree expr.now))) }
{
    let form = note_expression(alloc, standing, line, expr, found)?;
    found.note_if(is_whole(form), 28, line);
    Ok(())
}

/// Notes an expression that is asked to be an INTEGER.
#[tactic(auto, using(dc_tree::proofs::Findings::notes))]
pub(crate) fn note_limit(
    alloc: Global,
    standing: &Standing,
    line: u32,
    expr: &Expr,
    found: &mut LeastFinding,
) -> Result<(), NoMemory>
    ensures { OnOk result (found.new ≡ least_with_all found.old
        (limit_findings (standing_of standing.now) line (tree expr.now))) }
{
    let form = note_expression(alloc, standing, line, expr, found)?;
    found.note_if(is_logical(form), 28, line);
    Ok(())
}

/// Notes an expression that is asked to be of the type of a form.
#[tactic(auto, using(dc_tree::proofs::Findings::notes))]
pub(crate) fn note_value(
    alloc: Global,
    standing: &Standing,
    line: u32,
    asked: Form,
    expr: &Expr,
    found: &mut LeastFinding,
) -> Result<(), NoMemory>
    ensures { OnOk result (found.new ≡ least_with_all found.old
        (value_findings (standing_of standing.now) line asked (tree expr.now))) }
{
    let form = note_expression(alloc, standing, line, expr, found)?;
    found.note_if(!same_type(asked, form), 28, line);
    Ok(())
}

pub(crate) fn note_step(
    alloc: Global,
    standing: &Standing,
    line: u32,
    step: &Option<Expr>,
    found: &mut LeastFinding,
) -> Result<(), NoMemory>
    ensures { OnOk result (found.new ≡ least_with_all found.old
        (step_findings (standing_of standing.now) line (option_map tree step.now))) }
{
    match step {
        Some(expr) => note_limit(alloc, standing, line, expr, found),
        None => Ok(()),
    }
}

pub(crate) fn note_mask(
    alloc: Global,
    standing: &Standing,
    line: u32,
    mask: &Option<Expr>,
    found: &mut LeastFinding,
) -> Result<(), NoMemory>
    ensures { OnOk result (found.new ≡ least_with_all found.old
        (mask_findings (standing_of standing.now) line (option_map tree mask.now))) }
{
    match mask {
        Some(expr) => note_test(alloc, standing, line, expr, found),
        None => Ok(()),
    }
}
