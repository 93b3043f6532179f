//! The values that declarations give.

ghost use Rattle.std.specs.Prelude.{◌≡◌, ◌∷◌, [], IfOk, OnOk, if◌then◌else◌, is_some, length, map, replicate};
ghost use Rattle.dc_declare.specs.Values.{stored, suits, taken_as, value_in, worth, value_findings, each_value, trees_in, values_in, initial_findings, is_filling, list_findings, first_value, filled, is_valued};
ghost use Rattle.dc_int.specs.Reductions.{truth, number_of_truth};
ghost use Rattle.dc_sorts.specs.Standing.{standing_of};
ghost use Rattle.dc_tree.specs.Findings.{least_with_all};
ghost use Rattle.dc_tree.specs.Statements.{initial};
ghost use Rattle.dc_tree.specs.Syntax.{tree};

use crate::bounds::told;
use crate::types::ElementType;
use dc_int::wrap_to;
use dc_sorts::{Form, Standing};
use dc_text::{DcList, NoMemory};
use dc_tree::{Expr, Init, LeastFinding};
use dc_uses::{Constant, constant_of, note_uses};
use std::alloc::Global;

fn truth_of(value: i64) -> i64
    ensures { result ≡ number_of_truth (truth value) }
{
    if value == 0 { 0 } else { 1 }
}

fn stored(form: ElementType, value: i64) -> i64
    ensures { result ≡ stored form value }
{
    if form.logical {
        truth_of(value)
    } else {
        wrap_to(form.kind, i128::from(value))
    }
}

fn suits(form: ElementType, given: Form) -> bool
    ensures { result ≡ suits form given }
{
    match given {
        Form::Whole(_) => !form.logical,
        Form::Logical => form.logical,
    }
}

fn taken_as(form: ElementType, constant: Option<Constant>) -> Option<i64>
    ensures { result ≡ taken_as form constant }
{
    let constant = constant?;
    if suits(form, constant.form) {
        Some(stored(form, constant.value))
    } else {
        None
    }
}

fn value_in(
    alloc: Global,
    standing: &Standing,
    form: ElementType,
    expr: &Expr,
) -> Result<Option<i64>, NoMemory>
    ensures { IfOk result (λ value. value
        ≡ value_in (standing_of standing.now) form (tree expr.now)) }
{
    Ok(taken_as(form, constant_of(alloc, standing, expr)?))
}

fn worth(
    alloc: Global,
    standing: &Standing,
    form: ElementType,
    expr: &Expr,
) -> Result<i64, NoMemory>
    ensures { IfOk result (λ value. value ≡ worth (standing_of standing.now) form (tree expr.now)) }
{
    Ok(told(value_in(alloc, standing, form, expr)?, 0))
}

fn is_told(
    alloc: Global,
    standing: &Standing,
    form: ElementType,
    expr: &Expr,
) -> Result<bool, NoMemory>
    ensures { IfOk result (λ is. is
        ≡ is_some (value_in (standing_of standing.now) form (tree expr.now))) }
{
    Ok(value_in(alloc, standing, form, expr)?.is_some())
}

#[tactic(auto, using(dc_tree::proofs::Findings::notes))]
fn note_value(
    alloc: Global,
    standing: &Standing,
    line: u32,
    form: ElementType,
    expr: &Expr,
    found: &mut LeastFinding,
) -> Result<(), NoMemory>
    ensures { OnOk result (found.new
        ≡ least_with_all found.old (value_findings (standing_of standing.now) line form
        (tree expr.now))) }
{
    note_uses(alloc, standing, line, expr, found)?;
    let is_told = is_told(alloc, standing, form, expr)?;
    found.note_if(!is_told, 23, line);
    Ok(())
}

#[tactic(auto, using(dc_tree::proofs::Findings::notes))]
fn note_each(
    alloc: Global,
    standing: &Standing,
    line: u32,
    form: ElementType,
    exprs: &[Expr],
    found: &mut LeastFinding,
) -> Result<(), NoMemory>
    ensures { OnOk result (found.new
        ≡ least_with_all found.old (each_value (standing_of standing.now) line form
        (map tree exprs.now))) }
{
    for expr in exprs {
        note_value(alloc, standing, line, form, expr, found)?;
    }
    Ok(())
}

/// Notes what the values of a declaration break by themselves.
#[tactic(auto, using(dc_tree::proofs::Findings::notes))]
pub(crate) fn note_initial(
    alloc: Global,
    standing: &Standing,
    line: u32,
    form: ElementType,
    init: &Init,
    found: &mut LeastFinding,
) -> Result<(), NoMemory>
    ensures { OnOk result (found.new
        ≡ least_with_all found.old (initial_findings (standing_of standing.now) line form
        (initial init.now))) }
{
    match init {
        Init::Absent => Ok(()),
        Init::Scalar(expr) => note_value(alloc, standing, line, form, expr, found),
        Init::Listed(exprs) => { note_each(alloc, standing, line, form, exprs.as_slice(), found) }
    }
}

#[tactic(auto, using(dc_tree::proofs::Findings::notes))]
fn worth_of_each(
    alloc: Global,
    standing: &Standing,
    form: ElementType,
    exprs: &[Expr],
) -> Result<DcList<i64>, NoMemory>
    ensures { IfOk result (λ made. made
        ≡ map (worth (standing_of standing.now) form) (map tree exprs.now)) }
{
    let mut made = DcList::new(alloc);
    for expr in exprs {
        made.push(worth(alloc, standing, form, expr)?)?;
    }
    Ok(made)
}

fn alone(alloc: Global, value: i64) -> Result<DcList<i64>, NoMemory>
    ensures { IfOk result (λ made. made ≡ value ∷ []) }
{
    let mut made = DcList::new(alloc);
    made.push(value)?;
    Ok(made)
}

/// The values that stand in a declaration.
pub(crate) fn values_in(
    alloc: Global,
    standing: &Standing,
    form: ElementType,
    init: &Init,
) -> Result<DcList<i64>, NoMemory>
    ensures { IfOk result (λ made. made
        ≡ values_in (standing_of standing.now) form (initial init.now)) }
{
    match init {
        Init::Absent => Ok(DcList::new(alloc)),
        Init::Scalar(expr) => alone(alloc, worth(alloc, standing, form, expr)?),
        Init::Listed(exprs) => worth_of_each(alloc, standing, form, exprs.as_slice()),
    }
}

fn is_filling(array: bool, size: u32, count: usize) -> bool
    ensures { result ≡ is_filling array size count }
{
    array && count == size as usize
}

/// Notes where a list has more or fewer values than there are elements.
#[tactic(auto, using(dc_tree::proofs::Findings::notes))]
pub(crate) fn note_list(line: u32, array: bool, size: u32, init: &Init, found: &mut LeastFinding)
    ensures { found.new
        ≡ least_with_all found.old (list_findings line array size (initial init.now)) }
{
    if let Init::Listed(exprs) = init {
        found.note_if(!is_filling(array, size, exprs.len()), 25, line);
    }
}

pub(crate) fn first_value(values: &[i64]) -> i64
    ensures { result ≡ first_value values.now }
{
    match values {
        [] => 0,
        [first, ..] => *first,
    }
}

fn repeated(alloc: Global, over: bool, size: u32, value: i64) -> Result<DcList<i64>, NoMemory>
    ensures { IfOk result (λ made. made ≡ (if over then [] else replicate size value)) }
{
    if over {
        return Ok(DcList::new(alloc));
    }
    let items = Vec::from_elem(alloc, value, size as usize)?;
    Ok(DcList::from_vec(items))
}

fn listed(alloc: Global, array: bool, size: u32, values: DcList<i64>) -> DcList<i64>
    ensures { result ≡ (if is_filling array size (length values) then values else []) }
{
    if is_filling(array, size, values.len()) {
        values
    } else {
        DcList::new(alloc)
    }
}

/// The initial values of the elements of a variable.
pub(crate) fn filled(
    alloc: Global,
    over: bool,
    array: bool,
    size: u32,
    init: &Init,
    values: DcList<i64>,
) -> Result<DcList<i64>, NoMemory>
    ensures { IfOk result (λ made. made ≡ filled over array size (initial init.now) values) }
{
    match init {
        Init::Absent => Ok(DcList::new(alloc)),
        Init::Scalar(_) => repeated(alloc, over, size, first_value(values.as_slice())),
        Init::Listed(_) => Ok(listed(alloc, array, size, values)),
    }
}

pub(crate) fn is_valued(init: &Init) -> bool
    ensures { result ≡ is_valued (initial init.now) }
{
    match init {
        Init::Absent => false,
        Init::Scalar(_) | Init::Listed(_) => true,
    }
}
