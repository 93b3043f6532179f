//! The bounds of arrays.

ghost use Rattle.std.specs.Prelude.{◌≡◌, IfOk, OnOk, is_some, map, option_map};
ghost use Rattle.dc_declare.specs.Bounds.{told, low_of, high_of, bounds_of, all_bounds, bound_findings, low_findings, each_dimension, rank_findings, all_dimensions, is_array, shared};
ghost use Rattle.dc_sorts.specs.Standing.{standing_of};
ghost use Rattle.dc_uses.specs.Constants.{whole_constant};
ghost use Rattle.dc_tree.specs.Findings.{least_with_all};
ghost use Rattle.dc_tree.specs.Statements.{dimension_of};
ghost use Rattle.dc_tree.specs.Syntax.{tree};

use dc_sorts::Standing;
use dc_text::{DcList, NoMemory};
use dc_tree::{Bound, Expr, LeastFinding};
use dc_uses::{note_uses, whole_constant};
use std::alloc::Global;

/// The greatest rank of a variable.
const GREATEST_RANK: usize = 7;

/// How many dimensions of an attribute are kept.
const MOST_KEPT: usize = 15;

pub(crate) fn told(value: Option<i64>, other: i64) -> i64
    ensures { result ≡ told value other }
{
    match value {
        Some(number) => number,
        None => other,
    }
}

fn low_of(alloc: Global, standing: &Standing, low: &Option<Expr>) -> Result<i64, NoMemory>
    ensures { IfOk result (λ made. made
        ≡ low_of (standing_of standing.now) (option_map tree low.now)) }
{
    match low {
        Some(expr) => Ok(told(whole_constant(alloc, standing, expr)?, 1)),
        None => Ok(1),
    }
}

fn high_of(alloc: Global, standing: &Standing, high: &Expr) -> Result<i64, NoMemory>
    ensures { IfOk result (λ made. made ≡ high_of (standing_of standing.now) (tree high.now)) }
{
    Ok(told(whole_constant(alloc, standing, high)?, 0))
}

fn bounds_of(alloc: Global, standing: &Standing, bound: &Bound) -> Result<(i64, i64), NoMemory>
    ensures { IfOk result (λ made. made
        ≡ bounds_of (standing_of standing.now) (dimension_of bound.now)) }
{
    let low = low_of(alloc, standing, &bound.low)?;
    let high = high_of(alloc, standing, &bound.high)?;
    Ok((low, high))
}

/// The bounds of all dimensions.
#[tactic(auto, using(dc_tree::proofs::Findings::notes))]
pub(crate) fn all_bounds(
    alloc: Global,
    standing: &Standing,
    bounds: &[Bound],
) -> Result<DcList<(i64, i64)>, NoMemory>
    ensures { IfOk result (λ made. made
        ≡ all_bounds (standing_of standing.now) (map dimension_of bounds.now)) }
{
    let mut made = DcList::new(alloc);
    for bound in bounds {
        made.push(bounds_of(alloc, standing, bound)?)?;
    }
    Ok(made)
}

fn is_told(alloc: Global, standing: &Standing, expr: &Expr) -> Result<bool, NoMemory>
    ensures { IfOk result (λ is. is
        ≡ is_some (whole_constant (standing_of standing.now) (tree expr.now))) }
{
    Ok(whole_constant(alloc, standing, expr)?.is_some())
}

#[tactic(auto, using(dc_tree::proofs::Findings::notes))]
fn note_bound(
    alloc: Global,
    standing: &Standing,
    line: u32,
    expr: &Expr,
    found: &mut LeastFinding,
) -> Result<(), NoMemory>
    ensures { OnOk result (found.new
        ≡ least_with_all found.old (bound_findings (standing_of standing.now) line
        (tree expr.now))) }
{
    note_uses(alloc, standing, line, expr, found)?;
    let is_told = is_told(alloc, standing, expr)?;
    found.note_if(!is_told, 23, line);
    Ok(())
}

#[tactic(auto, using(dc_tree::proofs::Findings::notes))]
fn note_low(
    alloc: Global,
    standing: &Standing,
    line: u32,
    low: &Option<Expr>,
    found: &mut LeastFinding,
) -> Result<(), NoMemory>
    ensures { OnOk result (found.new
        ≡ least_with_all found.old (low_findings (standing_of standing.now) line
        (option_map tree low.now))) }
{
    match low {
        Some(expr) => note_bound(alloc, standing, line, expr, found),
        None => Ok(()),
    }
}

/// Notes what the expressions of each dimension break.
#[tactic(auto, using(dc_tree::proofs::Findings::notes))]
fn note_each(
    alloc: Global,
    standing: &Standing,
    line: u32,
    bounds: &[Bound],
    found: &mut LeastFinding,
) -> Result<(), NoMemory>
    ensures { OnOk result (found.new
        ≡ least_with_all found.old (each_dimension (standing_of standing.now) line
        (map dimension_of bounds.now))) }
{
    for bound in bounds {
        note_low(alloc, standing, line, &bound.low, found)?;
        note_bound(alloc, standing, line, &bound.high, found)?;
    }
    Ok(())
}

/// Notes what the bounds of an array break.
#[tactic(auto, using(dc_tree::proofs::Findings::notes, crate::proofs::Rules::counting))]
pub(crate) fn note_bounds(
    alloc: Global,
    standing: &Standing,
    line: u32,
    bounds: &[Bound],
    found: &mut LeastFinding,
) -> Result<(), NoMemory>
    ensures { OnOk result (found.new
        ≡ least_with_all found.old (all_dimensions (standing_of standing.now) line
        (map dimension_of bounds.now))) }
{
    note_each(alloc, standing, line, bounds, found)?;
    found.note_if(bounds.len() > GREATEST_RANK, 24, line);
    Ok(())
}

pub(crate) fn is_array(bounds: &[(i64, i64)]) -> bool
    ensures { result ≡ is_array bounds.now }
{
    !bounds.is_empty()
}

/// The bounds of an attribute for one of many names.
pub(crate) fn shared(alloc: Global, bounds: &[(i64, i64)]) -> Result<DcList<(i64, i64)>, NoMemory>
    ensures { IfOk result (λ made. made ≡ shared bounds.now) }
{
    let kept = bounds.len().min(MOST_KEPT);
    let items = Vec::from_slice(alloc, &bounds[..kept])?;
    Ok(DcList::from_vec(items))
}
