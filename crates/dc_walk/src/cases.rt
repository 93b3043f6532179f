//! SELECT CASE: which arm is executed.

ghost use Rattle.std.specs.Prelude.{◌≡◌, ◌<◌, None, IfOk, IfSome, IsTrue, length, map};
ghost use Rattle.std.specs.List.{list_any};
ghost use Rattle.dc_tree.specs.Blocks.{line_of, arms_from, part_items};
ghost use Rattle.dc_tree.specs.Statements.{case_range, statement};
ghost use Rattle.dc_tree.specs.Syntax.{tree};
ghost use Rattle.dc_tree.specs.Typing.{constant_value};
ghost use Rattle.dc_sorts.specs.Standing.{standing_of, scope_at};
ghost use Rattle.dc_meaning.specs.Execution as execution;
ghost use Rattle.dc_meaning.specs.Walking.{Stays};
ghost use Rattle.dc_meaning.specs.WalkScope.{scope_of, own_of, IsWalk};
ghost use Rattle.dc_walk.specs.Arms.{chosen_from};
ghost use Rattle.dc_walk.specs.Walked.{is_walked_select};

use dc_meaning::{Stop, Walk, value};
use dc_plain::Ledger;
use dc_sorts::{Standing, fitted, known_expr};
use dc_text::NoMemory;
use dc_tree::{Expr, Lined, Part, Range, Stmt};
use std::alloc::Global;

/// The selector of SELECT CASE, which begins with this line.
pub(crate) fn selector(
    alloc: Global,
    walk: &Walk<'_>,
    ledger: &mut Ledger,
    head: &Lined,
) -> Result<i64, Stop>
    requires walk { IsWalk walk.now }
    requires walked { IsTrue (is_walked_select (statement (head.now).stmt)) }
    ensures { Stays (λ z. z) (own_of walk.now) ledger.old
        (λ call. execution.selector_of (scope_of walk.now) call (line_of head.now))
        ledger.new result }
{
    match &head.stmt {
        Stmt::Select(expr) => {
            let given = value(alloc, walk, ledger, head.line, expr)?;
            let known = known_expr(alloc, &walk.standing, expr)?;
            Ok(fitted(known.form, given))
        }
        _ => unreachable!(),
    }
}

/// The value of a constant expression.
fn constant(alloc: Global, standing: &Standing, expr: &Expr) -> Result<Option<i64>, NoMemory>
    ensures { IfOk result (λ z. z
        ≡ constant_value (scope_at (standing_of standing.now)) (tree expr.now)) }
{
    Ok(known_expr(alloc, standing, expr)?.value)
}

fn is_from(low: Option<i64>, given: i64) -> bool
    ensures { result ≡ execution.is_from low given }
{
    match low {
        Some(low) => low <= given,
        None => false,
    }
}

fn is_up_to(high: Option<i64>, given: i64) -> bool
    ensures { result ≡ execution.is_up_to high given }
{
    match high {
        Some(high) => given <= high,
        None => false,
    }
}

/// Whether a range of CASE has a value.
fn is_in_range(
    alloc: Global,
    standing: &Standing,
    given: i64,
    range: &Range,
) -> Result<bool, NoMemory>
    ensures { IfOk result (λ is. is
        ≡ execution.is_in_range (scope_at (standing_of standing.now)) given
        (case_range range.now)) }
{
    match range {
        Range::One(only) => {
            let only = constant(alloc, standing, only)?;
            Ok(is_from(only, given) && is_up_to(only, given))
        }
        Range::From(low) => Ok(is_from(constant(alloc, standing, low)?, given)),
        Range::To(high) => Ok(is_up_to(constant(alloc, standing, high)?, given)),
        Range::Both(low, high) => {
            let low = constant(alloc, standing, low)?;
            let high = constant(alloc, standing, high)?;
            Ok(is_from(low, given) && is_up_to(high, given))
        }
    }
}

/// Whether some range of CASE has a value.
fn is_in_some(
    alloc: Global,
    standing: &Standing,
    given: i64,
    ranges: &[Range],
) -> Result<bool, NoMemory>
    ensures { IfOk result (λ is. is
        ≡ list_any (execution.is_in_range (scope_at (standing_of standing.now)) given)
        (map case_range ranges.now)) }
{
    for range in ranges {
        if is_in_range(alloc, standing, given, range)? {
            return Ok(true);
        }
    }
    Ok(false)
}

/// The place of the arm of SELECT CASE that is taken, and `None` where none is. A default is taken
/// where no other arm fits, wherever it stands.
pub(crate) fn chosen(
    alloc: Global,
    standing: &Standing,
    given: i64,
    arms: &[Part],
) -> Result<Option<usize>, NoMemory>
    ensures is { IfOk result (λ found. found ≡ chosen_from (scope_at (standing_of standing.now))
        given 0 (arms_from (map part_items arms.now)) None) }
    ensures within { IfOk result (λ found. IfSome found (λ place. place < length arms.now)) }
{
    let mut otherwise = None;
    for (place, arm) in arms.iter().enumerate() {
        match &arm.head.stmt {
            Stmt::Case(ranges) => {
                if is_in_some(alloc, standing, given, ranges.as_slice())? {
                    return Ok(Some(place));
                }
            }
            _ => otherwise = Some(place),
        }
    }
    Ok(otherwise)
}
