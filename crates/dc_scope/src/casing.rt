//! The CASE statements of a construct.

ghost use Rattle.std.specs.Prelude.{◌≡◌, ◌||◌, List, map, IfOk, OnOk};
ghost use Rattle.dc_tree.specs.Findings.{least_with_all};
ghost use Rattle.dc_tree.specs.Statements.{case_range, statement};
ghost use Rattle.dc_tree.specs.Syntax.{tree};
ghost use Rattle.dc_sorts.specs.Standing.{standing_of};
ghost use Rattle.dc_uses.specs.Constants as constants;
ghost use Rattle.dc_scope.specs.declared.interval.Interval.{Interval};
ghost use Rattle.dc_scope.specs.Covers.{Covers, Keeps};
ghost use Rattle.dc_scope.specs.Cases.{Cases, is_logical_value, with_interval, interval_of, intervals_behind, cases_behind, value_findings, ends_findings, range_findings, ranges_in, case_findings};

use crate::case_values::{CaseValues, CasesSoFar, add, meets_any};
use crate::interval::{Interval, downward, is_logical_value, single, spanned, upward};
use dc_sorts::Standing;
use dc_text::NoMemory;
use dc_tree::{Expr, LeastFinding, Range, Stmt};
use dc_uses::{Constant, constant_of, note_uses};
use std::alloc::Global;

/// Notes what a case value breaks, and gives it.
#[tactic(auto, using(dc_tree::proofs::Findings::notes))]
fn note_value(
    alloc: Global,
    standing: &Standing,
    line: u32,
    expr: &Expr,
    found: &mut LeastFinding,
) -> Result<Option<Constant>, NoMemory>
    ensures constant { IfOk result (λ constant.
        constant ≡ constants.constant_of (standing_of standing.now) (tree expr.now)) }
    ensures findings { OnOk result (found.new ≡ least_with_all found.old
        (value_findings (standing_of standing.now) line (tree expr.now))) }
{
    note_uses(alloc, standing, line, expr, found)?;
    let constant = constant_of(alloc, standing, expr)?;
    found.note_if(constant.is_none(), 23, line);
    Ok(constant)
}

fn are_logical(low: Option<Constant>, high: Option<Constant>) -> bool
    ensures { result ≡ (is_logical_value low || is_logical_value high) }
{
    is_logical_value(low) || is_logical_value(high)
}

/// Notes what the ends of a range break, and gives its values.
#[tactic(auto, using(dc_tree::proofs::Findings::notes))]
fn note_ends(
    alloc: Global,
    standing: &Standing,
    line: u32,
    range: &Range,
    found: &mut LeastFinding,
) -> Result<Option<Interval>, NoMemory>
    ensures interval { IfOk result (λ interval.
        interval ≡ interval_of (standing_of standing.now) (case_range range.now)) }
    ensures findings { OnOk result (found.new ≡ least_with_all found.old
        (ends_findings (standing_of standing.now) line (case_range range.now))) }
{
    match range {
        Range::One(value) => Ok(single(note_value(alloc, standing, line, value, found)?)),
        Range::From(low) => {
            let low = note_value(alloc, standing, line, low, found)?;
            found.note_if(is_logical_value(low), 27, line);
            Ok(upward(low))
        }
        Range::To(high) => {
            let high = note_value(alloc, standing, line, high, found)?;
            found.note_if(is_logical_value(high), 27, line);
            Ok(downward(high))
        }
        Range::Both(low, high) => {
            let low = note_value(alloc, standing, line, low, found)?;
            let high = note_value(alloc, standing, line, high, found)?;
            found.note_if(are_logical(low, high), 27, line);
            Ok(spanned(low, high))
        }
    }
}

/// Notes what a range breaks behind others, and adds its values to theirs.
#[tactic(auto, using(dc_tree::proofs::Findings::notes))]
fn note_range(
    alloc: Global,
    standing: &Standing,
    line: u32,
    range: &Range,
    values: &mut CaseValues,
    found: &mut LeastFinding,
) -> Result<(), NoMemory>
    ensures values { OnOk result ((before : List Interval) → Covers values.old before
        → Covers values.new (with_interval before
        (interval_of (standing_of standing.now) (case_range range.now)))) }
    ensures findings { OnOk result ((before : List Interval) → Covers values.old before
        → found.new ≡ least_with_all found.old
        (range_findings (standing_of standing.now) line before (case_range range.now))) }
{
    let next = note_ends(alloc, standing, line, range, found)?;
    found.note_if(meets_any(values, next), 27, line);
    add(values, next)
}

/// Notes what the ranges of a CASE break behind others, and adds their values to theirs.
#[tactic(auto, using(dc_tree::proofs::Findings::notes))]
fn note_ranges(
    alloc: Global,
    standing: &Standing,
    line: u32,
    ranges: &[Range],
    values: &mut CaseValues,
    found: &mut LeastFinding,
) -> Result<(), NoMemory>
    ensures values { OnOk result ((before : List Interval) → Covers values.old before
        → Covers values.new (intervals_behind (standing_of standing.now) before
        (map case_range ranges.now))) }
    ensures findings { OnOk result ((before : List Interval) → Covers values.old before
        → found.new ≡ least_with_all found.old
        (ranges_in (standing_of standing.now) line before (map case_range ranges.now))) }
{
    for range in ranges {
        note_range(alloc, standing, line, range, values, found)?;
    }
    Ok(())
}

/// Notes what a CASE breaks behind others of its construct, and adds it to these.
pub(crate) fn note_case(
    alloc: Global,
    standing: &Standing,
    line: u32,
    stmt: &Stmt,
    so_far: &mut CasesSoFar,
    found: &mut LeastFinding,
) -> Result<(), NoMemory>
    ensures so_far { OnOk result ((cases : Cases) → Keeps so_far.old cases
        → Keeps so_far.new (cases_behind (standing_of standing.now) cases (statement stmt.now))) }
    ensures findings { OnOk result ((cases : Cases) → Keeps so_far.old cases
        → found.new ≡ least_with_all found.old
        (case_findings (standing_of standing.now) line cases (statement stmt.now))) }
{
    match stmt {
        Stmt::Case(ranges) => note_ranges(
            alloc,
            standing,
            line,
            ranges.as_slice(),
            &mut so_far.values,
            found,
        ),
        Stmt::CaseDefault => {
            found.note_if(so_far.has_default, 27, line);
            so_far.has_default = true;
            Ok(())
        }
        _ => Ok(()),
    }
}
