//! The plain judge: each iteration alone, by lists of what it does.

ghost use Rattle.std.specs.Prelude.{◌≡◌, ◌≤◌, [], ◌∷◌, length, map, slice_get, option_map, Some, None, ℤ, IfOk, OnOk};
ghost use Rattle.dc_code.specs.Loops.{Loop, alone, order, closed};
ghost use Rattle.dc_code.specs.Troubles.{ended};
ghost use Rattle.dc_code.specs.Verdicts.{seen, in_iteration, race_in, race_among};
ghost use Rattle.dc_walk.specs.Judging.{IsDone, IsOne, IsTask, IsMarked, IsOrdered, IsJudged, combination, runs_of, bad_of, told_of};
ghost use Rattle.dc_plain.specs.Marks.{blank_marks, marked_runs};
ghost use Rattle.dc_plain.specs.MarkViews.{marks_of, FitStore};
ghost use Rattle.dc_plain.specs.Plainly.{plain};
ghost use Rattle.dc_walk.specs.Pairing.{between_plain};

use crate::loops::perform_iteration;
use crate::task::Task;
use dc_code::{Race, Verdict};
use dc_int::Why;
use dc_meaning::Stop;
use dc_plain::{Ledger, Mark, Named, first_named, mark_notes, race_by};
use dc_text::{DcList, NoMemory};
use std::alloc::Global;

/// An iteration that doesn't end well, counted from 0, with the line where it ends.
#[derive(Clone, Copy, Debug, PartialEq, Eq)]
pub(crate) struct Bad {
    pub iteration: u32,
    pub why: Why,
    pub line: u32,
}

/// A race, with the values of the index in its two iterations.
#[derive(Clone, Copy, Debug, PartialEq, Eq)]
pub(crate) struct Told {
    pub race: Race,
    pub first: i64,
    pub second: i64,
}

/// Runs one iteration over the ledger. They note what it does, and nothing else.
fn iterate(
    alloc: Global,
    task: Task<'_>,
    ledger: &mut Ledger,
    value: i64,
) -> Result<Option<(Why, u32)>, NoMemory>
    ghost parts: { Loop }
    requires { IsTask parts task }
    ensures { IfOk result (λ met.
        IsDone (parts.block (ledger.old).store [] (combination value)) ledger.new met) }
{
    ledger.forget_accesses();
    match perform_iteration(alloc, task, value, ledger) {
        Ok(()) => Ok(None),
        Err(Stop::Failed { why, line }) => Ok(Some((why, line))),
        Err(Stop::NoMemory) => Err(NoMemory),
    }
}

/// Runs one iteration alone over a copy of the opening ledger, marks what it does, and takes it
/// back.
fn mark_one(
    alloc: Global,
    task: Task<'_>,
    opening: &Ledger,
    ledger: &mut Ledger,
    iteration: u32,
    value: i64,
    rows: &mut Vec<Vec<Mark>>,
) -> Result<Option<(Why, u32)>, NoMemory>
    ghost parts: { Loop }
    requires task { IsTask parts task }
    requires copy { (ledger.old).store ≡ (opening.now).store }
    ensures one { IfOk result (λ met. IsOne (alone parts (opening.now).store (combination value))
        iteration (marks_of rows.old.items) (marks_of rows.new.items) met) }
    ensures back { IfOk result (λ met. (ledger.new).store ≡ (opening.now).store) }
{
    let met = iterate(alloc, task, ledger, value)?;
    mark_notes(rows, iteration, ledger.notes());
    ledger.take_back(opening);
    Ok(met)
}

/// Runs each iteration alone, up to the first that doesn't end well, and marks what each does.
pub(crate) fn mark_alone(
    alloc: Global,
    task: Task<'_>,
    opening: &Ledger,
    active: &[i64],
    rows: &mut Vec<Vec<Mark>>,
) -> Result<Option<Bad>, NoMemory>
    ghost parts: { Loop }
    requires task { IsTask parts task }
    requires few { length active.now ≤ 4194304 }
    ensures { IfOk result (λ bad. IsMarked parts (opening.now).store active.now
        (marks_of rows.old.items) (marks_of rows.new.items) bad) }
{
    let mut ledger = opening.fresh(alloc)?;
    let mut iteration = 0;
    for value in active {
        if let Some((why, line)) = mark_one(
            alloc,
            task,
            opening,
            &mut ledger,
            iteration,
            *value,
            rows,
        )? {
            return Ok(Some(Bad {
                iteration,
                why,
                line,
            }));
        }
        iteration += 1;
    }
    Ok(None)
}

/// Runs the pair that is named in succession, over one store.
fn replay(
    alloc: Global,
    task: Task<'_>,
    opening: &Ledger,
    named: Named,
    first: i64,
    second: i64,
) -> Result<Option<Race>, NoMemory>
    ghost parts: { Loop }
    requires { IsTask parts task }
    ensures { IfOk result (λ race. race ≡ race_in plain named.first named.second (order parts []
        (opening.now).store (combination first ∷ combination second ∷ [])).runs) }
{
    let mut ledger = opening.fresh(alloc)?;
    if iterate(alloc, task, &mut ledger, first)?.is_some() {
        return Ok(None);
    }
    let before = ledger.take_notes(alloc);
    let _met = iterate(alloc, task, &mut ledger, second)?;
    Ok(race_by(named.first, named.second, before.as_slice(), ledger.notes()))
}

/// Runs the iterations in this order over one store, up to the first that doesn't end well, and
/// marks what each does.
fn run_in_order(
    alloc: Global,
    task: Task<'_>,
    ledger: &mut Ledger,
    active: &[i64],
    rows: &mut Vec<Vec<Mark>>,
) -> Result<(), NoMemory>
    ghost parts: { Loop }
    requires task { IsTask parts task }
    requires few { length active.now ≤ 4194304 }
    ensures { OnOk result (IsOrdered
        (order parts [] (ledger.old).store (map combination active.now)) (marks_of rows.old.items)
        (ledger.new).store (marks_of rows.new.items)) }
{
    let mut iteration = 0;
    for value in active {
        let met = iterate(alloc, task, ledger, *value)?;
        mark_notes(rows, iteration, ledger.notes());
        if met.is_some() {
            return Ok(());
        }
        iteration += 1;
    }
    Ok(())
}

fn single(alloc: Global, value: i64) -> Result<DcList<i64>, NoMemory>
    ensures { IfOk result (λ made. made ≡ combination value) }
{
    let mut made = DcList::new(alloc);
    made.push(value)?;
    Ok(made)
}

fn bad_verdict(alloc: Global, active: &[i64], bad: Bad) -> Result<Verdict, NoMemory>
    ensures { IfOk result (λ said. (z : ℤ) → slice_get active.now bad.iteration ≡ Some z
        → seen said ≡ in_iteration (ended bad.why bad.line []) (combination z)) }
{
    let Some(value) = active.get(bad.iteration as usize) else {
        return Ok(Verdict::GoOn);
    };
    let at = single(alloc, *value)?;
    let line = bad.line;
    match bad.why {
        Why::Fault(why) => Ok(Verdict::IterFault { why, line, at }),
        Why::Spent => Ok(Verdict::IterSpent { line, at }),
    }
}

fn value_of(active: &[i64], iteration: u32) -> Option<i64>
    ensures { result ≡ slice_get active.now iteration }
{
    active.get(iteration as usize).copied()
}

/// The race of the pair that is named, if the second breaks with the first.
fn race_of_pair(
    alloc: Global,
    task: Task<'_>,
    opening: &Ledger,
    active: &[i64],
    named: Named,
) -> Result<Option<Told>, NoMemory>
    ghost parts: { Loop }
    requires { IsTask parts task }
    ensures { IfOk result (λ told. option_map told_of told ≡ between_plain parts
        (opening.now).store (map combination active.now) (named.first, named.second)) }
{
    let Some(first) = value_of(active, named.first) else {
        return Ok(None);
    };
    let Some(second) = value_of(active, named.second) else {
        return Ok(None);
    };
    let Some(race) = replay(alloc, task, opening, named, first, second)? else {
        return Ok(None);
    };
    Ok(Some(Told {
        race,
        first,
        second,
    }))
}

fn race_told(alloc: Global, told: Told) -> Result<Verdict, NoMemory>
    ensures { IfOk result (λ said. seen said ≡ told_of told) }
{
    let first_at = single(alloc, told.first)?;
    let second_at = single(alloc, told.second)?;
    Ok(Verdict::Race {
        race: told.race,
        first_at,
        second_at,
    })
}

/// The race that the marks name, if they name one.
pub(crate) fn race_among(
    alloc: Global,
    task: Task<'_>,
    opening: &Ledger,
    active: &[i64],
    rows: &[Vec<Mark>],
) -> Result<Option<Told>, NoMemory>
    ghost parts: { Loop }
    requires task { IsTask parts task }
    requires fit { FitStore rows.now }
    requires marks { marks_of rows.now ≡ marked_runs 0
        (runs_of parts (opening.now).store active.now) (blank_marks (opening.now).store) }
    ensures { IfOk result (λ told. option_map told_of told ≡ race_among parts (opening.now).store
        (map combination active.now) (runs_of parts (opening.now).store active.now)) }
{
    match first_named(rows) {
        Some(named) => race_of_pair(alloc, task, opening, active, named),
        None => Ok(None),
    }
}

/// Leaves the closing values of the iterations in this order.
pub(crate) fn go_on(
    alloc: Global,
    task: Task<'_>,
    ledger: &mut Ledger,
    active: &[i64],
) -> Result<(), NoMemory>
    ghost parts: { Loop }
    requires task { IsTask parts task }
    requires few { length active.now ≤ 4194304 }
    ensures { OnOk result ((ledger.new).store
        ≡ closed parts (order parts [] (ledger.old).store (map combination active.now))) }
{
    let mut rows = ledger.blank_marks(alloc)?;
    let mut after = ledger.fresh(alloc)?;
    run_in_order(alloc, task, &mut after, active, &mut rows)?;
    after.forget_touched_twice(rows.as_slice());
    *ledger = after;
    Ok(())
}

/// Judges a loop whose iterations, alone, end well, by the marks of what each does.
fn judge_marked(
    alloc: Global,
    task: Task<'_>,
    ledger: &mut Ledger,
    active: &[i64],
    rows: &[Vec<Mark>],
) -> Result<Verdict, NoMemory>
    ghost parts: { Loop }
    requires task { IsTask parts task }
    requires few { length active.now ≤ 4194304 }
    requires fit { FitStore rows.now }
    requires marks { marks_of rows.now ≡ marked_runs 0
        (runs_of parts (ledger.old).store active.now) (blank_marks (ledger.old).store) }
    requires well { bad_of parts (ledger.old).store active.now ≡ None }
    ensures { IfOk result
        (IsJudged parts (ledger.old).store active.now (ledger.new).store) }
{
    match race_among(alloc, task, ledger, active, rows)? {
        Some(told) => {
            let said = race_told(alloc, told)?;
            Ok(said)
        }
        None => {
            go_on(alloc, task, ledger, active)?;
            Ok(Verdict::GoOn)
        }
    }
}

/// Judges a loop with these iterations over the ledger. The elements are left as the loop leaves them
/// where it goes on, and else as they were.
pub(crate) fn judge(
    alloc: Global,
    task: Task<'_>,
    ledger: &mut Ledger,
    active: &[i64],
) -> Result<Verdict, NoMemory>
    ghost parts: { Loop }
    requires task { IsTask parts task }
    requires few { length active.now ≤ 4194304 }
    ensures { IfOk result
        (IsJudged parts (ledger.old).store active.now (ledger.new).store) }
{
    let mut rows = ledger.blank_marks(alloc)?;
    match mark_alone(alloc, task, ledger, active, &mut rows)? {
        Some(bad) => {
            let said = bad_verdict(alloc, active, bad)?;
            Ok(said)
        }
        None => judge_marked(alloc, task, ledger, active, rows.as_slice()),
    }
}
