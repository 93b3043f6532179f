//! What the CASE statements of a construct name so far.

ghost use Rattle.std.specs.Prelude.{◌≡◌, ◌∷◌, [], ◌++◌, List, OnOk};
ghost use Rattle.std.specs.List.{list_any};
ghost use Rattle.dc_scope.specs.declared.interval.Interval.{Interval};
ghost use Rattle.dc_scope.specs.Cases as cases;
ghost use Rattle.dc_scope.specs.Covers as covers;
ghost use Rattle.dc_scope.specs.Covers.{Covers, Keeps};

use crate::covered::Covered;
use crate::interval::Interval;
use dc_text::NoMemory;
use std::alloc::Global;

/// The values that ranges name, of each sort.
#[derive(Drop)]
pub(crate) struct CaseValues {
    pub numbers: Covered,
    pub truths: Covered,
}

/// What the CASE statements of a construct name so far.
#[derive(Drop)]
pub(crate) struct CasesSoFar {
    pub values: CaseValues,
    pub has_default: bool,
}

fn of_sort(values: &CaseValues, logical: bool) -> &Covered
    ensures { result.now ≡ covers.of_sort values.now logical }
{
    if logical {
        &values.truths
    } else {
        &values.numbers
    }
}

fn meets(values: &CaseValues, next: Interval) -> bool
    ensures { (before : List Interval) → Covers values.now before
        → result ≡ list_any (cases.meet next) before }
{
    next.low <= next.high && of_sort(values, next.logical).meets((next.high, next.low))
}

/// Whether the values of a range are among those of earlier ones.
pub(crate) fn meets_any(values: &CaseValues, next: Option<Interval>) -> bool
    ensures { (before : List Interval) → Covers values.now before
        → result ≡ cases.meets_any before next }
{
    match next {
        Some(next) => meets(values, next),
        None => false,
    }
}

fn add_interval(values: &mut CaseValues, next: Interval) -> Result<(), NoMemory>
    ensures { OnOk result ((before : List Interval) → Covers values.old before
        → Covers values.new (before ++ next ∷ [])) }
{
    if next.low > next.high {
        return Ok(());
    }
    let range = (next.high, next.low);
    if next.logical {
        values.truths.add(range)
    } else {
        values.numbers.add(range)
    }
}

/// Adds the values of a range to those of earlier ones.
pub(crate) fn add(values: &mut CaseValues, next: Option<Interval>) -> Result<(), NoMemory>
    ensures { OnOk result ((before : List Interval) → Covers values.old before
        → Covers values.new (cases.with_interval before next)) }
{
    match next {
        Some(next) => add_interval(values, next),
        None => Ok(()),
    }
}

/// No CASE stands there yet.
pub(crate) fn no_cases(alloc: Global) -> CasesSoFar
    ensures { Keeps result cases.no_cases }
{
    CasesSoFar {
        values: CaseValues {
            numbers: Covered::none(alloc),
            truths: Covered::none(alloc),
        },
        has_default: false,
    }
}
