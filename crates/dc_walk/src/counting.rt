//! The variable of a counted DO, its values and their number.

ghost use Rattle.std.specs.Prelude.{◌≡◌, ◌<◌, ◌^◌, ◌+ℤ◌, ◌-ℤ◌, pos, int_div, unsigned_abs, option_map, IfOk, IsTrue};
ghost use Rattle.dc_code.specs.declared.frame.Place.{Place};
ghost use Rattle.dc_code.specs.Combinations.{natural, value_count};
ghost use Rattle.dc_code.specs.Troubles.{Slots};
ghost use Rattle.dc_int.specs.Kinds.{wrapped};
ghost use Rattle.dc_int.specs.Sorts.{whole};
ghost use Rattle.dc_plain.specs.Views.{View};
ghost use Rattle.dc_form.specs.BuiltPrograms.{is_whole_scalar};
ghost use Rattle.dc_tree.specs.Entities.{entity};
ghost use Rattle.dc_tree.specs.Statements.{counted_ranging};
ghost use Rattle.dc_tree.specs.Syntax.{tree};
ghost use Rattle.dc_meaning.specs.Acts as acts;
ghost use Rattle.dc_meaning.specs.Execution as execution;
ghost use Rattle.dc_meaning.specs.Walking.{Stays};
ghost use Rattle.dc_meaning.specs.WalkScope.{scope_of, own_of, IsWalk};
ghost use Rattle.dc_walk.specs.Counting.{scalar_entity, scalar_element, span_with, span_at, IsMoving};
ghost use Rattle.dc_walk.specs.Walked.{is_held_or_absent, is_walked_ranging};

use dc_entities::{Found, find};
use dc_int::{ElementId, FaultKind, Kind, wrap_to};
use dc_meaning::{Stop, Walk, fault, read, value};
use dc_plain::Ledger;
use dc_sorts::{Form, fitted};
use dc_tree::{Counted, Expr};
use std::alloc::Global;

/// An INTEGER scalar of the main program: its number among the variables, and its kind.
#[derive(Clone, Copy)]
pub(crate) struct Scalar {
    pub number: u32,
    pub kind: Kind,
}

impl Scalar {
    fn element(self) -> ElementId
        ensures { result ≡ scalar_element self }
    {
        ElementId {
            variable: self.number,
            position: 0,
        }
    }
}

/// The values of the variable of a counted DO: from the first on by the step, none past the last.
#[derive(Clone, Copy)]
pub(crate) struct Steps {
    pub first: i64,
    pub last: i64,
    pub step: i64,
}

/// The variable of a counted DO.
pub(crate) fn scalar_named(walk: &Walk<'_>, name: &[u8]) -> Scalar
    requires walk { IsWalk walk.now }
    requires whole { IsTrue (is_whole_scalar (entity (scope_of walk.now) name.now)) }
    ensures { scalar_entity result ≡ entity (scope_of walk.now) name.now }
{
    match find(&walk.standing, walk.numbering, name) {
        Found::Variable {
            number,
            form: Form::Whole(kind),
            ..
        } => Scalar { number, kind },
        _ => unreachable!(),
    }
}

/// The step; where there is none, it is 1.
fn step_value(
    alloc: Global,
    walk: &Walk<'_>,
    ledger: &mut Ledger,
    line: u32,
    step: &Option<Expr>,
) -> Result<i64, Stop>
    requires walk { IsWalk walk.now }
    requires held { IsTrue (is_held_or_absent (option_map tree step.now)) }
    ensures { Stays (λ z. z) (own_of walk.now) ledger.old
        (λ call. execution.step_value (scope_of walk.now) call line (option_map tree step.now))
        ledger.new result }
{
    match step {
        Some(step) => value(alloc, walk, ledger, line, step),
        None => Ok(1),
    }
}

/// The same values, unless the step is zero.
fn moving(line: u32, steps: Steps) -> Result<Steps, Stop>
    ensures is { (own : Slots) (view : View) → Stays span_with own view
        (λ call. execution.checked_span line (span_with steps)) view result }
    ensures moves { IfOk result IsMoving }
{
    if steps.step == 0 {
        Err(fault(FaultKind::StepZero, line))
    } else {
        Ok(steps)
    }
}

/// These limits and this step, wrapped to a kind.
fn steps_at(kind: Kind, first: i64, last: i64, step: i64) -> Steps
    ensures { span_with result ≡ span_at kind first last step }
{
    let form = Form::Whole(kind);
    Steps {
        first: fitted(form, first),
        last: fitted(form, last),
        step: fitted(form, step),
    }
}

/// The limits and the step of a counted DO, wrapped to the kind of its variable.
pub(crate) fn steps_of(
    alloc: Global,
    walk: &Walk<'_>,
    ledger: &mut Ledger,
    line: u32,
    kind: Kind,
    counted: &Counted,
) -> Result<Steps, Stop>
    requires walk { IsWalk walk.now }
    requires walked { IsTrue (is_walked_ranging (scope_of walk.now) (counted_ranging counted.now)) }
    ensures is { Stays span_with (own_of walk.now) ledger.old
        (λ call. execution.span_of (scope_of walk.now) call line (whole kind)
        (counted_ranging counted.now))
        ledger.new result }
    ensures moves { IfOk result IsMoving }
{
    let first = value(alloc, walk, ledger, line, &counted.first)?;
    let last = value(alloc, walk, ledger, line, &counted.last)?;
    let step = step_value(alloc, walk, ledger, line, &counted.step)?;
    moving(line, steps_at(kind, first, last, step))
}

/// The way from a number to another, and one step more.
fn way(first: i64, last: i64, step: i64) -> i128
    ensures is { result ≡ (last -ℤ first) +ℤ step }
    ensures short { unsigned_abs result < 2 ^ 127 }
{
    i128::from(last) - i128::from(first) + i128::from(step)
}

fn quotient(way: i128, step: i64) -> i128
    requires short { unsigned_abs way < 2 ^ 127 }
    requires some { step ≡ pos 0 → ⊥ }
    ensures { result ≡ int_div way step }
{
    way / i128::from(step)
}

fn natural(number: i128) -> u128
    ensures { result ≡ natural number }
{
    if number < 0 { 0 } else { number as u128 }
}

/// How many values there are.
pub(crate) fn count(steps: Steps) -> u128
    requires { IsMoving steps }
    ensures { result ≡ value_count (span_with steps) }
{
    let way = way(steps.first, steps.last, steps.step);
    natural(quotient(way, steps.step))
}

/// Gives the variable its first value.
pub(crate) fn begin(ledger: &mut Ledger, line: u32, scalar: Scalar, first: i64) -> Result<(), Stop>
    ensures { (own : Slots) → Stays (λ done. done) own ledger.old
        (λ call. acts.store line (Place.Outer (scalar_element scalar)) first) ledger.new result }
{
    ledger.set(scalar.element(), first, line)?;
    Ok(())
}

/// A sum, wrapped to a kind.
fn sum(kind: Kind, a: i64, b: i64) -> i64
    ensures { result ≡ wrapped kind (a +ℤ b) }
{
    wrap_to(kind, i128::from(a) + i128::from(b))
}

/// Gives the variable its next value.
pub(crate) fn step(ledger: &mut Ledger, line: u32, scalar: Scalar, by: i64) -> Result<(), Stop>
    ensures { (own : Slots) → Stays (λ done. done) own ledger.old
        (λ call. execution.stepped line (Place.Outer (scalar_element scalar))
        (whole scalar.kind) by)
        ledger.new result }
{
    let element = scalar.element();
    let value = read(ledger, line, element)?;
    ledger.set(element, sum(scalar.kind, value, by), line)?;
    Ok(())
}
