//! How often a counted DO goes round.

ghost use Rattle.std.specs.Prelude.{◌≡◌, ℕ, ◌+◌, ◌/◌, ◌<◌, ◌<ℤ◌, min, pos};
ghost use Rattle.dc_code.specs.Computation.{give};
ghost use Rattle.dc_code.specs.Instructions.{greatest_rounds, rounds_of, counted};
ghost use Rattle.dc_steps.specs.Halting.{Gives, Leaves};
ghost use Rattle.dc_steps.specs.Spans.{span_of, limits_off};

use crate::halt::Halt;
use crate::values::{value_off, value_pushed};
use dc_frame::Frame;
use dc_int::FaultKind;

/// The greatest number of turns.
const GREATEST: u64 = 1_000_000_000;

/// The limits and the step of a counted DO.
#[derive(Clone, Copy)]
struct Limits {
    first: i64,
    last: i64,
    step: i64,
}

/// How many steps there are to numbers no further than so far, and one more.
fn rounds_within(distance: u64, step: u64) -> i64
    requires { 0 < step }
    ensures { result ≡ pos (min (distance / step + 1) greatest_rounds) }
{
    ((distance / step).min(GREATEST) + 1) as i64
}

/// The rounds by a step forward.
#[tactic(auto, using(crate::proofs::Counts::counts))]
fn rounds_forward(limits: Limits) -> i64
    requires { pos 0 <ℤ limits.step }
    ensures { (line : ℕ) → rounds_of line (span_of limits) ≡ give result }
{
    if limits.last < limits.first {
        return 0;
    }
    rounds_within(
        limits.last.abs_diff(limits.first),
        limits.step.unsigned_abs(),
    )
}

/// The rounds by a step back.
#[tactic(auto, using(crate::proofs::Counts::counts))]
fn rounds_back(limits: Limits) -> i64
    requires { limits.step <ℤ pos 0 }
    ensures { (line : ℕ) → rounds_of line (span_of limits) ≡ give result }
{
    if limits.first < limits.last {
        return 0;
    }
    rounds_within(
        limits.first.abs_diff(limits.last),
        limits.step.unsigned_abs(),
    )
}

/// How often a counted DO goes round, as far as turns can tell.
#[tactic(auto, using(crate::proofs::Counts::counts))]
fn rounds_of(limits: Limits) -> Result<i64, Halt>
    ensures { (line : ℕ) → Gives line result (λ z. z) (rounds_of line (span_of limits)) }
{
    if limits.step > 0 {
        Ok(rounds_forward(limits))
    } else if limits.step < 0 {
        Ok(rounds_back(limits))
    } else {
        Err(Halt::Fault(FaultKind::StepZero))
    }
}

/// Takes the step, the last and the first limit off.
fn limits_off(frame: &mut Frame) -> Result<Limits, Halt>
    ensures { (line : ℕ) → Gives line result (λ limits. (span_of limits, frame.new))
        (limits_off line frame.old) }
{
    let step = value_off(frame)?;
    let last = value_off(frame)?;
    let first = value_off(frame)?;
    Ok(Limits { first, last, step })
}

/// The rounds of a counted DO.
pub fn counted(frame: &mut Frame) -> Result<(), Halt>
    ensures { (line : ℕ) → Leaves line result frame.new (counted line frame.old) }
{
    let limits = limits_off(frame)?;
    match rounds_of(limits) {
        Ok(rounds) => value_pushed(frame, rounds),
        Err(halt) => Err(halt),
    }
}
