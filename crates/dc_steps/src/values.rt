//! Instructions that make values of values.

ghost use Rattle.std.specs.Prelude.{◌≡◌, ℕ};
ghost use Rattle.dc_int.specs.Kinds.{wrapped};
ghost use Rattle.dc_int.specs.Reductions.{conjunction, disjunction, equivalence, non_equivalence};
ghost use Rattle.dc_code.specs.Computation.{give};
ghost use Rattle.dc_code.specs.Frames.{pushed};
ghost use Rattle.dc_code.specs.Instructions.{settled, takes_one, computed, arithmetic, compares};
ghost use Rattle.dc_code.specs.Instructions.{of_one, of_two, merged};
ghost use Rattle.dc_code.specs.Operands.{value_off};
ghost use Rattle.dc_steps.specs.Halting.{Gives, Leaves};
ghost use Rattle.dc_steps.specs.Working.{dropped, value_pushed, truth_compared, truth_turned};

use crate::halt::{Halt, STUCK};
use dc_code::Relation;
use dc_frame::Frame;
use dc_int::{FaultKind, Kind, Op, OpFault, apply, wrap_to};

/// Takes a value off.
pub fn value_off(frame: &mut Frame) -> Result<i64, Halt>
    ensures { (line : ℕ) → Gives line result (λ z. (z, frame.new)) (value_off line frame.old) }
{
    frame.take_value().ok_or(STUCK)
}

/// Pushes a value.
pub fn value_pushed(frame: &mut Frame, value: i64) -> Result<(), Halt>
    ensures { (line : ℕ) → Leaves line result frame.new (value_pushed value frame.old) }
{
    frame.push(value)?;
    Ok(())
}

/// Takes an item off.
pub fn dropped(frame: &mut Frame) -> Result<(), Halt>
    ensures { (line : ℕ) → Leaves line result frame.new (dropped line frame.old) }
{
    match frame.take() {
        Some(_) => Ok(()),
        None => Err(STUCK),
    }
}

fn settled(outcome: Result<i64, OpFault>) -> Result<i64, Halt>
    ensures { (line : ℕ) → Gives line result (λ z. z) (settled line outcome) }
{
    match outcome {
        Ok(value) => Ok(value),
        Err(OpFault::Zero) => Err(Halt::Fault(FaultKind::DivideByZero)),
        Err(OpFault::Shift) => Err(Halt::Fault(FaultKind::ShiftRange)),
    }
}

fn takes_one(op: Op) -> bool
    ensures { result ≡ takes_one op }
{
    matches!(op, Op::Neg | Op::Abs | Op::Not | Op::Popcnt)
}

/// An operation, of one operand or of two.
pub fn arithmetic(frame: &mut Frame, op: Op, kind: Kind) -> Result<(), Halt>
    ensures { (line : ℕ) → Leaves line result frame.new (arithmetic line op kind frame.old) }
{
    let last = value_off(frame)?;
    let value = if takes_one(op) {
        settled(apply(op, kind, last, 0))?
    } else {
        let first = value_off(frame)?;
        settled(apply(op, kind, first, last))?
    };
    value_pushed(frame, value)
}

/// Wraps the value on the top.
pub fn wrapped(frame: &mut Frame, kind: Kind) -> Result<(), Halt>
    ensures { (line : ℕ) → Leaves line result frame.new (of_one line (wrapped kind) frame.old) }
{
    let value = value_off(frame)?;
    value_pushed(frame, wrap_to(kind, i128::from(value)))
}

fn compares(relation: Relation, a: i64, b: i64) -> bool
    ensures { result ≡ compares relation a b }
{
    match relation {
        Relation::Eq => a == b,
        Relation::Ne => a != b,
        Relation::Lt => a < b,
        Relation::Le => a <= b,
        Relation::Gt => a > b,
        Relation::Ge => a >= b,
    }
}

/// Compares two values.
pub fn compared(frame: &mut Frame, relation: Relation) -> Result<(), Halt>
    ensures { (line : ℕ)
        → Leaves line result frame.new (of_two line (truth_compared relation) frame.old) }
{
    let b = value_off(frame)?;
    let a = value_off(frame)?;
    value_pushed(frame, i64::from(compares(relation, a, b)))
}

pub fn conjunction(frame: &mut Frame) -> Result<(), Halt>
    ensures { (line : ℕ) → Leaves line result frame.new (of_two line conjunction frame.old) }
{
    let b = value_off(frame)?;
    let a = value_off(frame)?;
    value_pushed(frame, i64::from(a != 0 && b != 0))
}

pub fn disjunction(frame: &mut Frame) -> Result<(), Halt>
    ensures { (line : ℕ) → Leaves line result frame.new (of_two line disjunction frame.old) }
{
    let b = value_off(frame)?;
    let a = value_off(frame)?;
    value_pushed(frame, i64::from(a != 0 || b != 0))
}

pub fn equivalence(frame: &mut Frame) -> Result<(), Halt>
    ensures { (line : ℕ) → Leaves line result frame.new (of_two line equivalence frame.old) }
{
    let b = value_off(frame)?;
    let a = value_off(frame)?;
    value_pushed(frame, i64::from((a != 0) == (b != 0)))
}

pub fn non_equivalence(frame: &mut Frame) -> Result<(), Halt>
    ensures { (line : ℕ) → Leaves line result frame.new (of_two line non_equivalence frame.old) }
{
    let b = value_off(frame)?;
    let a = value_off(frame)?;
    value_pushed(frame, i64::from((a != 0) != (b != 0)))
}

/// Turns the truth on the top round.
pub fn negated(frame: &mut Frame) -> Result<(), Halt>
    ensures { (line : ℕ) → Leaves line result frame.new (of_one line truth_turned frame.old) }
{
    let value = value_off(frame)?;
    value_pushed(frame, i64::from(value == 0))
}

/// One of two values, by a truth.
pub fn merged(frame: &mut Frame) -> Result<(), Halt>
    ensures { (line : ℕ) → Leaves line result frame.new (merged line frame.old) }
{
    let mask = value_off(frame)?;
    let otherwise = value_off(frame)?;
    let chosen = value_off(frame)?;
    value_pushed(frame, if mask != 0 { chosen } else { otherwise })
}
