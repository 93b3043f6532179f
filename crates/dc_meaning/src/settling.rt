//! How faults end a statement.

ghost use Rattle.std.specs.Prelude.{◌≡◌};
ghost use Rattle.dc_int.specs.declared.fault.Why.{Why};
ghost use Rattle.dc_code.specs.Troubles.{Slots};
ghost use Rattle.dc_plain.specs.Views.{View};
ghost use Rattle.dc_meaning.specs.declared.stop.Stop.{Stop};
ghost use Rattle.dc_meaning.specs.Acts as acts;
ghost use Rattle.dc_meaning.specs.Values as values;
ghost use Rattle.dc_meaning.specs.Walking.{Stays};

use crate::stop::Stop;
use dc_int::{FaultKind, OpFault, Why};

/// The end by a fault at a line.
pub fn fault(kind: FaultKind, line: u32) -> Stop
    ensures { result ≡ Stop.Failed (Why.Fault kind) line }
{
    Stop::Failed {
        why: Why::Fault(kind),
        line,
    }
}

/// What an operation gives, at the line of its statement.
pub(crate) fn settled(line: u32, outcome: Result<i64, OpFault>) -> Result<i64, Stop>
    ensures { (own : Slots) (view : View)
        → Stays (λ z. z) own view (λ call. values.settled line outcome) view result }
{
    match outcome {
        Ok(value) => Ok(value),
        Err(OpFault::Zero) => Err(fault(FaultKind::DivideByZero, line)),
        Err(OpFault::Shift) => Err(fault(FaultKind::ShiftRange, line)),
    }
}

/// A number that has to be there.
pub(crate) fn required(line: u32, state: Option<i64>) -> Result<i64, Stop>
    ensures { (own : Slots) (view : View)
        → Stays (λ z. z) own view (λ call. acts.required line state) view result }
{
    match state {
        Some(value) => Ok(value),
        None => Err(fault(FaultKind::Undefined, line)),
    }
}
