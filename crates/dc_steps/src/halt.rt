//! `Halt`, why the work of an instruction doesn't go on.

use dc_int::FaultKind;
use dc_text::NoMemory;

/// A fault of the statement, or want of memory.
#[derive(Clone, Copy, Debug, PartialEq, Eq)]
pub enum Halt {
    Fault(FaultKind),
    NoMemory,
}

impl From<NoMemory> for Halt {
    ghost use Rattle.std.specs.Prelude.{◌≡◌};
    ghost use Rattle.dc_steps.specs.declared.halt.Halt.TheVariants as halts;

    ghost from_gives = { λ _ halt. halt ≡ halts.NoMemory };

    fn from(_wanting: NoMemory) -> Halt {
        Halt::NoMemory
    }
}

/// What is missing, or isn't what the instruction asks for. No well-formed code comes here.
pub(crate) const STUCK: Halt = Halt::Fault(FaultKind::Undefined);
