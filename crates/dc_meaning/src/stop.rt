//! `Stop`: how a statement doesn't go on.

ghost use Rattle.std.specs.Prelude.{◌≡◌};
ghost use Rattle.dc_meaning.specs.declared.stop.Stop.{Stop};

use dc_int::Why;
use dc_text::NoMemory;

/// Why a statement or an expression isn't carried out: it ends badly, by a fault or with no turn
/// left at the line of its statement, or memory was wanting.
#[derive(Clone, Copy, Debug, PartialEq, Eq)]
pub enum Stop {
    Failed { why: Why, line: u32 },
    NoMemory,
}

impl From<NoMemory> for Stop {
    ghost from_gives = { λ _ e. e ≡ Stop.NoMemory };

    fn from(_error: NoMemory) -> Stop {
        Stop::NoMemory
    }
}
