//! `Failed` and `FileFault`.

ghost use Rattle.std.specs.Prelude.{◌≡◌};
ghost use Rattle.dc_outer.specs.declared.fault.FileFault.TheVariants.{NoMemory as no_memory};

use dc_text::NoMemory;
use thiserror::Error;

/// A device's fault.
#[derive(Clone, Copy, Debug, PartialEq, Eq)]
pub struct Failed;

/// Why a file could not be read: a fault of the device, or want of memory for its bytes.
#[derive(Clone, Copy, Debug, PartialEq, Eq, Error)]
pub enum FileFault {
    #[error("the file could not be read")]
    Failed,
    #[error("no memory for the file")]
    NoMemory,
}

impl From<NoMemory> for FileFault {
    ghost from_gives = { λ _ fault. fault ≡ no_memory };

    fn from(_want: NoMemory) -> FileFault {
        FileFault::NoMemory
    }
}
