//! The first lines of units.

ghost use Rattle.std.specs.Prelude.{◌≡◌};
ghost use Rattle.dc_declare.specs.Headings.{bare_heading};

use crate::names::Names;
use dc_text::DcText;
use std::alloc::Global;

/// What the first line of a unit says of the names declared in it: its dummies, and the name of a
/// function's result. A main program has no dummies.
#[derive(Drop)]
pub(crate) struct Heading {
    pub(crate) unit: u32,
    pub(crate) dummies: Names,
    pub(crate) result: Option<DcText>,
}

impl Heading {
    /// That of a unit without dummies and result. It takes no memory.
    pub(crate) fn bare(alloc: Global, unit: u32) -> Heading
        ensures { result ≡ bare_heading unit }
    {
        Heading {
            unit,
            dummies: Names::new(alloc),
            result: None,
        }
    }
}
