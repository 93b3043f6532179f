//! What names stand for while a program is run, the places of elements, and the values of an index.
#![tactic(auto)]

mod found;
mod held;
mod indexes;
mod names;
mod numbering;
mod positions;

pub use found::Found;
pub use held::held_number;
pub use indexes::{are_too_many, values};
pub use names::find;
pub use numbering::Numbering;
pub use positions::{elements, extent, position};
