//! What names are used as in expressions: the rules on names that an expression can break by
//! itself, and the constant expressions whose value can be told.
#![tactic(auto)]

mod constant;
mod evaluating;
mod name;
mod reading;
mod walk;

pub use constant::{Constant, is_kind};
pub use evaluating::{constant_of, note_kind, whole_constant};
pub use name::{misfits, note_array, note_name, note_undeclared};
pub use reading::Reading;
pub use walk::note_uses;
