//! The parts of a statement, and actions, each from the slice of tokens that it is.
#![tactic(auto)]

mod actions;
mod attributes;
mod bounds;
mod cases;
mod entities;
mod localities;
mod ranges;
mod targets;
mod types;

pub use actions::action;
pub use attributes::AttributePart;
pub use cases::CasePart;
pub use entities::{BarePart, EntityPart};
pub use localities::LocalityPart;
pub use ranges::{IndexPart, counted, step_of};
pub use types::{index_type, type_form};
