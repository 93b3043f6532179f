//! The ledger of a program's cells, and what the plain judge asks of it: marks of which iterations
//! touch and read an element, the race of two iterations, and the listing of what was done.
#![tactic(auto)]

mod back;
mod beginning;
mod closing;
mod ledger;
mod listing;
mod marks;
mod note;
mod opening;
mod race;
mod size;

pub use ledger::Ledger;
pub use marks::{Ends, Mark, Named, first_named, mark_notes};
pub use note::Note;
pub use race::race_by;
