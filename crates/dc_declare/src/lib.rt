//! Declarations: the declared names of a program, and the rules that declarations break.
#![tactic(auto)]

mod bounds;
mod entity;
mod entry;
mod front;
mod given;
mod heading;
mod law;
mod names;
mod nature;
mod procedure;
mod program;
mod scan;
mod table;
mod totals;
mod types;
mod used;
mod values;

pub use law::declared_names_are_sound_and_apart;
pub use program::declare;
pub use totals::sizes_can_be_capped_early;
