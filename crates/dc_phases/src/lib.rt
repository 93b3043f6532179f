//! The phases of the front: from the bytes of a source to its program, or to the first rule that it
//! breaks.
#![tactic(auto)]

mod gathering;
mod law;
mod phases;
mod statements;
mod tokened;

pub use law::{
    a_text_spells_one_program, a_text_that_spells_is_not_refused, the_first_refusal_is_one,
};
pub use phases::read_program;
