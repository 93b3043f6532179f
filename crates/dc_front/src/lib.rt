//! From the bytes of a source to its tree and its declared names, or to the first rule that it
//! breaks.
#![tactic(auto)]

mod law;
mod source;

pub use law::{
    a_refused_text_spells_no_program, a_text_spells_one_program, the_first_refusal_is_one,
};
pub use source::{Accepted, accept};
