//! Nesting: from the statements of a text, each with its line, to the tree of its program.
#![tactic(auto)]

mod allowing;
mod breaking;
mod building;
mod form;
mod judging;
mod law;
mod moving;
mod nesting;
mod place;
mod rule;

pub use law::{a_list_nests_to_one_program, an_unbroken_list_nests, the_first_refusal_is_one};
pub use nesting::nest;
