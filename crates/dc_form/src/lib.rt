//! The programs that are run today: whether the tree of a source is one, and its declared names.
#![tactic(auto)]

mod capping;
mod loops;
mod names;
mod program;
mod statements;
mod symbols;
mod values;

pub use program::is_built;
