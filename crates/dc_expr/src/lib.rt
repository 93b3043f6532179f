//! Expressions: from the tokens of one to its tree, or to the rule that they break.
#![tactic(auto)]

mod marks;
mod measured;
mod reader;
mod stack;
mod steps;

pub use reader::{Miss, parse_expr, read_expr};
