//! Statements: from the tokens of one to its tree, or to the rule that they break.
#![tactic(auto)]

mod declarations;
mod headers;
mod headings;
mod laws;
mod lines;
mod loops;
mod procedures;
mod statements;
mod uses;

pub use laws::{the_reading_is_exact, tokens_spell_one_statement};
pub use statements::parse_stmt;
