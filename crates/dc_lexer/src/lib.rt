//! The tokens of a statement, or the least of the rules 8 to 10 that it breaks.
#![tactic(auto)]

mod bytes;
mod found;
mod law;
mod lexemes;
mod limits;
mod literals;
mod marks;
mod numbers;
mod statement;
mod words;

pub use law::{
    a_text_has_one_list_of_lexemes, a_text_has_tokens_or_breaks_a_rule,
    a_text_with_tokens_breaks_no_rule, an_open_literal_breaks_rule_8,
};
pub use statement::tokens;
