//! The source form: from the bytes of a text to its statements, each with the number of its line.
#![tactic(auto)]

mod draft;
mod line;
mod reading;
mod rule;
mod text_lines;

pub use reading::split;
