//! List-directed output and input: what values write on a line, and what is taken from an input.
#![tactic(auto)]

mod bytes;
mod law;
mod line;
mod reading;
mod runs;
mod values;

pub use law::{a_written_line_is_read_back, a_written_value_is_read_back};
pub use line::{put_text, put_value};
pub use reading::{take_end, take_number, take_truth};
