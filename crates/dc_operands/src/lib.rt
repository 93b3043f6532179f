//! What operands and arguments are: the rules on types that an expression can break by itself.
#![tactic(auto)]

mod argument;
mod fitting;
mod forms;
mod numbers;
mod operands;
mod operating;
mod references;
mod taking;

pub use argument::Argument;
pub use forms::{is_logical, is_whole, same_form};
pub use numbers::{note_all_numbers, note_numbers};
pub use operands::{note_arguments, note_operands};
pub use references::{dummies_of, note_call, note_subscripts};
