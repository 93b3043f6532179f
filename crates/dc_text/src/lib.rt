//! Texts, lists, stacks and boxes that contracts see as what they hold.
//!
//! Every growth can be refused for want of memory, and then leaves the value as it was.
#![tactic(auto)]

mod boxed;
mod list;
mod memory;
mod stack;
mod text;

pub use boxed::DcBox;
pub use list::DcList;
pub use memory::NoMemory;
pub use stack::Stack;
pub use text::DcText;
