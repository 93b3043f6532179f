//! The top call: from the words of a command line to the report of a source's run.
#![tactic(auto)]

mod command;
mod number;
mod report;
mod request;
pub mod statuses;
mod sure;
mod top;
mod writing;

pub use sure::run_sure;
pub use top::docon;
