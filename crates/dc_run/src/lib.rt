//! Runs of a main program: how they end, and the line that tells of it.
#![tactic(auto)]

mod ending;
mod law;
mod loops;
mod opening;
mod program;
mod report;
mod running;
mod standing;
mod variables;
mod whole;
mod writing;

pub use ending::{Ending, RunOut};
pub use law::subscripts_lead_back;
pub use whole::{report_line, run};
