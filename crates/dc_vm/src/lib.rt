//! The machine: it runs a code from a place over cells of any form, up to where the caller has to act.
#![tactic(auto)]

mod calls;
mod control;
mod jumps;
mod next;
mod running;
mod stepping;
mod work;

pub use dc_steps::{Ended, Frame};
pub use running::run;
