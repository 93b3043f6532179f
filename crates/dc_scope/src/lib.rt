//! The rules on names that statements break.
#![tactic(auto)]

mod case_values;
mod casing;
mod checking;
mod covered;
mod deed;
mod header;
mod holding;
mod index;
mod interval;
mod program;
mod twice;
mod walk;

pub use checking::check_scope;
