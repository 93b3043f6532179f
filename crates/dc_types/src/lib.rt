//! `check_types`: whether the expressions of a program are of the types that are asked, its numbers
//! in the range of their kinds, its arguments those of what it calls, and only what may be defined
//! is defined.
#![tactic(auto)]

mod actions;
mod blocks;
mod callees;
mod cases;
mod checking;
mod concurrents;
mod expressions;
mod fronts;
mod headers;
mod indexes;
mod inner;
mod naming;
mod statements;
mod targets;

pub use checking::check_types;
