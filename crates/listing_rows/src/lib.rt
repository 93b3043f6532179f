//! The listing of a small code.
#![tactic(auto)]

#[cfg(test)]
mod looping;
