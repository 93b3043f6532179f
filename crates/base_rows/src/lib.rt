//! Calls of the lowest crates that succeed with ample memory, and operations at their edges, as tables.
#![tactic(auto)]

#[cfg(test)]
mod kinds;
#[cfg(test)]
mod operations;
#[cfg(test)]
mod outside;
