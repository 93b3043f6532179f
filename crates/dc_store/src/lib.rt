//! The store of a running program, and the trait by which a machine reaches cells.
#![tactic(auto)]

mod cells;
mod store;
mod whole;

pub use cells::Cells;
pub use store::Store;
pub use whole::WholeStore;
