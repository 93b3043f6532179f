//! What is declared so far.

use dc_tree::Symbols;

/// The symbols so far, and how many elements the variables of the unit have.
#[derive(Drop)]
pub(crate) struct Scan {
    pub(crate) symbols: Symbols,
    pub(crate) elements: u32,
}
