//! A loop of a program: its header and its block.

use dc_tree::{Block, Lined};

/// A loop: its head, and the block of its iterations.
#[derive(Clone, Copy)]
pub(crate) struct Looped<'a> {
    pub head: &'a Lined,
    pub body: &'a Block,
}
