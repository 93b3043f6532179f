//! What the judge is given of a loop.

use dc_entities::Numbering;
use dc_sorts::Standing;
use dc_tree::Block;

/// A loop to be judged: the names that its block can use, its index among them, how outside
/// variables are numbered, its block, and the turns of each iteration.
#[derive(Clone, Copy)]
pub(crate) struct Task<'a> {
    pub standing: Standing<'a>,
    pub numbering: &'a Numbering,
    pub body: &'a Block,
    pub turns: u64,
}
