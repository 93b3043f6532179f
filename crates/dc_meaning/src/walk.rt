//! `Walk`: what the walker knows at a place.

use dc_entities::Numbering;
use dc_sorts::Standing;

/// Where a statement stands: the names that can be used there, how outside variables are numbered, and
/// the values of the indexes of the loop around, in the order of its header.
#[derive(Clone, Copy)]
pub struct Walk<'a> {
    pub standing: Standing<'a>,
    pub numbering: &'a Numbering,
    pub values: &'a [i64],
}
