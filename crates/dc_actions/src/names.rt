//! `Names`: what the names of a statement stand for.

use dc_entities::Numbering;
use dc_sorts::Standing;

/// The names that can be used at a place, and how outside variables are numbered.
#[derive(Clone, Copy)]
pub struct Names<'a> {
    pub standing: Standing<'a>,
    pub numbering: &'a Numbering,
}
