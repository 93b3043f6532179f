//! What is found at the front of a text, and in all of it so far.

use dc_text::DcList;
use dc_tree::{Suffix, Token};

/// A lexeme at the front of a text, and how many bytes it takes there.
#[derive(Drop)]
pub(crate) struct Scanned {
    pub(crate) length: usize,
    pub(crate) lexeme: Token,
}

/// What follows the digits of a number, and how many bytes it takes.
#[derive(Drop)]
pub(crate) struct Suffixed {
    pub(crate) length: usize,
    pub(crate) suffix: Suffix,
}

/// The tokens of some lexemes, and whether one of these passes a limit.
#[derive(Drop)]
pub(crate) struct Reading {
    pub(crate) tokens: DcList<Token>,
    pub(crate) has_long: bool,
    pub(crate) has_large: bool,
}
