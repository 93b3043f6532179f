//! Where the tokens of a statement are cut.

/// What a token is to a cut.
#[derive(Clone, Copy, Debug, PartialEq, Eq)]
pub enum Class {
    Opens,
    Closes,
    Comma,
    Colon,
    Colons,
    Equals,
    Word,
    Other,
}

/// At which tokens outside of brackets a cut is made. A part of a statement that begins with a type goes
/// on at a comma, at `::` or at a word.
#[derive(Clone, Copy, Debug, PartialEq, Eq)]
pub enum Stop {
    Closing,
    Comma,
    Colon,
    Colons,
    Equals,
    Word,
    Part,
}
