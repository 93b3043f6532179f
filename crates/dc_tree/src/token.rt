//! Tokens and marks.

use dc_text::DcText;

/// A token of a statement.
#[derive(Debug, Drop)]
pub enum Token {
    Word(DcText),
    Number { digits: DcText, suffix: Suffix },
    Chars(DcText),
    Mark(Mark),
}

/// The kind that follows a number after `_`: digits, or a name.
#[derive(Debug, Drop)]
pub enum Suffix {
    Absent,
    Digits(DcText),
    Named(DcText),
}

/// A mark, relation, logical operator or truth. A relation has one mark for both of its spellings.
#[derive(Clone, Copy, Debug, PartialEq, Eq)]
pub enum Mark {
    Open,
    Close,
    OpenList,
    CloseList,
    Comma,
    Colon,
    Colons,
    Equals,
    Plus,
    Minus,
    Times,
    Slash,
    Power,
    Eq,
    Ne,
    Lt,
    Le,
    Gt,
    Ge,
    Not,
    And,
    Or,
    Eqv,
    Neqv,
    True,
    False,
}
