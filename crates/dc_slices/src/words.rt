//! The words of the grammar.

ghost use Rattle.std.specs.Prelude.{◌≡◌};
ghost use Rattle.dc_slices.specs.Words.{letters, keyword_among, keyword, is};

use crate::keyword::Keyword;
use dc_tree::Token;

const KEYWORDS: [Keyword; 50] = [
    Keyword::Program,
    Keyword::Use,
    Keyword::Implicit,
    Keyword::Integer,
    Keyword::Logical,
    Keyword::Contains,
    Keyword::Function,
    Keyword::Subroutine,
    Keyword::Pure,
    Keyword::Recursive,
    Keyword::End,
    Keyword::If,
    Keyword::Then,
    Keyword::Else,
    Keyword::Select,
    Keyword::Case,
    Keyword::Do,
    Keyword::Call,
    Keyword::Cycle,
    Keyword::Exit,
    Keyword::Return,
    Keyword::Continue,
    Keyword::Stop,
    Keyword::Error,
    Keyword::Print,
    Keyword::Write,
    Keyword::Read,
    Keyword::Intrinsic,
    Keyword::Only,
    Keyword::Nothing,
    Keyword::Parameter,
    Keyword::Dimension,
    Keyword::Intent,
    Keyword::Into,
    Keyword::Out,
    Keyword::InOut,
    Keyword::Kind,
    Keyword::Result,
    Keyword::Default,
    Keyword::While,
    Keyword::Concurrent,
    Keyword::Local,
    Keyword::LocalInit,
    Keyword::Shared,
    Keyword::Reduce,
    Keyword::Max,
    Keyword::Min,
    Keyword::Iand,
    Keyword::Ior,
    Keyword::Ieor,
];

fn letters(keyword: Keyword) -> &'static [u8]
    ensures { result.now ≡ letters keyword }
{
    match keyword {
        Keyword::Program => b"program",
        Keyword::Use => b"use",
        Keyword::Implicit => b"implicit",
        Keyword::Integer => b"integer",
        Keyword::Logical => b"logical",
        Keyword::Contains => b"contains",
        Keyword::Function => b"function",
        Keyword::Subroutine => b"subroutine",
        Keyword::Pure => b"pure",
        Keyword::Recursive => b"recursive",
        Keyword::End => b"end",
        Keyword::If => b"if",
        Keyword::Then => b"then",
        Keyword::Else => b"else",
        Keyword::Select => b"select",
        Keyword::Case => b"case",
        Keyword::Do => b"do",
        Keyword::Call => b"call",
        Keyword::Cycle => b"cycle",
        Keyword::Exit => b"exit",
        Keyword::Return => b"return",
        Keyword::Continue => b"continue",
        Keyword::Stop => b"stop",
        Keyword::Error => b"error",
        Keyword::Print => b"print",
        Keyword::Write => b"write",
        Keyword::Read => b"read",
        Keyword::Intrinsic => b"intrinsic",
        Keyword::Only => b"only",
        Keyword::Nothing => b"none",
        Keyword::Parameter => b"parameter",
        Keyword::Dimension => b"dimension",
        Keyword::Intent => b"intent",
        Keyword::Into => b"in",
        Keyword::Out => b"out",
        Keyword::InOut => b"inout",
        Keyword::Kind => b"kind",
        Keyword::Result => b"result",
        Keyword::Default => b"default",
        Keyword::While => b"while",
        Keyword::Concurrent => b"concurrent",
        Keyword::Local => b"local",
        Keyword::LocalInit => b"local_init",
        Keyword::Shared => b"shared",
        Keyword::Reduce => b"reduce",
        Keyword::Max => b"max",
        Keyword::Min => b"min",
        Keyword::Iand => b"iand",
        Keyword::Ior => b"ior",
        Keyword::Ieor => b"ieor",
    }
}

fn among(keywords: &[Keyword], text: &[u8]) -> Option<Keyword>
    ensures { result ≡ keyword_among keywords.now text.now }
{
    for keyword in keywords {
        if text == letters(*keyword) {
            return Some(*keyword);
        }
    }
    None
}

/// The word of the grammar that a text is.
#[tactic(auto, unfolding(crate::specs::Words::keyword))]
pub fn known(text: &[u8]) -> Option<Keyword>
    ensures { result ≡ keyword text.now }
{
    among(&KEYWORDS, text)
}

/// Whether a token is this word.
pub fn is(keyword: Keyword, token: &Token) -> bool
    ensures { result ≡ is keyword token.now }
{
    match token {
        Token::Word(text) => text.as_bytes() == letters(keyword),
        _ => false,
    }
}
