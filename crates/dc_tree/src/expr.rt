//! Expressions.

use crate::token::{Mark, Suffix};
use dc_text::{DcBox, DcList, DcText};

/// An expression, of ISO/IEC 1539-1:2023 clause 10.1. A character literal is kept here too,
/// though only an output item may be one.
#[cycle(expr)]
#[derive(Drop)]
pub enum Expr {
    Number {
        digits: DcText,
        suffix: Suffix,
    },
    Truth(bool),
    Chars(DcText),
    Name(DcText),
    /// An element of an array, or a call of a function.
    Refer {
        name: DcText,
        args: DcList<Arg>,
    },
    Paren(DcBox<Expr>),
    Unary {
        mark: Mark,
        right: DcBox<Expr>,
    },
    Binary {
        mark: Mark,
        left: DcBox<Expr>,
        right: DcBox<Expr>,
    },
}

/// One argument or subscript. `keyed` says that `kind =` is written.
#[cycle(expr)]
#[derive(Drop)]
pub struct Arg {
    pub keyed: bool,
    pub value: Expr,
}
