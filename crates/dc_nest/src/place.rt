//! Where a statement stands.

use dc_text::{DcText, Stack};

/// A construct whose end hasn't come.
#[derive(Drop)]
pub(crate) enum Construct {
    /// IF, and whether its ELSE has come.
    If(bool),
    /// SELECT CASE, and whether a CASE has come.
    Select(bool),
    /// DO or DO WHILE, with its name.
    Loop(Option<DcText>),
    /// DO CONCURRENT, with its name.
    Concurrent(Option<DcText>),
}

/// What may still come in front of the executable statements of a unit.
#[derive(Clone, Copy)]
pub(crate) enum Front {
    /// USE, and all that follows.
    Uses,
    /// IMPLICIT NONE, and declarations.
    Implicit,
    Declarations,
}

/// How far the statements of a unit are.
#[derive(Drop)]
pub(crate) enum Position {
    Front(Front),
    /// Behind an executable statement, or inside of open constructs, of which the innermost is the first.
    Body(Stack<Construct>),
}

/// The name of a procedure, and whether it is a function.
#[derive(Drop)]
pub(crate) struct Heading {
    pub function: bool,
    pub name: DcText,
}

/// The unit of a statement: the program, or one of its procedures.
#[derive(Drop)]
pub(crate) struct Scope {
    pub program: DcText,
    pub procedure: Option<Heading>,
}

/// Where the statements so far leave the reader of a text.
#[derive(Drop)]
pub(crate) enum Place {
    /// In front of the program line.
    Outset,
    Within(Scope, Position),
    /// Behind CONTAINS and any number of procedures of the program with this name.
    Between(DcText),
    /// Behind the end of the program.
    Ended,
}

/// The loop to which a CYCLE or EXIT belongs, if there is one.
#[derive(Clone, Copy)]
pub(crate) enum Aim {
    Nothing,
    At {
        /// Whether it is a DO CONCURRENT.
        concurrent: bool,
        /// Whether it stands outside of a DO CONCURRENT around the statement.
        crossed: bool,
    },
}
