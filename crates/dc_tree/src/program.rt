//! Blocks, procedures and programs.

use crate::stmt::Stmt;
use dc_text::DcList;

/// A statement with the line on which it begins, counted from 1.
#[derive(Drop)]
pub struct Lined {
    pub line: u32,
    pub stmt: Stmt,
}

/// Statements in their order, those between an opening and its closing being one node.
#[cycle(block)]
#[derive(Drop)]
pub struct Block {
    pub nodes: DcList<Node>,
}

#[cycle(block)]
#[derive(Drop)]
pub enum Node {
    Plain(Lined),
    /// Its arms begin with IF, ELSE IF and ELSE.
    If {
        arms: DcList<Part>,
        close: Lined,
    },
    /// Its arms begin with CASE.
    Select {
        head: Lined,
        arms: DcList<Part>,
        close: Lined,
    },
    Loop {
        head: Lined,
        body: Block,
        close: Lined,
    },
}

/// One arm of an IF or SELECT CASE construct.
#[cycle(block)]
#[derive(Drop)]
pub struct Part {
    pub head: Lined,
    pub body: Block,
}

/// A function or subroutine after CONTAINS.
#[derive(Drop)]
pub struct Procedure {
    pub head: Lined,
    pub front: DcList<Lined>,
    pub body: Block,
    pub close: Lined,
}

/// A main program. `front` has its declarations, and `contains` the line of CONTAINS.
#[derive(Drop)]
pub struct Program {
    pub head: Lined,
    pub front: DcList<Lined>,
    pub body: Block,
    pub contains: Option<u32>,
    pub procedures: DcList<Procedure>,
    pub close: Lined,
}
