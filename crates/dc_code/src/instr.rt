//! The instructions of the machine, `Instr` and `What`.

use dc_int::{Kind, Op, ReduceOp};

/// How two values are compared.
#[derive(Clone, Copy, Debug, PartialEq, Eq)]
pub enum Relation {
    Eq,
    Ne,
    Lt,
    Le,
    Gt,
    Ge,
}

/// What is made of all elements of an array: SUM, COUNT, ANY and ALL.
#[derive(Clone, Copy, Debug, PartialEq, Eq)]
pub enum Folding {
    Sum,
    Count,
    Any,
    All,
}

/// What an instruction does. `v` is an outside variable by its number, `s` a group of slots of the innermost
/// frame, `d` a dummy, `t` a place in the code, `x` the number of a text, `p` a procedure from 1, `c` a loop,
/// `k` the kind of a number, and `n` the value or the number of items. Numbers count from 0 but for `p`.
#[derive(Clone, Copy, Debug, PartialEq, Eq)]
pub enum What {
    Const { k: Kind, n: i64 },
    Truth { n: bool },
    Drop,
    Arith { op: Op, k: Kind },
    Wrap { k: Kind },
    Compare { r: Relation },
    And,
    Or,
    Eqv,
    Neqv,
    Not,
    Merge,
    Subscript { v: u32 },
    SubscriptSlot { s: u32 },
    Load { v: u32 },
    LoadSlot { s: u32 },
    Store { v: u32 },
    StoreSlot { s: u32 },
    Forget { v: u32 },
    ForgetSlot { s: u32 },
    PlaceOf { v: u32 },
    PlaceOfSlot { s: u32 },
    PlaceOfDummy { d: u32 },
    LoadDummy { d: u32 },
    StoreDummy { d: u32 },
    Fill { v: u32 },
    FillSlot { s: u32 },
    Fold { f: Folding, v: u32 },
    FoldSlot { f: Folding, s: u32 },
    Contribute { op: ReduceOp, v: u32 },
    Jump { t: u32 },
    JumpFalse { t: u32 },
    Turn,
    Back { t: u32 },
    Count { k: Kind },
    Call { p: u32, n: u32 },
    Return,
    LoadResult,
    PutNumber,
    PutTruth,
    PutChars { x: u32 },
    PutAll { v: u32 },
    PutEnd,
    TakeNumber { k: Kind },
    TakeTruth,
    TakeAll { v: u32 },
    TakeEnd { n: u32 },
    Enter { c: u32 },
    End,
    Stop,
    ErrorStop,
}

/// An instruction with the line of the statement that it is of.
#[derive(Clone, Copy, Debug, PartialEq, Eq)]
pub struct Instr {
    pub line: u32,
    pub what: What,
}
