//! The names of operations and of reductions, and the faults of operations.

/// An operation on integers of one kind. `Neg`, `Abs`, `Not` and `Popcnt` pass over their second operand.
#[derive(Clone, Copy, Debug, PartialEq, Eq)]
pub enum Op {
    Add,
    Sub,
    Mul,
    Neg,
    Abs,
    Div,
    Mod,
    Modulo,
    Pow,
    Min,
    Max,
    Sign,
    Dim,
    Iand,
    Ior,
    Ieor,
    Not,
    Ishft,
    Shiftl,
    Shiftr,
    Shifta,
    Ibset,
    Ibclr,
    Popcnt,
}

/// A zero divisor, or a shift or bit position out of range.
#[derive(Clone, Copy, Debug, PartialEq, Eq)]
pub enum OpFault {
    Zero,
    Shift,
}

/// The operation of a reduction. `And`, `Or`, `Eqv` and `Neqv` are of LOGICAL.
#[derive(Clone, Copy, Debug, PartialEq, Eq)]
pub enum ReduceOp {
    Add,
    Mul,
    And,
    Or,
    Eqv,
    Neqv,
    Max,
    Min,
    Iand,
    Ior,
    Ieor,
}
