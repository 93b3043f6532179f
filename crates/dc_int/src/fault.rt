//! `FaultKind` and `Why`.

/// What ends a run in the midst of a statement.
#[derive(Clone, Copy, Debug, PartialEq, Eq)]
pub enum FaultKind {
    Undefined,
    Subscript,
    DivideByZero,
    ShiftRange,
    StepZero,
    TooManyIterations,
    TooDeep,
    OutputFull,
    EndOfInput,
    BadInput,
    ErrorStop,
}

/// Why a run or an iteration ends badly: by a fault, or with no turn left.
#[derive(Clone, Copy, Debug, PartialEq, Eq)]
pub enum Why {
    Fault(FaultKind),
    Spent,
}
