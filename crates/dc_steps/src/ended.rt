//! `Ended`, where a run stops, and `Next`, where an instruction goes on.

use dc_int::FaultKind;

/// Where a run stops: at the end of its part, at an instruction that the caller has to carry out, by a fault,
/// with no turn left, or for want of memory.
#[derive(Clone, Copy, Debug, PartialEq, Eq)]
pub enum Ended {
    Done { turns: u64 },
    Paused { at: u32, turns: u64 },
    Fault { why: FaultKind, line: u32 },
    Spent { line: u32 },
    NoMemory,
}

/// What comes behind an instruction.
#[derive(Clone, Copy, Debug, PartialEq, Eq)]
pub enum Next {
    On { at: usize, turns: u64 },
    Over(Ended),
}
