//! The header of a loop: its limits.

/// The first and the last value of an index that steps by 1, wrapped to its kind.
#[derive(Clone, Copy, Debug, PartialEq, Eq)]
pub struct Limits {
    pub first: i64,
    pub last: i64,
}
