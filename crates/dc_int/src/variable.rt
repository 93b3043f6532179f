//! `Shape` and `Locality`.

use crate::kind::Kind;
use crate::operation::ReduceOp;

/// What the elements of a variable hold, and how many there are. A LOGICAL is 0 or 1 and has kind `K4`.
#[derive(Clone, Copy, Debug, PartialEq, Eq)]
pub struct Shape {
    pub kind: Kind,
    pub logical: bool,
    pub elements: u32,
}

/// The locality of a variable in a DO CONCURRENT. `Plain` is unspecified locality.
#[derive(Clone, Copy, Debug, PartialEq, Eq)]
pub enum Locality {
    Plain,
    Shared,
    Local,
    LocalInit,
    Reduce(ReduceOp),
}
