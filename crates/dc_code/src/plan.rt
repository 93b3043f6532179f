//! What frames have, and what there is of a loop: the further lists of a code.

use dc_int::{Kind, Locality};
use dc_text::DcList;

/// A scalar or an array of slots. A scalar has no bounds; a truth is 0 or 1 and has kind `K4`.
#[derive(Drop)]
pub struct Group {
    pub kind: Kind,
    pub logical: bool,
    pub bounds: DcList<(i64, i64)>,
}

/// How a dummy is associated: INTENT(IN) with a value, INTENT(INOUT) with a place, and INTENT(OUT) with a
/// place that becomes undefined at the call.
#[derive(Clone, Copy, Debug, PartialEq, Eq)]
pub enum Passing {
    Value,
    Place,
    OutPlace,
}

/// A dummy of a procedure, which is a scalar.
#[derive(Clone, Copy, Debug, PartialEq, Eq)]
pub struct DummyPlan {
    pub kind: Kind,
    pub logical: bool,
    pub passing: Passing,
}

/// What a frame has: its dummies, and its slots, group after group. The result of a function is the first
/// group.
#[derive(Drop)]
pub struct Plan {
    pub dummies: DcList<DummyPlan>,
    pub groups: DcList<Group>,
}

/// A loop: the line of its header, its indexes with their kinds, where its header, its mask and its body
/// begin in the code, and the locality of each outside variable in declared order.
#[derive(Drop)]
pub struct ConstructCode {
    pub line: u32,
    pub width: u32,
    pub kinds: DcList<Kind>,
    pub header: u32,
    pub mask: Option<u32>,
    pub body: u32,
    pub localities: DcList<Locality>,
}
