//! What stands on the machine's stack, and what dummies are associated with.

use dc_int::ElementId;

/// A place that can be defined: an element of an outside variable, or a slot, by the frame counted from the
/// outermost from 0, its group and the position in that.
#[derive(Clone, Copy, Debug, PartialEq, Eq)]
pub enum Place {
    Outer(ElementId),
    InFrame {
        level: u32,
        group: u32,
        position: u32,
    },
}

/// What a dummy is associated with.
#[derive(Clone, Copy, Debug, PartialEq, Eq)]
pub enum Passed {
    ByValue(i64),
    AtPlace(Place),
}

/// An item of the machine's stack: a number or a truth, the position of an element or slot, or a place.
#[derive(Clone, Copy, Debug, PartialEq, Eq)]
pub enum Item {
    Value(i64),
    Position(u32),
    Place(Place),
}
