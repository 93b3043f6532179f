//! `ElementId`, `Access`, `Contribution`, `Touch`.

/// An element of a variable of the main program. A scalar has the one element 0.
#[derive(Clone, Copy, Debug, PartialEq, Eq)]
pub struct ElementId {
    pub variable: u32,
    pub position: u32,
}

#[derive(Clone, Copy, Debug, PartialEq, Eq)]
pub enum Action {
    Reads,
    Defines,
    Undefines,
}

/// What a statement did to an element. The line is the statement's.
#[derive(Clone, Copy, Debug, PartialEq, Eq)]
pub struct Access {
    pub action: Action,
    pub element: ElementId,
    pub line: u32,
}

/// What an iteration puts to a REDUCE element.
#[derive(Clone, Copy, Debug, PartialEq, Eq)]
pub struct Contribution {
    pub element: ElementId,
    pub value: i64,
}

/// The state in which an iteration leaves an element that it touched. `None` is undefined.
#[derive(Clone, Copy, Debug, PartialEq, Eq)]
pub struct Touch {
    pub element: ElementId,
    pub value: Option<i64>,
}
