//! `Variable` and `Note`: the cells of a variable, and one thing done to a cell.

ghost use Rattle.std.specs.Prelude.{◌≡◌, Some};
ghost use Rattle.dc_int.specs.Entries as entries;
ghost use Rattle.dc_int.specs.Store as stores;
ghost use Rattle.dc_plain.specs.Views.{entry_of};

use dc_int::{Access, Action, ElementId};
use dc_text::DcList;

/// A variable with the states of its elements. `None` is undefined, and a scalar has no bounds.
#[derive(Drop)]
pub(crate) struct Variable {
    pub bounds: DcList<(i64, i64)>,
    pub cells: Vec<Option<i64>>,
}

/// What was done to an element, with the line of the statement.
#[derive(Clone, Copy, Debug, PartialEq, Eq)]
pub enum Note {
    Read {
        element: ElementId,
        line: u32,
    },
    Defined {
        element: ElementId,
        value: i64,
        line: u32,
    },
}

/// Whether these are one element.
pub(crate) fn same_element(first: ElementId, second: ElementId) -> bool
    ensures { result ≡ stores.same_element first second }
{
    first.variable == second.variable && first.position == second.position
}

impl Note {
    /// The access that was noted.
    pub(crate) fn access(self) -> Access
        ensures { entries.access_of (entry_of self) ≡ Some result }
    {
        match self {
            Note::Read { element, line } => Access {
                action: Action::Reads,
                element,
                line,
            },
            Note::Defined { element, line, .. } => Access {
                action: Action::Defines,
                element,
                line,
            },
        }
    }

    /// Whether this defines the element.
    pub(crate) fn is_touch_of(self, element: ElementId) -> bool
        ensures { result ≡ entries.is_touch_of element (entry_of self) }
    {
        match self {
            Note::Read { .. } => false,
            Note::Defined { element: other, .. } => same_element(element, other),
        }
    }

    /// Whether this reads the element.
    pub(crate) fn is_read_of(self, element: ElementId) -> bool
        ensures { result ≡ entries.is_read_of element (entry_of self) }
    {
        match self {
            Note::Read { element: other, .. } => same_element(element, other),
            Note::Defined { .. } => false,
        }
    }
}
