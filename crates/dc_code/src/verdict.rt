//! `Verdict`, `Race` and `Party`, by which code answers.

use dc_int::{Action, ElementId, FaultKind, Why};
use dc_text::DcList;

/// One of the two iterations of a race, counted from 0, with what it does to the element and on
/// which line.
#[derive(Clone, Copy, Debug, PartialEq, Eq)]
pub struct Party {
    pub iteration: u32,
    pub action: Action,
    pub line: u32,
}

/// Two iterations that, run in succession, break the restriction of an element's locality, of ISO/IEC
/// 1539-1:2023, clause 11.1.7.5.
#[derive(Clone, Copy, Debug, PartialEq, Eq)]
pub struct Race {
    pub element: ElementId,
    pub first: Party,
    pub second: Party,
}

/// What is said of a loop: it goes on, or what is wrong with it. `at` and `mask` are the values of the
/// indexes, in the order of the header.
#[derive(Drop)]
pub enum Verdict {
    GoOn,
    HeaderFault {
        why: Why,
        line: u32,
        mask: Option<DcList<i64>>,
    },
    IterFault {
        why: FaultKind,
        line: u32,
        at: DcList<i64>,
    },
    IterSpent {
        line: u32,
        at: DcList<i64>,
    },
    Race {
        race: Race,
        first_at: DcList<i64>,
        second_at: DcList<i64>,
    },
}
