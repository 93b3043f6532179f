//! What a declared name is.

use dc_text::DcList;

#[derive(Clone, Copy, Debug, PartialEq, Eq)]
pub(crate) enum Nature {
    Dummy(u32),
    Result,
    Constant,
    Variable,
}

/// A declared name with its bounds, and the values that stand there.
#[derive(Drop)]
pub(crate) struct Entry {
    pub(crate) nature: Nature,
    pub(crate) bounds: DcList<(i64, i64)>,
    pub(crate) values: DcList<i64>,
}
