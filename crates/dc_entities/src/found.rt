//! What a name was found to be.

use dc_int::Kind;
use dc_sorts::Form;

/// What a name stands for in the main program or in the block of a loop.
#[derive(Clone, Copy)]
pub enum Found<'a> {
    Index(Kind),
    Variable {
        number: u32,
        form: Form,
        bounds: &'a [(i64, i64)],
    },
    Constant {
        form: Form,
        value: i64,
    },
    Nothing,
}
