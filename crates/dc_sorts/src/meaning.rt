//! What names mean where they are used.

use crate::form::Form;
use dc_int::Kind;
use dc_tree::Intent;

/// What a name stands for: an index of a DO CONCURRENT; a variable with its rank, which is 0 of a scalar;
/// the result of the function around; a dummy; a named constant; a procedure, which is a function or a
/// subroutine, with its number from 1 and the form of its result, if that is declared; or nothing that is
/// declared.
#[derive(Clone, Copy, Debug, PartialEq, Eq)]
pub enum Meaning {
    Index(Kind),
    Variable {
        form: Form,
        rank: usize,
    },
    Result(Form),
    Dummy {
        form: Form,
        intent: Intent,
    },
    Constant {
        form: Form,
        value: i64,
    },
    Procedure {
        function: bool,
        number: u32,
        result: Option<Form>,
    },
    Nothing,
}
