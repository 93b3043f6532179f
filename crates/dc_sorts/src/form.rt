//! Sorts: the INTEGERs of a kind, and LOGICAL.

ghost use Rattle.std.specs.Prelude.{◌≡◌};
ghost use Rattle.dc_int.specs.Sorts.{kind_of, fitted};
ghost use Rattle.dc_tree.specs.Typing as typing;
ghost use Rattle.dc_sorts.specs.Forms.{form_with, sort_of_form};

use dc_int::{Kind, wrap_to};

/// What the values of a variable or an expression are. There is one kind of LOGICAL.
#[derive(Clone, Copy, Debug, PartialEq, Eq)]
pub enum Form {
    Whole(Kind),
    Logical,
}

impl Form {
    /// The form of a declared type. A LOGICAL passes over its kind.
    pub fn new(logical: bool, kind: Kind) -> Form
        ensures { result ≡ form_with logical kind }
    {
        if logical {
            Form::Logical
        } else {
            Form::Whole(kind)
        }
    }
}

/// The kind at which the operations on values of a form go; it is 4 for LOGICAL.
pub fn kind_of(form: Form) -> Kind
    ensures { result ≡ kind_of (sort_of_form form) }
{
    match form {
        Form::Whole(kind) => kind,
        Form::Logical => Kind::K4,
    }
}

/// A value as a variable of a form takes it: a number is wrapped to the kind, and a truth is 0 or 1.
pub fn fitted(form: Form, value: i64) -> i64
    ensures { result ≡ fitted (sort_of_form form) value }
{
    match form {
        Form::Whole(kind) => wrap_to(kind, i128::from(value)),
        Form::Logical => i64::from(value != 0),
    }
}

fn wider(a: Kind, b: Kind) -> Kind
    ensures { result ≡ typing.wider a b }
{
    if a.bits() < b.bits() { b } else { a }
}

/// The form to which two operands are brought.
pub fn joined_form(a: Form, b: Form) -> Form
    ensures { sort_of_form result ≡ typing.joined (sort_of_form a) (sort_of_form b) }
{
    match a {
        Form::Whole(first) => match b {
            Form::Whole(second) => Form::Whole(wider(first, second)),
            Form::Logical => Form::Logical,
        },
        Form::Logical => Form::Logical,
    }
}
