//! What forms are, and which are one.

ghost use Rattle.std.specs.Prelude.{◌≡◌};
ghost use Rattle.dc_operands.specs.Arguments.{is_whole, is_logical, same_form};
ghost use Rattle.dc_sorts.specs.declared.form.Form.{Form};

use dc_int::Kind;
use dc_sorts::Form;

pub fn is_whole(form: Form) -> bool
    ensures { result ≡ is_whole form }
{
    matches!(form, Form::Whole(_))
}

pub fn is_logical(form: Form) -> bool
    ensures { result ≡ is_logical form }
{
    !is_whole(form)
}

fn is_of_kind(kind: Kind, form: Form) -> bool
    ensures { result ≡ same_form (Form.Whole kind) form }
{
    match form {
        Form::Whole(other) => kind.bits() == other.bits(),
        Form::Logical => false,
    }
}

pub fn same_form(a: Form, b: Form) -> bool
    ensures { result ≡ same_form a b }
{
    match a {
        Form::Whole(kind) => is_of_kind(kind, b),
        Form::Logical => is_logical(b),
    }
}
