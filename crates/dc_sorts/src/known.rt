//! What is known of expressions.

ghost use Rattle.std.specs.Prelude.{◌≡◌, option_and_then, if◌then◌else◌};
ghost use Rattle.dc_int.specs.Operations.{applied};
ghost use Rattle.dc_int.specs.Sorts.{logical, kind_of};
ghost use Rattle.dc_tree.specs.Operating as operating;
ghost use Rattle.dc_tree.specs.Syntax as syntax;
ghost use Rattle.dc_tree.specs.Typing as typing;
ghost use Rattle.dc_tree.specs.Typing.{value_of};
ghost use Rattle.dc_sorts.specs.Forms.{form_of_sort, sort_of_form};
ghost use Rattle.dc_sorts.specs.Knowing as knowing;
ghost use Rattle.dc_sorts.specs.Standing.{standing_of, scope_at};

use crate::form::{Form, joined_form};
use crate::operating::{join_values, lead_value, operate};
use crate::standing::Standing;
use dc_int::{Op, OpFault};
use dc_tree::Mark;

/// The form of an expression, whether it is a constant expression, and its value. There is none where it is no
/// constant expression, a number is out of its kind, or the evaluation meets a fault. A truth is 1 or 0.
#[derive(Clone, Copy, Debug, PartialEq, Eq)]
pub struct Known {
    pub form: Form,
    pub constant: bool,
    pub value: Option<i64>,
}

/// What is known of a truth.
pub fn known_truth(_standing: &Standing, value: bool) -> Known
    ensures { result
        ≡ knowing.known_of (scope_at (standing_of _standing.now)) (syntax.truth value) }
{
    Known {
        form: Form::Logical,
        constant: true,
        value: Some(i64::from(value)),
    }
}

/// The value, where there is no fault.
fn value_of(outcome: Result<i64, OpFault>) -> Option<i64>
    ensures { result ≡ value_of outcome }
{
    outcome.ok()
}

/// What an operation gives, where it meets no fault.
pub(crate) fn applied(op: Op, form: Form, a: i64, b: i64) -> Option<i64>
    ensures { result ≡ value_of (applied op (kind_of (sort_of_form form)) a b) }
{
    value_of(operate(op, form, a, b))
}

fn is_arithmetic(mark: Mark) -> bool
    ensures { result ≡ typing.is_arithmetic mark }
{
    matches!(
        mark,
        Mark::Plus | Mark::Minus | Mark::Times | Mark::Slash | Mark::Power
    )
}

/// The form of what a mark makes of two operands, where these are brought to a form.
fn form_joined_by(mark: Mark, joined: Form) -> Form
    ensures { let sort = if typing.is_arithmetic mark then sort_of_form joined else logical in
        result ≡ form_of_sort sort }
{
    if is_arithmetic(mark) {
        joined
    } else {
        Form::Logical
    }
}

fn form_led_by(mark: Mark, form: Form) -> Form
    ensures { result ≡ form_of_sort (typing.sort_led_by mark (sort_of_form form)) }
{
    match mark {
        Mark::Not => Form::Logical,
        _ => form,
    }
}

fn joined_values(mark: Mark, form: Form, a: Option<i64>, b: Option<i64>) -> Option<i64>
    ensures { result ≡ option_and_then (λ a. option_and_then
        (λ b. value_of (operating.joined_by mark (sort_of_form form) a b)) b) a }
{
    match a {
        Some(left) => match b {
            Some(right) => value_of(join_values(mark, form, left, right)),
            None => None,
        },
        None => None,
    }
}

fn led_value(mark: Mark, form: Form, a: Option<i64>) -> Option<i64>
    ensures { result
        ≡ option_and_then (λ a. value_of (operating.led_by mark (sort_of_form form) a)) a }
{
    match a {
        Some(right) => value_of(lead_value(mark, form, right)),
        None => None,
    }
}

/// What is known behind a mark.
pub fn known_led(mark: Mark, right: &Known) -> Known
    ensures { result ≡ knowing.known_led mark right.now }
{
    Known {
        form: form_led_by(mark, right.form),
        constant: right.constant,
        value: led_value(mark, right.form, right.value),
    }
}

/// What is known of two operands that a mark joins.
pub fn known_joined(mark: Mark, left: &Known, right: &Known) -> Known
    ensures { result ≡ knowing.known_joined mark left.now right.now }
{
    let form = joined_form(left.form, right.form);
    Known {
        form: form_joined_by(mark, form),
        constant: left.constant && right.constant,
        value: joined_values(mark, form, left.value, right.value),
    }
}
