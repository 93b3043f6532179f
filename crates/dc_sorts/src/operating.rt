//! What the operators and the functions of the language make of values, with their faults.

ghost use Rattle.std.specs.Prelude.{◌≡◌};
ghost use Rattle.dc_int.specs.Operations.{applied};
ghost use Rattle.dc_int.specs.Reductions.{conjunction, disjunction, equivalence, non_equivalence};
ghost use Rattle.dc_int.specs.Sorts.{kind_of};
ghost use Rattle.dc_tree.specs.Intrinsics.{operation, chosen, merge};
ghost use Rattle.dc_tree.specs.Operating as operating;
ghost use Rattle.dc_sorts.specs.Forms.{sort_of_form};
ghost use Rattle.dc_sorts.specs.Functions.{function_of};

use crate::form::{Form, kind_of};
use crate::intrinsic::Intrinsic;
use dc_int::{Op, OpFault, apply};
use dc_tree::Mark;

/// What an operation gives at the kind of a form, or what is wrong with the operands.
pub(crate) fn operate(op: Op, form: Form, a: i64, b: i64) -> Result<i64, OpFault>
    ensures { result ≡ applied op (kind_of (sort_of_form form)) a b }
{
    apply(op, kind_of(form), a, b)
}

fn conjunction(a: i64, b: i64) -> i64
    ensures { result ≡ conjunction a b }
{
    i64::from(a != 0 && b != 0)
}

fn disjunction(a: i64, b: i64) -> i64
    ensures { result ≡ disjunction a b }
{
    i64::from(a != 0 || b != 0)
}

fn equivalence(a: i64, b: i64) -> i64
    ensures { result ≡ equivalence a b }
{
    i64::from((a != 0) == (b != 0))
}

fn non_equivalence(a: i64, b: i64) -> i64
    ensures { result ≡ non_equivalence a b }
{
    i64::from((a != 0) != (b != 0))
}

fn is_equal(a: i64, b: i64) -> bool
    ensures { result ≡ operating.is_equal a b }
{
    a == b
}

/// What a mark makes of two values, which were brought to one form.
pub fn join_values(mark: Mark, form: Form, a: i64, b: i64) -> Result<i64, OpFault>
    ensures { result ≡ operating.joined_by mark (sort_of_form form) a b }
{
    match mark {
        Mark::Plus => operate(Op::Add, form, a, b),
        Mark::Minus => operate(Op::Sub, form, a, b),
        Mark::Times => operate(Op::Mul, form, a, b),
        Mark::Slash => operate(Op::Div, form, a, b),
        Mark::Power => operate(Op::Pow, form, a, b),
        Mark::Eq => Ok(i64::from(is_equal(a, b))),
        Mark::Ne => Ok(i64::from(!is_equal(a, b))),
        Mark::Lt => Ok(i64::from(a < b)),
        Mark::Le => Ok(i64::from(a <= b)),
        Mark::Gt => Ok(i64::from(a > b)),
        Mark::Ge => Ok(i64::from(a >= b)),
        Mark::And => Ok(conjunction(a, b)),
        Mark::Or => Ok(disjunction(a, b)),
        Mark::Eqv => Ok(equivalence(a, b)),
        Mark::Neqv => Ok(non_equivalence(a, b)),
        _ => Ok(a),
    }
}

/// What a mark in front of a value makes.
pub fn lead_value(mark: Mark, form: Form, a: i64) -> Result<i64, OpFault>
    ensures { result ≡ operating.led_by mark (sort_of_form form) a }
{
    match mark {
        Mark::Minus => operate(Op::Neg, form, a, 0),
        Mark::Not => Ok(i64::from(a == 0)),
        _ => Ok(a),
    }
}

fn operated(op: Op, form: Form, values: &[i64]) -> Result<i64, OpFault>
    ensures { result ≡ operating.called (operation op) (sort_of_form form) values.now }
{
    match values {
        [a] => operate(op, form, *a, 0),
        [a, b] => operate(op, form, *a, *b),
        _ => Ok(0),
    }
}

/// MIN or MAX of a value and others.
fn chosen_from(op: Op, form: Form, first: i64, rest: &[i64]) -> Result<i64, OpFault>
    ensures { result ≡ operating.chosen_from op (sort_of_form form) first rest.now }
{
    let mut chosen = first;
    for value in rest {
        match operate(op, form, chosen, *value) {
            Ok(next) => chosen = next,
            Err(fault) => return Err(fault),
        }
    }
    Ok(chosen)
}

fn chosen(op: Op, form: Form, values: &[i64]) -> Result<i64, OpFault>
    ensures { result ≡ operating.called (chosen op) (sort_of_form form) values.now }
{
    match values {
        [first, rest @ ..] => chosen_from(op, form, *first, rest),
        [] => Ok(0),
    }
}

fn merged(form: Form, values: &[i64]) -> Result<i64, OpFault>
    ensures { result ≡ operating.called merge (sort_of_form form) values.now }
{
    match values {
        [first, second, mask] => Ok(if *mask != 0 { *first } else { *second }),
        _ => Ok(0),
    }
}

/// A function at the values of its arguments, where the first has a form. Those that ask about an array or a
/// kind aren't called so.
pub fn call_function(function: Intrinsic, form: Form, values: &[i64]) -> Result<i64, OpFault>
    ensures { result ≡ operating.called (function_of function) (sort_of_form form) values.now }
{
    match function {
        Intrinsic::Operation(op) => operated(op, form, values),
        Intrinsic::Chosen(op) => chosen(op, form, values),
        Intrinsic::Merge => merged(form, values),
        _ => Ok(0),
    }
}
