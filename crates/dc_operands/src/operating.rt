//! Which operands operators take.

ghost use Rattle.std.specs.Prelude.{◌≡◌, ◌&&◌};
ghost use Rattle.dc_operands.specs.Arguments.{is_logical, is_whole};
ghost use Rattle.dc_operands.specs.Operands.{joins_truths, joins_numbers, takes_one, takes_two, is_variable, is_array};

use crate::forms::{is_logical, is_whole};
use dc_sorts::{Form, Meaning};
use dc_tree::Mark;

pub(crate) fn takes_one(mark: Mark, form: Form) -> bool
    ensures { result ≡ takes_one mark form }
{
    match mark {
        Mark::Not => is_logical(form),
        _ => is_whole(form),
    }
}

fn joins_truths(mark: Mark) -> bool
    ensures { result ≡ joins_truths mark }
{
    matches!(mark, Mark::And | Mark::Or | Mark::Eqv | Mark::Neqv)
}

fn are_logical(a: Form, b: Form) -> bool
    ensures { result ≡ is_logical a && is_logical b }
{
    is_logical(a) && is_logical(b)
}

fn are_whole(a: Form, b: Form) -> bool
    ensures { result ≡ is_whole a && is_whole b }
{
    is_whole(a) && is_whole(b)
}

fn joins_numbers(mark: Mark) -> bool
    ensures { result ≡ joins_numbers mark }
{
    match mark {
        Mark::Plus | Mark::Minus | Mark::Times | Mark::Slash | Mark::Power => true,
        Mark::Eq | Mark::Ne | Mark::Lt | Mark::Le | Mark::Gt | Mark::Ge => true,
        _ => false,
    }
}

pub(crate) fn takes_two(mark: Mark, a: Form, b: Form) -> bool
    ensures { result ≡ takes_two mark a b }
{
    if joins_truths(mark) {
        are_logical(a, b)
    } else {
        joins_numbers(mark) && are_whole(a, b)
    }
}

pub(crate) fn is_variable(meaning: Meaning) -> bool
    ensures { result ≡ is_variable meaning }
{
    match meaning {
        Meaning::Index(_) | Meaning::Variable { .. } | Meaning::Result(_) | Meaning::Dummy { .. } =>
            true,
        _ => false,
    }
}

pub(crate) fn is_array(meaning: Meaning) -> bool
    ensures { result ≡ is_array meaning }
{
    match meaning {
        Meaning::Variable { rank, .. } => rank > 0,
        _ => false,
    }
}
