//! Which arguments the functions of the language take.

ghost use Rattle.std.specs.Prelude.{◌≡◌, ◌&&◌, ◌||◌, map};
ghost use Rattle.std.specs.List.{list_all};
ghost use Rattle.dc_tree.specs.Intrinsics as functions;
ghost use Rattle.dc_sorts.specs.Functions.{function_of};
ghost use Rattle.dc_operands.specs.Arguments.{is_of_one, counts_places, is_about_array, is_whole, form_in, none_keyed, same_form, takes_pair, takes_forms, takes_keys, takes_first, takes};

use crate::argument::Argument;
use crate::forms::{is_logical, is_whole, same_form};
use dc_int::Op;
use dc_sorts::{Form, Intrinsic};

fn is_of_one(op: Op) -> bool
    ensures { result ≡ is_of_one op }
{
    matches!(op, Op::Abs | Op::Not | Op::Popcnt)
}

fn counts_places(op: Op) -> bool
    ensures { result ≡ counts_places op }
{
    matches!(
        op,
        Op::Ishft | Op::Shiftl | Op::Shiftr | Op::Shifta | Op::Ibset | Op::Ibclr
    )
}

fn fit_together(op: Op, a: Form, b: Form) -> bool
    ensures { result ≡ counts_places op || same_form a b }
{
    counts_places(op) || same_form(a, b)
}

fn takes_pair(op: Op, a: Form, b: Form) -> bool
    ensures { result ≡ takes_pair op a b }
{
    !is_of_one(op) && (is_whole(a) && (is_whole(b) && fit_together(op, a, b)))
}

fn takes_single(op: Op, a: Form) -> bool
    ensures { result ≡ is_of_one op && is_whole a }
{
    is_of_one(op) && is_whole(a)
}

fn operation_takes(op: Op, arguments: &[Argument]) -> bool
    ensures { result ≡ takes_forms (functions.operation op) (map form_in arguments.now) }
{
    match arguments {
        [a] => takes_single(op, a.form),
        [a, b] => takes_pair(op, a.form, b.form),
        _ => false,
    }
}

fn are_alike(form: Form, arguments: &[Argument]) -> bool
    ensures { result ≡ list_all (same_form form) (map form_in arguments.now) }
{
    for argument in arguments {
        if !same_form(form, argument.form) {
            return false;
        }
    }
    true
}

fn chosen_takes(op: Op, arguments: &[Argument]) -> bool
    ensures { result ≡ takes_forms (functions.chosen op) (map form_in arguments.now) }
{
    match arguments {
        [a, _b, ..] => is_whole(a.form) && are_alike(a.form, arguments),
        _ => false,
    }
}

fn merge_takes(arguments: &[Argument]) -> bool
    ensures { result ≡ takes_forms functions.merge (map form_in arguments.now) }
{
    match arguments {
        [a, b, mask] => same_form(a.form, b.form) && is_logical(mask.form),
        _ => false,
    }
}

fn one_whole(arguments: &[Argument]) -> bool
    ensures { result ≡ takes_forms functions.huge (map form_in arguments.now) }
{
    match arguments {
        [a] => is_whole(a.form),
        _ => false,
    }
}

fn one_logical(arguments: &[Argument]) -> bool
    ensures { result ≡ takes_forms functions.count (map form_in arguments.now) }
{
    match arguments {
        [a] => is_logical(a.form),
        _ => false,
    }
}

fn converted_takes(arguments: &[Argument]) -> bool
    ensures { result ≡ takes_forms functions.converted (map form_in arguments.now) }
{
    match arguments {
        [a] => is_whole(a.form),
        [a, _kind] => is_whole(a.form),
        _ => false,
    }
}

fn kind_takes(arguments: &[Argument]) -> bool
    ensures { result ≡ takes_forms functions.kind (map form_in arguments.now) }
{
    matches!(arguments, [_a])
}

fn size_takes(arguments: &[Argument]) -> bool
    ensures { result ≡ takes_forms functions.size (map form_in arguments.now) }
{
    match arguments {
        [_array] => true,
        [_array, _dimension] => true,
        _ => false,
    }
}

fn bound_takes(arguments: &[Argument]) -> bool
    ensures { result ≡ takes_forms functions.lower_bound (map form_in arguments.now) }
{
    match arguments {
        [_array, _dimension] => true,
        _ => false,
    }
}

fn takes_forms(function: Intrinsic, arguments: &[Argument]) -> bool
    ensures { result ≡ takes_forms (function_of function) (map form_in arguments.now) }
{
    match function {
        Intrinsic::Operation(op) => operation_takes(op, arguments),
        Intrinsic::Chosen(op) => chosen_takes(op, arguments),
        Intrinsic::Merge => merge_takes(arguments),
        Intrinsic::Converted => converted_takes(arguments),
        Intrinsic::Huge | Intrinsic::BitSize | Intrinsic::Total => one_whole(arguments),
        Intrinsic::Kind => kind_takes(arguments),
        Intrinsic::Size => size_takes(arguments),
        Intrinsic::LowerBound | Intrinsic::UpperBound => bound_takes(arguments),
        Intrinsic::Count | Intrinsic::Any | Intrinsic::All => one_logical(arguments),
    }
}

fn is_about_array(function: Intrinsic) -> bool
    ensures { result ≡ is_about_array (function_of function) }
{
    matches!(
        function,
        Intrinsic::Size
            | Intrinsic::LowerBound
            | Intrinsic::UpperBound
            | Intrinsic::Total
            | Intrinsic::Count
            | Intrinsic::Any
            | Intrinsic::All
    )
}

pub(crate) fn none_keyed(arguments: &[Argument]) -> bool
    ensures { result ≡ none_keyed arguments.now }
{
    for argument in arguments {
        if argument.keyed {
            return false;
        }
    }
    true
}

fn first_unkeyed(arguments: &[Argument]) -> bool
    ensures { result ≡ takes_keys functions.converted arguments.now }
{
    match arguments {
        [first, ..] => !first.keyed,
        [] => true,
    }
}

fn takes_keys(function: Intrinsic, arguments: &[Argument]) -> bool
    ensures { result ≡ takes_keys (function_of function) arguments.now }
{
    match function {
        Intrinsic::Converted => first_unkeyed(arguments),
        _ => none_keyed(arguments),
    }
}

fn takes_first(function: Intrinsic, arguments: &[Argument]) -> bool
    ensures { result ≡ takes_first (function_of function) arguments.now }
{
    match arguments {
        [first, ..] => !is_about_array(function) || first.is_name,
        [] => true,
    }
}

/// Whether a function takes these arguments.
pub(crate) fn takes(function: Intrinsic, arguments: &[Argument]) -> bool
    ensures { result ≡ takes (function_of function) arguments.now }
{
    takes_keys(function, arguments)
        && (takes_first(function, arguments) && takes_forms(function, arguments))
}
