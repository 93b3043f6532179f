//! What is known of references.

ghost use Rattle.std.specs.Prelude.{◌≡◌, map, Option, Some, option_map, option_and_then};
ghost use Rattle.std.specs.List.{list_all};
ghost use Rattle.dc_int.specs.Sorts.{fitted};
ghost use Rattle.dc_tree.specs.Intrinsics.{operation, chosen, merge};
ghost use Rattle.dc_tree.specs.Literals as literals;
ghost use Rattle.dc_tree.specs.Operating as operating;
ghost use Rattle.dc_tree.specs.Typing as typing;
ghost use Rattle.dc_tree.specs.Typing.{first_of, first_sort, value_of, where_each};
ghost use Rattle.dc_sorts.specs.Forms.{form_of_sort, sort_of_form};
ghost use Rattle.dc_sorts.specs.Functions.{function_of};
ghost use Rattle.dc_sorts.specs.Knowing.{known_constant, known_referred, known_sort, known_value};
ghost use Rattle.dc_sorts.specs.References as references;
ghost use Rattle.dc_sorts.specs.References.{has_value, number_given};
ghost use Rattle.dc_sorts.specs.Standing.{standing_of, scope_at};

use crate::form::{Form, fitted, kind_of};
use crate::intrinsic::{Intrinsic, intrinsic_named};
use crate::known::{Known, applied};
use crate::meaning::Meaning;
use crate::naming::{form_of_meaning, kind_numbered};
use crate::standing::Standing;
use dc_int::{Kind, Op};

fn kind_number(kind: Kind) -> i64
    ensures { result ≡ literals.kind_number kind }
{
    match kind {
        Kind::K1 => 1,
        Kind::K2 => 2,
        Kind::K4 => 4,
        Kind::K8 => 8,
    }
}

fn is_constant_call(declared: Option<Form>, function: Option<Intrinsic>) -> bool
    ensures { result ≡ references.is_constant_call declared (option_map function_of function) }
{
    match declared {
        Some(_) => false,
        None => match function {
            Some(function) => may_be_constant(function),
            None => false,
        },
    }
}

fn may_be_constant(function: Intrinsic) -> bool
    ensures { result ≡ typing.may_be_constant (function_of function) }
{
    match function {
        Intrinsic::Operation(_)
        | Intrinsic::Chosen(_)
        | Intrinsic::Merge
        | Intrinsic::Converted
        | Intrinsic::Huge
        | Intrinsic::BitSize
        | Intrinsic::Kind => true,
        Intrinsic::Size
        | Intrinsic::LowerBound
        | Intrinsic::UpperBound
        | Intrinsic::Total
        | Intrinsic::Count
        | Intrinsic::Any
        | Intrinsic::All => false,
    }
}

fn are_constant(args: &[Known]) -> bool
    ensures { result ≡ list_all known_constant args.now }
{
    for arg in args {
        if !arg.constant {
            return false;
        }
    }
    true
}

fn have_values(args: &[Known]) -> bool
    ensures { result ≡ list_all has_value args.now }
{
    for arg in args {
        if arg.value.is_none() {
            return false;
        }
    }
    true
}

fn number_given(arg: &Known) -> i64
    ensures { result ≡ number_given arg.now }
{
    match arg.value {
        Some(value) => value,
        None => 0,
    }
}

fn first_form(args: &[Known]) -> Form
    ensures { result ≡ form_of_sort (first_sort (map known_sort args.now)) }
{
    match args {
        [first, ..] => first.form,
        [] => Form::Logical,
    }
}

/// The kind to which INT converts its first argument.
pub fn kind_converted(args: &[Known]) -> Kind
    ensures { result ≡ typing.kind_converted (map known_value args.now) }
{
    match args {
        [_first, second] => match second.value {
            Some(number) => kind_numbered(number),
            None => Kind::K4,
        },
        _ => Kind::K4,
    }
}

fn form_called(function: Intrinsic, args: &[Known]) -> Form
    ensures { result ≡ references.form_called (function_of function) args.now }
{
    match function {
        Intrinsic::Operation(Op::Popcnt)
        | Intrinsic::Kind
        | Intrinsic::Size
        | Intrinsic::LowerBound
        | Intrinsic::UpperBound
        | Intrinsic::Count => Form::Whole(Kind::K4),
        Intrinsic::Operation(_)
        | Intrinsic::Chosen(_)
        | Intrinsic::Huge
        | Intrinsic::BitSize
        | Intrinsic::Total => Form::Whole(kind_of(first_form(args))),
        Intrinsic::Merge => first_form(args),
        Intrinsic::Converted => Form::Whole(kind_converted(args)),
        Intrinsic::Any | Intrinsic::All => Form::Logical,
    }
}

fn form_referred(declared: Option<Form>, function: Option<Intrinsic>, args: &[Known]) -> Form
    ensures { result
        ≡ references.form_referred declared (option_map function_of function) args.now }
{
    match declared {
        Some(form) => form,
        None => match function {
            Some(function) => form_called(function, args),
            None => Form::Logical,
        },
    }
}

/// What HUGE, BIT_SIZE and KIND give of an argument of a form, which isn't evaluated.
pub fn about_kind(function: Intrinsic, form: Form) -> Option<i64>
    ensures { result ≡ operating.about_kind (function_of function) (sort_of_form form) }
{
    match function {
        Intrinsic::Huge => Some(kind_of(form).greatest()),
        Intrinsic::BitSize => Some(i64::from(kind_of(form).bits())),
        Intrinsic::Kind => Some(kind_number(kind_of(form))),
        _ => None,
    }
}

/// An operation at arguments that have values.
fn operated(op: Op, form: Form, args: &[Known]) -> Option<i64>
    ensures { result ≡ value_of
        (operating.called (operation op) (sort_of_form form) (map number_given args.now)) }
{
    match args {
        [one] => applied(op, form, number_given(one), 0),
        [left, right] => applied(op, form, number_given(left), number_given(right)),
        _ => Some(0),
    }
}

/// MIN or MAX of a value and those of arguments that have values.
#[tactic(auto, using(crate::proofs::References::choices))]
fn chosen_from(op: Op, form: Form, first: i64, rest: &[Known]) -> Option<i64>
    ensures { result ≡ value_of
        (operating.chosen_from op (sort_of_form form) first (map number_given rest.now)) }
{
    let mut chosen = first;
    for arg in rest {
        match applied(op, form, chosen, number_given(arg)) {
            Some(value) => chosen = value,
            None => return None,
        }
    }
    Some(chosen)
}

fn chosen(op: Op, form: Form, args: &[Known]) -> Option<i64>
    ensures { result ≡ value_of
        (operating.called (chosen op) (sort_of_form form) (map number_given args.now)) }
{
    match args {
        [first, rest @ ..] => chosen_from(op, form, number_given(first), rest),
        [] => Some(0),
    }
}

fn merged(form: Form, args: &[Known]) -> Option<i64>
    ensures { result ≡ value_of
        (operating.called merge (sort_of_form form) (map number_given args.now)) }
{
    match args {
        [first, second, mask] => {
            if number_given(mask) != 0 {
                Some(number_given(first))
            } else {
                Some(number_given(second))
            }
        }
        _ => Some(0),
    }
}

/// A function at arguments that have values.
fn called(function: Intrinsic, form: Form, args: &[Known]) -> Option<i64>
    ensures { result ≡ value_of
        (operating.called (function_of function) (sort_of_form form) (map number_given args.now)) }
{
    match function {
        Intrinsic::Operation(op) => operated(op, form, args),
        Intrinsic::Chosen(op) => chosen(op, form, args),
        Intrinsic::Merge => merged(form, args),
        _ => Some(0),
    }
}

#[tactic(auto, using(crate::proofs::References::arguments))]
fn called_where_each(function: Intrinsic, form: Form, args: &[Known]) -> Option<i64>
    ensures { result ≡ option_and_then
        (λ zs. value_of (operating.called (function_of function) (sort_of_form form) zs))
        (where_each (map known_value args.now)) }
{
    if have_values(args) {
        called(function, form, args)
    } else {
        None
    }
}

fn first_fitted(form: Form, args: &[Known]) -> Option<i64>
    ensures { result
        ≡ option_map (fitted (sort_of_form form)) (first_of (map number_given args.now)) }
{
    match args {
        [first, ..] => Some(fitted(form, number_given(first))),
        [] => None,
    }
}

#[tactic(auto, using(crate::proofs::References::arguments))]
fn converted(form: Form, args: &[Known]) -> Option<i64>
    ensures { result ≡ option_map (fitted (sort_of_form form))
        (option_and_then first_of (where_each (map known_value args.now))) }
{
    if have_values(args) {
        first_fitted(form, args)
    } else {
        None
    }
}

/// The value of a function whose first argument has a form, and whose result has the form `given`.
fn constant_called(function: Intrinsic, first: Form, given: Form, args: &[Known]) -> Option<i64>
    ensures { result ≡ typing.constant_called (function_of function)
        (sort_of_form first) (sort_of_form given) (map known_value args.now) }
{
    match function {
        Intrinsic::Converted => converted(given, args),
        _ => match about_kind(function, first) {
            Some(value) => Some(value),
            None => called_where_each(function, first, args),
        },
    }
}

#[tactic(auto, using(crate::proofs::References::forms))]
fn constant_referred(
    allowed: bool,
    function: Option<Intrinsic>,
    given: Form,
    args: &[Known],
) -> Option<i64>
    ensures { result ≡ typing.constant_referred allowed (option_map function_of function)
        (map known_sort args.now) (sort_of_form given) (map known_value args.now) }
{
    match function {
        Some(function) => {
            if allowed {
                constant_called(function, first_form(args), given, args)
            } else {
                None
            }
        }
        None => None,
    }
}

fn form_declared(meaning: Meaning) -> Option<Form>
    ensures { result ≡ references.form_declared meaning }
{
    match meaning {
        Meaning::Nothing => None,
        _ => Some(form_of_meaning(meaning)),
    }
}

/// What is known of a reference whose name stands for something of the form `declared`, if something of that
/// name is declared.
fn referred(declared: Option<Form>, text: &[u8], args: &[Known]) -> Known
    ensures { result ≡ references.referred declared text.now args.now }
{
    let function = intrinsic_named(text);
    let form = form_referred(declared, function, args);
    let constant = is_constant_call(declared, function) && are_constant(args);
    Known {
        form,
        constant,
        value: constant_referred(constant, function, form, args),
    }
}

/// What is known of a name with arguments in brackets, from what is known of these.
pub fn known_referred(standing: &Standing, text: &[u8], args: &[Known]) -> Known
    ensures { result ≡ known_referred (scope_at (standing_of standing.now)) text.now args.now }
{
    referred(form_declared(standing.meaning(text)), text, args)
}
