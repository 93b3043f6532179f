//! What the functions of the language tell of an array and of a kind.

ghost use Rattle.std.specs.Prelude.{◌≡◌, ◌≤◌, [], ◌∷◌, length, filter, map, pos};
ghost use Rattle.std.specs.List.{list_all, list_any};
ghost use Rattle.dc_code.specs.Closing.{combined_with};
ghost use Rattle.dc_int.specs.Store.{elements_in};
ghost use Rattle.dc_int.specs.Reductions.{truth, combined};
ghost use Rattle.dc_int.specs.declared.operation.ReduceOp.{ReduceOp};
ghost use Rattle.dc_sorts.specs.Forms.{sort_of_form};
ghost use Rattle.dc_sorts.specs.Functions.{function_of};
ghost use Rattle.dc_sorts.specs.Knowing.{known_sort, known_value};
ghost use Rattle.dc_entities.specs.Found.{entity_of, bounds_found};
ghost use Rattle.dc_tree.specs.Operating as operating;
ghost use Rattle.dc_tree.specs.Typing.{first_sort, sort_of_entity};
ghost use Rattle.dc_meaning.specs.Evaluating.{asked_about};
ghost use Rattle.dc_meaning.specs.Places as places;
ghost use Rattle.dc_meaning.specs.Values as meaning;

use dc_entities::{Found, elements, extent};
use dc_int::{Kind, Op, apply, wrap_to};
use dc_sorts::{Form, Intrinsic, Known, about_kind, kind_of};

fn added(kind: Kind, a: i64, b: i64) -> i64
    ensures { result ≡ combined ReduceOp.Add kind a b }
{
    match apply(Op::Add, kind, a, b) {
        Ok(sum) => sum,
        Err(_) => 0,
    }
}

#[tactic(auto, using(std::proofs::lemmas::List::drop_more))]
fn total(kind: Kind, values: &[i64]) -> i64
    ensures { result ≡ combined_with ReduceOp.Add kind (pos 0) values.now }
{
    let mut total = 0;
    for value in values {
        total = added(kind, total, *value);
    }
    total
}

#[tactic(auto, using(std::proofs::lemmas::List::drop_more))]
fn count(values: &[i64]) -> usize
    ensures { result ≡ length (filter truth values.now) }
{
    let mut count = 0;
    for value in values {
        if *value != 0 {
            count += 1;
        }
    }
    count
}

fn any(values: &[i64]) -> bool
    ensures { result ≡ list_any truth values.now }
{
    values.iter().any(|value| *value != 0)
}

fn all(values: &[i64]) -> bool
    ensures { result ≡ list_all truth values.now }
{
    values.iter().all(|value| *value != 0)
}

/// SUM, COUNT, ANY and ALL of the values of an array.
pub(crate) fn folded(function: Intrinsic, form: Form, values: &[i64]) -> i64
    ensures { result ≡ meaning.folded (function_of function) (sort_of_form form) values.now }
{
    match function {
        Intrinsic::Count => wrap_to(Kind::K4, count(values) as i128),
        Intrinsic::Any => i64::from(any(values)),
        Intrinsic::All => i64::from(all(values)),
        _ => total(kind_of(form), values),
    }
}

/// The dimension that the second argument names.
pub fn dimension_named(bounds: &[(i64, i64)], args: &[Known]) -> Option<(i64, i64)>
    ensures { result ≡ meaning.dimension_named bounds.now (map known_value args.now) }
{
    match args {
        [_first, second] => dimension_numbered(bounds, second.value),
        _ => None,
    }
}

fn dimension_numbered(bounds: &[(i64, i64)], number: Option<i64>) -> Option<(i64, i64)>
    ensures { result ≡ meaning.dimension_named bounds.now (number ∷ number ∷ []) }
{
    match number {
        Some(number) if number >= 0 => bounds.get((number as usize).saturating_sub(1)).copied(),
        _ => None,
    }
}

fn extent_of(dimension: (i64, i64)) -> i64
    ensures { result ≡ places.extent_of dimension }
{
    wrap_to(Kind::K4, extent(dimension))
}

fn low_of(dimension: (i64, i64)) -> i64
    ensures { result ≡ places.low_of dimension }
{
    if extent(dimension) == 0 {
        1
    } else {
        wrap_to(Kind::K4, i128::from(dimension.0))
    }
}

fn high_of(dimension: (i64, i64)) -> i64
    ensures { result ≡ places.high_of dimension }
{
    if extent(dimension) == 0 {
        0
    } else {
        wrap_to(Kind::K4, i128::from(dimension.1))
    }
}

fn size_of(bounds: &[(i64, i64)]) -> i64
    requires { elements_in bounds.now ≤ 4194304 }
    ensures { result ≡ places.size_of bounds.now }
{
    wrap_to(Kind::K4, i128::from(elements(bounds)))
}

/// SIZE, LBOUND and UBOUND of an array, along a dimension where one is named.
pub fn about_array(function: Intrinsic, bounds: &[(i64, i64)], dimension: Option<(i64, i64)>) -> i64
    requires { elements_in bounds.now ≤ 4194304 }
    ensures { result ≡ meaning.about_array (function_of function) bounds.now dimension }
{
    let Some(dimension) = dimension else {
        return size_of(bounds);
    };
    match function {
        Intrinsic::Size => extent_of(dimension),
        Intrinsic::LowerBound => low_of(dimension),
        Intrinsic::UpperBound => high_of(dimension),
        _ => size_of(bounds),
    }
}

/// HUGE, BIT_SIZE and KIND of an argument of a form.
pub fn asked(function: Intrinsic, form: Form) -> i64
    ensures { result ≡ asked_about (operating.about_kind (function_of function) (sort_of_form form)) }
{
    about_kind(function, form).unwrap_or(0)
}

/// The bounds of what a name stands for.
pub fn bounds_of(found: Found<'_>) -> &[(i64, i64)]
    ensures bounds { result.now ≡ places.bounds_of_entity (entity_of found.entry) }
    ensures same { result.now ≡ bounds_found found.entry }
{
    match found {
        Found::Variable { bounds, .. } => bounds,
        _ => &[],
    }
}

/// The form of what a name stands for.
pub fn form_of(found: Found<'_>) -> Form
    ensures { sort_of_form result ≡ sort_of_entity (entity_of found.entry) }
{
    match found {
        Found::Index(kind) => Form::Whole(kind),
        Found::Variable { form, .. } | Found::Constant { form, .. } => form,
        Found::Nothing => Form::Logical,
    }
}

/// The form of the first argument.
pub fn first_form(args: &[Known]) -> Form
    ensures { sort_of_form result ≡ first_sort (map known_sort args.now) }
{
    match args {
        [first, ..] => first.form,
        [] => Form::Logical,
    }
}
