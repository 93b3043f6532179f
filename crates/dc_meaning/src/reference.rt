//! References with arguments: what they refer to, and what of the arguments they evaluate.

ghost use Rattle.std.specs.Prelude.{◌≡◌, ◌≤◌, map, option_map, IfOk, IsTrue};
ghost use Rattle.dc_code.specs.Troubles.{Slots};
ghost use Rattle.dc_entities.specs.Found.{entity_of, bounds_found};
ghost use Rattle.dc_int.specs.Store.{elements_in};
ghost use Rattle.dc_plain.specs.Views.{View};
ghost use Rattle.dc_sorts.specs.Forms.{sort_of_form};
ghost use Rattle.dc_sorts.specs.Functions.{function_of};
ghost use Rattle.dc_sorts.specs.Knowing.{known_args};
ghost use Rattle.dc_tree.specs.Intrinsics.{intrinsic};
ghost use Rattle.dc_tree.specs.Operating as operating;
ghost use Rattle.dc_tree.specs.Syntax.{tree, arg_tree, args_from};
ghost use Rattle.dc_tree.specs.Typing.{joined, sort_of, sorts_of, first_sort};
ghost use Rattle.dc_meaning.specs.Evaluating as evaluating;
ghost use Rattle.dc_meaning.specs.Evaluating.{hidden_by, joined_at, led_at, referred_at, converted_to, folded_at, unevaluated_at};
ghost use Rattle.dc_meaning.specs.Values as meaning;
ghost use Rattle.dc_meaning.specs.Walking.{Stays};
ghost use Rattle.dc_meaning.specs.WalkScope.{scope_of, own_of, IsWalk};

use crate::arrays::{about_array, asked, bounds_of, dimension_named, first_form, folded};
use crate::reading::value_at;
use crate::settling::settled;
use crate::stop::Stop;
use crate::walk::Walk;
use crate::wholes::whole_values;
use dc_entities::{Found, find};
use dc_int::wrap_to;
use dc_plain::Ledger;
use dc_sorts::{
    Form, Intrinsic, Known, call_function, intrinsic_named, join_values, joined_form,
    kind_converted, known_args, known_expr, lead_value,
};
use dc_text::NoMemory;
use dc_tree::{Arg, Expr, Mark};
use std::alloc::Global;

/// Which of its arguments a reference evaluates.
#[derive(Clone, Copy, Debug, PartialEq, Eq)]
pub(crate) enum Evaluates {
    All,
    First,
    Nothing,
}

/// What a reference with a function of the language evaluates, and one without.
pub(crate) fn evaluated(function: Option<Intrinsic>) -> Evaluates
    ensures { result ≡ evaluating.evaluates (option_map function_of function) }
{
    match function {
        None => Evaluates::All,
        Some(function) => match function {
            Intrinsic::Operation(_) | Intrinsic::Chosen(_) | Intrinsic::Merge => Evaluates::All,
            Intrinsic::Converted => Evaluates::First,
            _ => Evaluates::Nothing,
        },
    }
}

/// What a function asks that evaluates none of its arguments: about the kind of the first, for the
/// elements of an array, or about its bounds.
#[derive(Clone, Copy, Debug, PartialEq, Eq)]
pub(crate) enum Asks {
    Kind,
    Elements,
    Bounds,
}

fn asked_by(function: Intrinsic) -> Asks
    ensures { result ≡ evaluating.asks (function_of function) }
{
    match function {
        Intrinsic::Huge | Intrinsic::BitSize | Intrinsic::Kind => Asks::Kind,
        Intrinsic::Total | Intrinsic::Count | Intrinsic::Any | Intrinsic::All => Asks::Elements,
        _ => Asks::Bounds,
    }
}

/// The function of the language that a name stands for, unless something of that name is declared.
pub fn function_named(found: Found<'_>, text: &[u8]) -> Option<Intrinsic>
    ensures { option_map function_of result ≡ hidden_by (entity_of found.entry) (intrinsic text.now) }
{
    match found {
        Found::Nothing => intrinsic_named(text),
        _ => None,
    }
}

/// What the first of some arguments names.
fn array_named<'a>(walk: &Walk<'a>, args: &[Arg]) -> Found<'a>
    requires { IsWalk walk.now }
    ensures found { entity_of result
        ≡ meaning.array_named (scope_of walk.now) (args_from (map arg_tree args.now)) }
    ensures few { elements_in (bounds_found result) ≤ 4194304 }
{
    match args {
        [first, ..] => match &first.value {
            Expr::Name(text) => find(&walk.standing, walk.numbering, text.as_bytes()),
            _ => Found::Nothing,
        },
        [] => Found::Nothing,
    }
}

/// The form to which two operands are brought.
fn operand_form(alloc: Global, walk: &Walk<'_>, left: &Expr, right: &Expr) -> Result<Form, NoMemory>
    ensures { IfOk result (λ form. sort_of_form form ≡ joined
        (sort_of (scope_of walk.now) (tree left.now)) (sort_of (scope_of walk.now) (tree right.now))) }
{
    let left = known_expr(alloc, &walk.standing, left)?;
    let right = known_expr(alloc, &walk.standing, right)?;
    Ok(joined_form(left.form, right.form))
}

/// The value that a mark makes of two operands with values.
pub(crate) fn joined(
    alloc: Global,
    walk: &Walk<'_>,
    line: u32,
    mark: Mark,
    left: &Expr,
    right: &Expr,
    a: i64,
    b: i64,
) -> Result<i64, Stop>
    ensures { (view : View) → Stays (λ z. z) (own_of walk.now) view
        (λ call. joined_at (scope_of walk.now) line mark (tree left.now) (tree right.now) a b)
        view result }
{
    let form = operand_form(alloc, walk, left, right)?;
    settled(line, join_values(mark, form, a, b))
}

/// The value that a mark makes of one operand with a value.
pub(crate) fn led(
    alloc: Global,
    walk: &Walk<'_>,
    line: u32,
    mark: Mark,
    right: &Expr,
    a: i64,
) -> Result<i64, Stop>
    ensures { (view : View) → Stays (λ z. z) (own_of walk.now) view
        (λ call. led_at (scope_of walk.now) line mark (tree right.now) a) view result }
{
    let known = known_expr(alloc, &walk.standing, right)?;
    settled(line, lead_value(mark, known.form, a))
}

/// A function at the values of its arguments.
fn called(
    alloc: Global,
    walk: &Walk<'_>,
    line: u32,
    function: Intrinsic,
    args: &[Arg],
    given: &[i64],
) -> Result<i64, Stop>
    ensures { (view : View) → Stays (λ z. z) (own_of walk.now) view
        (λ call. meaning.settled line (operating.called (function_of function)
        (first_sort (sorts_of (scope_of walk.now) (args_from (map arg_tree args.now)))) given.now))
        view result }
{
    let known = known_args(alloc, &walk.standing, args)?;
    settled(
        line,
        call_function(function, first_form(known.as_slice()), given),
    )
}

/// A reference at the values of all its arguments.
pub(crate) fn referred(
    alloc: Global,
    walk: &Walk<'_>,
    ledger: &mut Ledger,
    line: u32,
    found: Found<'_>,
    function: Option<Intrinsic>,
    args: &[Arg],
    given: &[i64],
) -> Result<i64, Stop>
    requires few { elements_in (bounds_found found) ≤ 4194304 }
    ensures { Stays (λ z. z) (own_of walk.now) ledger.old
        (λ call. referred_at (scope_of walk.now) line (entity_of found.entry)
        (option_map function_of function) (args_from (map arg_tree args.now)) given.now)
        ledger.new result }
{
    match function {
        Some(function) => called(alloc, walk, line, function, args, given),
        None => value_at(walk, ledger, line, found, given),
    }
}

/// INT of a value of its first argument.
pub(crate) fn converted(
    alloc: Global,
    walk: &Walk<'_>,
    args: &[Arg],
    given: i64,
) -> Result<i64, NoMemory>
    ensures { IfOk result (λ z. z
        ≡ converted_to (scope_of walk.now) (args_from (map arg_tree args.now)) given) }
{
    let known = known_args(alloc, &walk.standing, args)?;
    Ok(wrap_to(kind_converted(known.as_slice()), i128::from(given)))
}

/// A function of the elements of an array.
fn folded_array(
    alloc: Global,
    walk: &Walk<'_>,
    ledger: &mut Ledger,
    line: u32,
    function: Intrinsic,
    form: Form,
    args: &[Arg],
) -> Result<i64, Stop>
    requires walk { IsWalk walk.now }
    ensures { Stays (λ z. z) (own_of walk.now) ledger.old
        (λ call. folded_at (scope_of walk.now) line (function_of function) (sort_of_form form)
        (args_from (map arg_tree args.now)))
        ledger.new result }
{
    let found = array_named(walk, args);
    let given = whole_values(alloc, walk, ledger, line, found)?;
    Ok(folded(function, form, given.as_slice()))
}

/// What is asked about an array, which isn't read.
fn asked_of_array(walk: &Walk<'_>, function: Intrinsic, args: &[Arg], known: &[Known]) -> i64
    requires walk { IsWalk walk.now }
    requires known { known.now ≡ known_args (scope_of walk.now) (args_from (map arg_tree args.now)) }
    ensures { result ≡ evaluating.asked_of_array (scope_of walk.now) (function_of function)
        (args_from (map arg_tree args.now)) }
{
    let bounds = bounds_of(array_named(walk, args));
    about_array(function, bounds, dimension_named(bounds, known))
}

/// A function that evaluates none of its arguments.
pub(crate) fn unevaluated(
    alloc: Global,
    walk: &Walk<'_>,
    ledger: &mut Ledger,
    line: u32,
    function: Intrinsic,
    args: &[Arg],
) -> Result<i64, Stop>
    requires walk { IsWalk walk.now }
    ensures { Stays (λ z. z) (own_of walk.now) ledger.old
        (λ call. unevaluated_at (scope_of walk.now) line (function_of function)
        (args_from (map arg_tree args.now)))
        ledger.new result }
{
    let known = known_args(alloc, &walk.standing, args)?;
    let known = known.as_slice();
    let form = first_form(known);
    match asked_by(function) {
        Asks::Kind => Ok(asked(function, form)),
        Asks::Elements => folded_array(alloc, walk, ledger, line, function, form, args),
        Asks::Bounds => Ok(asked_of_array(walk, function, args, known)),
    }
}
