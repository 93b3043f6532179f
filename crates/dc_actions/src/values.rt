//! The instructions of expressions. Each walk tells what is known of what it walks, beside the instructions
//! that it adds, so that no part is walked twice.

ghost use Rattle.std.specs.Prelude.{
  ◌≡◌,
  ◌++◌,
  [],
  ◌∷◌,
  Some,
  drop,
  map,
  option_map,
  IfOk,
  OnOk,
  IsTrue,
};
ghost use Rattle.std.specs.List.{list_all};
ghost use Rattle.dc_sorts.specs.Functions.{function_of};
ghost use Rattle.dc_sorts.specs.Knowing as knowing;
ghost use Rattle.dc_sorts.specs.Knowing.{known_of};
ghost use Rattle.dc_form.specs.BuiltPrograms.{is_held, are_held};
ghost use Rattle.dc_tree.specs.Intrinsics as functions;
ghost use Rattle.dc_tree.specs.Syntax as syntax;
ghost use Rattle.dc_tree.specs.Syntax.{refer, tree, arg_tree, args_from};
ghost use Rattle.dc_actions.specs.Assigning.{each_code};
ghost use Rattle.dc_actions.specs.Expressions.{value_code, values_code, first_code, further_code};
ghost use Rattle.dc_actions.specs.Naming.{scope_of, AreNamed};
ghost use Rattle.dc_actions.specs.References.{arguments_code};

use crate::names::Names;
use crate::operators::{entity, joined, led};
use crate::references::behind;
use dc_code::What;
use dc_entities::{find, held_number};
use dc_int::{Kind, Op};
use dc_meaning::function_named;
use dc_sorts::{
    Intrinsic, Known, joined_form, kind_of, known_args, known_chars, known_joined, known_led,
    known_name, known_number, known_referred, known_truth,
};
use dc_text::{DcList, NoMemory};
use dc_tree::{Arg, Expr, Suffix};
use std::alloc::Global;

/// Adds the instructions of a number.
fn number(
    names: &Names<'_>,
    whats: &mut DcList<What>,
    digits: &[u8],
    suffix: &Suffix,
) -> Result<Known, NoMemory>
    requires { IsTrue (is_held (syntax.number digits.now suffix.now)) }
    ensures known { IfOk result (λ known. known
        ≡ known_of (scope_of names.now) (syntax.number digits.now suffix.now)) }
    ensures code { OnOk result (whats.new
        ≡ whats.old ++ value_code (scope_of names.now) (syntax.number digits.now suffix.now)) }
{
    let known = known_number(&names.standing, digits, suffix);
    whats.push(What::Const {
        k: kind_of(known.form),
        n: held_number(digits),
    })?;
    Ok(known)
}

/// Adds the instruction of a truth.
fn truth(names: &Names<'_>, whats: &mut DcList<What>, value: bool) -> Result<Known, NoMemory>
    ensures known { IfOk result (λ known. known
        ≡ known_of (scope_of names.now) (syntax.truth value)) }
    ensures code { OnOk result (whats.new
        ≡ whats.old ++ value_code (scope_of names.now) (syntax.truth value)) }
{
    whats.push(What::Truth { n: value })?;
    Ok(known_truth(&names.standing, value))
}

/// Adds the instruction of a character literal, whose value nothing asks for.
fn chars(names: &Names<'_>, whats: &mut DcList<What>, text: &[u8]) -> Result<Known, NoMemory>
    ensures known { IfOk result (λ known. known
        ≡ known_of (scope_of names.now) (syntax.chars text.now)) }
    ensures code { OnOk result (whats.new
        ≡ whats.old ++ value_code (scope_of names.now) (syntax.chars text.now)) }
{
    whats.push(What::Truth { n: false })?;
    Ok(known_chars(&names.standing, text))
}

/// Adds the instructions of a name alone.
pub(crate) fn name(
    names: &Names<'_>,
    whats: &mut DcList<What>,
    text: &[u8],
) -> Result<Known, NoMemory>
    requires { AreNamed names.now }
    ensures known { IfOk result (λ known. known
        ≡ known_of (scope_of names.now) (syntax.name text.now)) }
    ensures code { OnOk result (whats.new
        ≡ whats.old ++ value_code (scope_of names.now) (syntax.name text.now)) }
{
    let found = find(&names.standing, names.numbering, text);
    entity(whats, found)?;
    Ok(known_name(&names.standing, text))
}

/// A list of one.
fn one(alloc: Global, known: Known) -> Result<DcList<Known>, NoMemory>
    ensures { IfOk result (λ list. list ≡ known ∷ []) }
{
    let mut list = DcList::new(alloc);
    list.push(known)?;
    Ok(list)
}

/// Adds the instructions of all arguments or subscripts.
#[cycle(values)]
#[tactic(auto, using(dc_tree::proofs::Views::expression_views, dc_sorts::proofs::Knowing::gathering))]
fn values(
    alloc: Global,
    names: &Names<'_>,
    whats: &mut DcList<What>,
    args: &[Arg],
) -> Result<DcList<Known>, NoMemory>
    requires names { AreNamed names.now }
    requires held { IsTrue (are_held (args_from (map arg_tree args.now))) }
    ensures known { IfOk result (λ known. known
        ≡ knowing.known_args (scope_of names.now) (args_from (map arg_tree args.now))) }
    ensures code { OnOk result (whats.new
        ≡ whats.old ++ values_code (scope_of names.now) (args_from (map arg_tree args.now))) }
{
    let mut known = DcList::new(alloc);
    for arg in args {
        known.push(value(alloc, names, whats, &arg.value)?)?;
    }
    Ok(known)
}

/// Adds the instructions of the first argument alone.
#[cycle(values)]
#[tactic(auto, using(dc_tree::proofs::Views::expression_views, dc_sorts::proofs::Knowing::gathering))]
fn first_value(
    alloc: Global,
    names: &Names<'_>,
    whats: &mut DcList<What>,
    args: &[Arg],
) -> Result<DcList<Known>, NoMemory>
    requires names { AreNamed names.now }
    requires held { IsTrue (are_held (args_from (map arg_tree args.now))) }
    ensures known { IfOk result (λ known. known
        ≡ knowing.known_args (scope_of names.now) (args_from (map arg_tree args.now))) }
    ensures code { OnOk result (whats.new
        ≡ whats.old ++ first_code (scope_of names.now) (args_from (map arg_tree args.now))) }
{
    match args {
        [first, rest @ ..] => {
            let mut known = one(alloc, value(alloc, names, whats, &first.value)?)?;
            known.append(known_args(alloc, &names.standing, rest)?)?;
            Ok(known)
        }
        [] => {
            whats.push(What::Const { k: Kind::K4, n: 0 })?;
            Ok(DcList::new(alloc))
        }
    }
}

/// Adds the instructions of the arguments of MIN or MAX behind the first, each with the operation
/// behind it.
#[cycle(values)]
#[tactic(auto, using(dc_tree::proofs::Views::expression_views, dc_sorts::proofs::Knowing::gathering))]
fn further(
    alloc: Global,
    names: &Names<'_>,
    whats: &mut DcList<What>,
    op: Op,
    kind: Kind,
    args: &[Arg],
) -> Result<DcList<Known>, NoMemory>
    requires names { AreNamed names.now }
    requires held { IsTrue (are_held (args_from (map arg_tree (drop 1 args.now)))) }
    ensures known { IfOk result (λ known. known
        ≡ knowing.known_args (scope_of names.now) (args_from (map arg_tree (drop 1 args.now)))) }
    ensures code { OnOk result (whats.new ≡ whats.old
        ++ further_code (scope_of names.now) op kind (args_from (map arg_tree (drop 1 args.now)))) }
{
    let mut known = DcList::new(alloc);
    for at in 1..args.len() {
        known.push(value(alloc, names, whats, &args[at].value)?)?;
        whats.push(What::Arith { op, k: kind })?;
    }
    Ok(known)
}

/// Adds the instructions of MIN or MAX, which go at the kind of the first argument.
#[cycle(values)]
#[tactic(auto, using(dc_tree::proofs::Views::expression_views, dc_sorts::proofs::Knowing::gathering))]
fn chosen(
    alloc: Global,
    names: &Names<'_>,
    whats: &mut DcList<What>,
    op: Op,
    args: &[Arg],
) -> Result<DcList<Known>, NoMemory>
    requires names { AreNamed names.now }
    requires held { IsTrue (are_held (args_from (map arg_tree args.now))) }
    ensures known { IfOk result (λ known. known
        ≡ knowing.known_args (scope_of names.now) (args_from (map arg_tree args.now))) }
    ensures code { OnOk result (whats.new ≡ whats.old
        ++ arguments_code (scope_of names.now) (Some (functions.chosen op))
        (args_from (map arg_tree args.now))) }
{
    match args {
        [first, ..] => {
            let leading = value(alloc, names, whats, &first.value)?;
            let mut known = one(alloc, leading)?;
            known.append(further(alloc, names, whats, op, kind_of(leading.form), args)?)?;
            Ok(known)
        }
        [] => {
            whats.push(What::Const { k: Kind::K4, n: 0 })?;
            Ok(DcList::new(alloc))
        }
    }
}

/// Adds the instructions of arguments, as far as what is referred to evaluates them.
#[cycle(values)]
fn arguments(
    alloc: Global,
    names: &Names<'_>,
    whats: &mut DcList<What>,
    function: Option<Intrinsic>,
    args: &[Arg],
) -> Result<DcList<Known>, NoMemory>
    requires names { AreNamed names.now }
    requires held { IsTrue (are_held (args_from (map arg_tree args.now))) }
    ensures known { IfOk result (λ known. known
        ≡ knowing.known_args (scope_of names.now) (args_from (map arg_tree args.now))) }
    ensures code { OnOk result (whats.new ≡ whats.old
        ++ arguments_code (scope_of names.now) (option_map function_of function)
        (args_from (map arg_tree args.now))) }
{
    match function {
        None | Some(Intrinsic::Operation(_)) | Some(Intrinsic::Merge) => {
            values(alloc, names, whats, args)
        }
        Some(Intrinsic::Chosen(op)) => chosen(alloc, names, whats, op, args),
        Some(Intrinsic::Converted) => first_value(alloc, names, whats, args),
        Some(_) => known_args(alloc, &names.standing, args),
    }
}

/// Adds the instructions of a reference with arguments or subscripts.
#[cycle(values)]
fn reference(
    alloc: Global,
    names: &Names<'_>,
    whats: &mut DcList<What>,
    text: &[u8],
    args: &[Arg],
) -> Result<Known, NoMemory>
    requires names { AreNamed names.now }
    requires held { IsTrue (are_held (args_from (map arg_tree args.now))) }
    ensures known { IfOk result (λ known. known
        ≡ known_of (scope_of names.now) (refer text.now (args_from (map arg_tree args.now)))) }
    ensures code { OnOk result (whats.new ≡ whats.old
        ++ value_code (scope_of names.now) (refer text.now (args_from (map arg_tree args.now)))) }
{
    let found = find(&names.standing, names.numbering, text);
    let function = function_named(found, text);
    let known = arguments(alloc, names, whats, function, args)?;
    behind(names, whats, found, function, args, known.as_slice())?;
    Ok(known_referred(&names.standing, text, known.as_slice()))
}

/// Adds the instructions of an expression, and tells what is known of it.
#[cycle(values)]
#[tactic(auto, using(dc_tree::proofs::Views::expression_views, dc_sorts::proofs::Knowing::gathering, dc_sorts::proofs::Knowing::knowing))]
pub fn value(
    alloc: Global,
    names: &Names<'_>,
    whats: &mut DcList<What>,
    expr: &Expr,
) -> Result<Known, NoMemory>
    requires names { AreNamed names.now }
    requires held { IsTrue (is_held (tree expr.now)) }
    ensures known { IfOk result (λ known. known
        ≡ known_of (scope_of names.now) (tree expr.now)) }
    ensures code { OnOk result (whats.new
        ≡ whats.old ++ value_code (scope_of names.now) (tree expr.now)) }
{
    match expr {
        Expr::Number { digits, suffix } => number(names, whats, digits.as_bytes(), suffix),
        Expr::Truth(given) => truth(names, whats, *given),
        Expr::Chars(text) => chars(names, whats, text.as_bytes()),
        Expr::Name(text) => name(names, whats, text.as_bytes()),
        Expr::Refer { name, args } => {
            reference(alloc, names, whats, name.as_bytes(), args.as_slice())
        }
        Expr::Paren(inside) => value(alloc, names, whats, inside.get()),
        Expr::Unary { mark, right } => {
            let right = value(alloc, names, whats, right.get())?;
            led(whats, *mark, right.form)?;
            Ok(known_led(*mark, &right))
        }
        Expr::Binary { mark, left, right } => {
            let left = value(alloc, names, whats, left.get())?;
            let right = value(alloc, names, whats, right.get())?;
            joined(whats, *mark, joined_form(left.form, right.form))?;
            Ok(known_joined(*mark, &left, &right))
        }
    }
}

/// Adds the instructions of expressions, from left to right.
#[tactic(auto, using(dc_sorts::proofs::Knowing::gathering))]
pub(crate) fn each(
    alloc: Global,
    names: &Names<'_>,
    whats: &mut DcList<What>,
    exprs: &[Expr],
) -> Result<(), NoMemory>
    requires names { AreNamed names.now }
    requires held { IsTrue (list_all is_held (map tree exprs.now)) }
    ensures { OnOk result (whats.new
        ≡ whats.old ++ each_code (scope_of names.now) (map tree exprs.now)) }
{
    for expr in exprs {
        value(alloc, names, whats, expr)?;
    }
    Ok(())
}
