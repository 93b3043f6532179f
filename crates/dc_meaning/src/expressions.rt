//! The values of expressions.

ghost use Rattle.std.specs.Prelude.{◌≡◌, map, IsTrue};
ghost use Rattle.std.specs.List.{list_all};
ghost use Rattle.dc_form.specs.BuiltPrograms.{is_held, are_held};
ghost use Rattle.dc_tree.specs.Syntax.{tree, arg_tree, args_from};
ghost use Rattle.dc_meaning.specs.Values as values;
ghost use Rattle.dc_meaning.specs.Walking.{Stays};
ghost use Rattle.dc_meaning.specs.WalkScope.{scope_of, own_of, IsWalk};

use crate::reading::value_at;
use crate::reference::{
    Evaluates, converted, evaluated, function_named, joined, led, referred, unevaluated,
};
use crate::stop::Stop;
use crate::walk::Walk;
use dc_entities::{find, held_number};
use dc_plain::Ledger;
use dc_text::DcList;
use dc_tree::{Arg, Expr};
use std::alloc::Global;

/// The value of an expression, at the line of its statement.
#[cycle(values)]
#[tactic(auto, using(dc_tree::proofs::Views::expression_views))]
pub fn value(
    alloc: Global,
    walk: &Walk<'_>,
    ledger: &mut Ledger,
    line: u32,
    expr: &Expr,
) -> Result<i64, Stop>
    requires walk { IsWalk walk.now }
    requires held { IsTrue (is_held (tree expr.now)) }
    ensures { Stays (λ z. z) (own_of walk.now) ledger.old
        (λ call. values.value (scope_of walk.now) call line (tree expr.now)) ledger.new result }
{
    match expr {
        Expr::Number { digits, .. } => Ok(held_number(digits.as_bytes())),
        Expr::Truth(given) => Ok(i64::from(*given)),
        Expr::Chars(_) => Ok(0),
        Expr::Name(text) => {
            let found = find(&walk.standing, walk.numbering, text.as_bytes());
            value_at(walk, ledger, line, found, &[])
        }
        Expr::Refer { name, args } => {
            let text = name.as_bytes();
            let args = args.as_slice();
            let found = find(&walk.standing, walk.numbering, text);
            let function = function_named(found, text);
            match evaluated(function) {
                Evaluates::All => {
                    let given = values_of(alloc, walk, ledger, line, args)?;
                    let given = given.as_slice();
                    referred(alloc, walk, ledger, line, found, function, args, given)
                }
                Evaluates::First => {
                    let given = first_value(alloc, walk, ledger, line, args)?;
                    Ok(converted(alloc, walk, args, given)?)
                }
                Evaluates::Nothing => match function {
                    Some(function) => unevaluated(alloc, walk, ledger, line, function, args),
                    None => unreachable!(),
                },
            }
        }
        Expr::Paren(inside) => value(alloc, walk, ledger, line, inside.get()),
        Expr::Unary { mark, right } => {
            let right = right.get();
            let a = value(alloc, walk, ledger, line, right)?;
            led(alloc, walk, line, *mark, right, a)
        }
        Expr::Binary { mark, left, right } => {
            let left = left.get();
            let right = right.get();
            let a = value(alloc, walk, ledger, line, left)?;
            let b = value(alloc, walk, ledger, line, right)?;
            joined(alloc, walk, line, *mark, left, right, a, b)
        }
    }
}

/// The values of arguments or subscripts, from left to right.
#[cycle(values)]
#[tactic(auto, using(dc_tree::proofs::Views::expression_views))]
fn values_of(
    alloc: Global,
    walk: &Walk<'_>,
    ledger: &mut Ledger,
    line: u32,
    args: &[Arg],
) -> Result<DcList<i64>, Stop>
    requires walk { IsWalk walk.now }
    requires held { IsTrue (are_held (args_from (map arg_tree args.now))) }
    ensures { Stays (λ zs. zs) (own_of walk.now) ledger.old
        (λ call. values.values (scope_of walk.now) call line (args_from (map arg_tree args.now)))
        ledger.new result }
{
    let mut given = DcList::new(alloc);
    for arg in args {
        given.push(value(alloc, walk, ledger, line, &arg.value)?)?;
    }
    Ok(given)
}

/// The value of the first argument.
#[cycle(values)]
#[tactic(auto, using(dc_tree::proofs::Views::expression_views))]
fn first_value(
    alloc: Global,
    walk: &Walk<'_>,
    ledger: &mut Ledger,
    line: u32,
    args: &[Arg],
) -> Result<i64, Stop>
    requires walk { IsWalk walk.now }
    requires held { IsTrue (are_held (args_from (map arg_tree args.now))) }
    ensures { Stays (λ z. z) (own_of walk.now) ledger.old
        (λ call. values.first_value (scope_of walk.now) call line (args_from (map arg_tree args.now)))
        ledger.new result }
{
    match args {
        [first, ..] => value(alloc, walk, ledger, line, &first.value),
        [] => Ok(0),
    }
}

/// The values of expressions, from left to right.
pub(crate) fn all_values(
    alloc: Global,
    walk: &Walk<'_>,
    ledger: &mut Ledger,
    line: u32,
    exprs: &[Expr],
) -> Result<DcList<i64>, Stop>
    requires walk { IsWalk walk.now }
    requires held { IsTrue (list_all is_held (map tree exprs.now)) }
    ensures { Stays (λ zs. zs) (own_of walk.now) ledger.old
        (λ call. values.all_values (scope_of walk.now) call line (map tree exprs.now))
        ledger.new result }
{
    let mut given = DcList::new(alloc);
    for expr in exprs {
        given.push(value(alloc, walk, ledger, line, expr)?)?;
    }
    Ok(given)
}
