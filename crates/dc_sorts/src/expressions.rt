//! What is known of whole expressions.

ghost use Rattle.std.specs.Prelude.{◌≡◌, map, IfOk};
ghost use Rattle.dc_tree.specs.Syntax.{arg_tree, args_from, chars, tree};
ghost use Rattle.dc_sorts.specs.Knowing.{known_args, known_of};
ghost use Rattle.dc_sorts.specs.Standing.{scope_at, standing_of};

use crate::called::known_referred;
use crate::form::Form;
use crate::known::{Known, known_joined, known_led, known_truth};
use crate::naming::{known_name, known_number};
use crate::standing::Standing;
use dc_text::{DcList, NoMemory};
use dc_tree::{Arg, Expr};
use std::alloc::Global;

/// What is known of a character literal, which is of no form that is asked.
pub fn known_chars(_standing: &Standing, _text: &[u8]) -> Known
    ensures { result ≡ known_of (scope_at (standing_of _standing.now)) (chars _text.now) }
{
    Known {
        form: Form::Logical,
        constant: false,
        value: None,
    }
}

/// What is known of each of some arguments.
#[cycle(knowing)]
#[tactic(auto, using(dc_tree::proofs::Views::expression_views, crate::proofs::Knowing::gathering))]
pub fn known_args(
    alloc: Global,
    standing: &Standing,
    args: &[Arg],
) -> Result<DcList<Known>, NoMemory>
    ensures { IfOk result (λ known. known
        ≡ known_args (scope_at (standing_of standing.now)) (args_from (map arg_tree args.now))) }
{
    let mut known = DcList::new(alloc);
    for arg in args {
        known.push(known_expr(alloc, standing, &arg.value)?)?;
    }
    Ok(known)
}

/// What is known of an expression.
#[cycle(knowing)]
#[tactic(auto, using(dc_tree::proofs::Views::expression_views, crate::proofs::Knowing::knowing))]
pub fn known_expr(alloc: Global, standing: &Standing, expr: &Expr) -> Result<Known, NoMemory>
    ensures { IfOk result (λ known. known
        ≡ known_of (scope_at (standing_of standing.now)) (tree expr.now)) }
{
    match expr {
        Expr::Number { digits, suffix } => Ok(known_number(standing, digits.as_bytes(), suffix)),
        Expr::Truth(value) => Ok(known_truth(standing, *value)),
        Expr::Chars(text) => Ok(known_chars(standing, text.as_bytes())),
        Expr::Name(text) => Ok(known_name(standing, text.as_bytes())),
        Expr::Refer { name, args } => {
            let known = known_args(alloc, standing, args.as_slice())?;
            Ok(known_referred(standing, name.as_bytes(), known.as_slice()))
        }
        Expr::Paren(inside) => known_expr(alloc, standing, inside.get()),
        Expr::Unary { mark, right } => {
            let right = known_expr(alloc, standing, right.get())?;
            Ok(known_led(*mark, &right))
        }
        Expr::Binary { mark, left, right } => {
            let left = known_expr(alloc, standing, left.get())?;
            let right = known_expr(alloc, standing, right.get())?;
            Ok(known_joined(*mark, &left, &right))
        }
    }
}
