//! Expressions: the numbers in them, and the names.

ghost use Rattle.std.specs.Prelude.{◌≡◌, map, nat_le};
ghost use Rattle.std.specs.List.{list_all};
ghost use Rattle.dc_form.specs.BuiltPrograms.{is_held, are_held, mentions, some_mentions};
ghost use Rattle.dc_tree.specs.Literals.{number_of};
ghost use Rattle.dc_tree.specs.Syntax.{tree, arg_tree, args_from};

use crate::capping::number_of;
use dc_tree::{Arg, Expr};

/// The greatest number that is held.
const GREATEST: u64 = 9_223_372_036_854_775_807;

#[tactic(auto, using(crate::proofs::Capped::capping))]
fn is_held_number(digits: &[u8]) -> bool
    ensures { result ≡ nat_le (number_of digits.now) 9223372036854775807 }
{
    number_of(digits) <= GREATEST
}

#[cycle(held)]
#[tactic(auto, using(dc_tree::proofs::Views::expression_views, std::proofs::lemmas::List::drop_more))]
fn are_held(args: &[Arg]) -> bool
    ensures { result ≡ are_held (args_from (map arg_tree args.now)) }
{
    for arg in args {
        if !is_held(&arg.value) {
            return false;
        }
    }
    true
}

/// Whether the numbers of an expression are held.
#[cycle(held)]
#[tactic(auto, using(dc_tree::proofs::Views::expression_views, std::proofs::lemmas::List::drop_more))]
pub(crate) fn is_held(value: &Expr) -> bool
    ensures { result ≡ is_held (tree value.now) }
{
    match value {
        Expr::Number { digits, .. } => is_held_number(digits.as_bytes()),
        Expr::Refer { args, .. } => are_held(args.as_slice()),
        Expr::Paren(inside) => is_held(inside.get()),
        Expr::Unary { right, .. } => is_held(right.get()),
        Expr::Binary { left, right, .. } => is_held(left.get()) && is_held(right.get()),
        _ => true,
    }
}

/// Whether the numbers of all these expressions are held.
#[tactic(auto, using(std::proofs::lemmas::List::drop_more))]
pub(crate) fn all_held(values: &[Expr]) -> bool
    ensures { result ≡ list_all is_held (map tree values.now) }
{
    for value in values {
        if !is_held(value) {
            return false;
        }
    }
    true
}

#[cycle(mentioned)]
#[tactic(auto, using(dc_tree::proofs::Views::expression_views, std::proofs::lemmas::List::drop_more))]
fn some_mentions(asked: &[u8], args: &[Arg]) -> bool
    ensures { result ≡ some_mentions asked.now (args_from (map arg_tree args.now)) }
{
    for arg in args {
        if mentions(asked, &arg.value) {
            return true;
        }
    }
    false
}

/// Whether an expression refers to what has this name.
#[cycle(mentioned)]
#[tactic(auto, using(dc_tree::proofs::Views::expression_views, std::proofs::lemmas::List::drop_more))]
pub(crate) fn mentions(asked: &[u8], value: &Expr) -> bool
    ensures { result ≡ mentions asked.now (tree value.now) }
{
    match value {
        Expr::Name(name) => name.as_bytes() == asked,
        Expr::Refer { name, args } => {
            name.as_bytes() == asked || some_mentions(asked, args.as_slice())
        }
        Expr::Paren(inside) => mentions(asked, inside.get()),
        Expr::Unary { right, .. } => mentions(asked, right.get()),
        Expr::Binary { left, right, .. } => {
            mentions(asked, left.get()) || mentions(asked, right.get())
        }
        _ => false,
    }
}
