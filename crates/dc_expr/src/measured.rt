//! Trees with their depth. A tree of a greater depth than 256 is never built: `None` stands for it.

ghost use Rattle.std.specs.Prelude.{◌≡◌, Some, IfOk};
ghost use Rattle.dc_tree.specs.Syntax.{number, truth, name};
ghost use Rattle.dc_expr.specs.Limited.{kept_refer, kept_paren, kept_unary, kept_binary, kept_with};
ghost use Rattle.dc_expr.specs.Views.{kept, kept_args};

use dc_text::{DcBox, DcList, DcText, NoMemory};
use dc_tree::{Arg, Expr, Mark, Suffix};
use std::alloc::Global;

const MOST_DEPTH: usize = 256;

/// A tree and its depth.
#[derive(Drop)]
pub(crate) struct Measured {
    pub tree: Expr,
    pub depth: usize,
}

/// The arguments of a reference, and the greatest depth among them.
#[derive(Drop)]
pub(crate) struct Args {
    pub list: DcList<Arg>,
    pub depth: usize,
}

fn copied(alloc: Global, suffix: &Suffix) -> Result<Suffix, NoMemory>
    ensures { IfOk result (λ made. made ≡ suffix.now) }
{
    match suffix {
        Suffix::Absent => Ok(Suffix::Absent),
        Suffix::Digits(digits) => Ok(Suffix::Digits(digits.copy(alloc)?)),
        Suffix::Named(name) => Ok(Suffix::Named(name.copy(alloc)?)),
    }
}

pub(crate) fn number(
    alloc: Global,
    digits: &DcText,
    suffix: &Suffix,
) -> Result<Option<Measured>, NoMemory>
    ensures { IfOk result (λ value. kept value ≡ Some (number digits.now suffix.now, 1)) }
{
    let digits = digits.copy(alloc)?;
    let suffix = copied(alloc, suffix)?;
    let tree = Expr::Number { digits, suffix };
    Ok(Some(Measured { tree, depth: 1 }))
}

pub(crate) fn truth(value: bool) -> Option<Measured>
    ensures { kept result ≡ Some (truth value, 1) }
{
    let tree = Expr::Truth(value);
    Some(Measured { tree, depth: 1 })
}

pub(crate) fn name(word: DcText) -> Option<Measured>
    ensures { kept result ≡ Some (name word, 1) }
{
    let tree = Expr::Name(word);
    Some(Measured { tree, depth: 1 })
}

pub(crate) fn refer(name: DcText, args: Option<Args>) -> Option<Measured>
    ensures { kept result ≡ kept_refer name (kept_args args) }
{
    let Args { list, depth } = args?;
    if depth >= MOST_DEPTH {
        return None;
    }
    let tree = Expr::Refer { name, args: list };
    Some(Measured {
        tree,
        depth: depth + 1,
    })
}

pub(crate) fn paren(alloc: Global, inside: Option<Measured>) -> Result<Option<Measured>, NoMemory>
    ensures { IfOk result (λ value. kept value ≡ kept_paren (kept inside)) }
{
    let Some(inside) = inside else {
        return Ok(None);
    };
    let Measured { tree, depth } = inside;
    if depth >= MOST_DEPTH {
        return Ok(None);
    }
    let tree = Expr::Paren(DcBox::new(alloc, tree)?);
    Ok(Some(Measured {
        tree,
        depth: depth + 1,
    }))
}

pub(crate) fn unary(
    alloc: Global,
    mark: Mark,
    right: Option<Measured>,
) -> Result<Option<Measured>, NoMemory>
    ensures { IfOk result (λ value. kept value ≡ kept_unary mark (kept right)) }
{
    let Some(right) = right else {
        return Ok(None);
    };
    let Measured { tree, depth } = right;
    if depth >= MOST_DEPTH {
        return Ok(None);
    }
    let right = DcBox::new(alloc, tree)?;
    let tree = Expr::Unary { mark, right };
    Ok(Some(Measured {
        tree,
        depth: depth + 1,
    }))
}

pub(crate) fn binary(
    alloc: Global,
    mark: Mark,
    left: Option<Measured>,
    right: Option<Measured>,
) -> Result<Option<Measured>, NoMemory>
    ensures { IfOk result (λ value. kept value ≡ kept_binary mark (kept left) (kept right)) }
{
    let Some(left) = left else {
        return Ok(None);
    };
    let Some(right) = right else {
        return Ok(None);
    };
    let depth = left.depth.max(right.depth);
    if depth >= MOST_DEPTH {
        return Ok(None);
    }
    let left = DcBox::new(alloc, left.tree)?;
    let right = DcBox::new(alloc, right.tree)?;
    let tree = Expr::Binary { mark, left, right };
    Ok(Some(Measured {
        tree,
        depth: depth + 1,
    }))
}

/// Arguments with one more at their end.
pub(crate) fn with_arg(
    args: Option<Args>,
    keyed: bool,
    value: Option<Measured>,
) -> Result<Option<Args>, NoMemory>
    ensures { IfOk result (λ more. kept_args more ≡ kept_with (kept_args args) keyed (kept value)) }
{
    let Some(args) = args else {
        return Ok(None);
    };
    let Some(value) = value else {
        return Ok(None);
    };
    let Args { mut list, depth } = args;
    let depth = depth.max(value.depth);
    list.push(Arg {
        keyed,
        value: value.tree,
    })?;
    Ok(Some(Args { list, depth }))
}
