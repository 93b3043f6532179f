//! How arguments are read.

ghost use Rattle.std.specs.Prelude.{◌≡◌, option_map};
ghost use Rattle.std.specs.Option.{option_copied};
ghost use Rattle.dc_tree.specs.Syntax.{tree};
ghost use Rattle.dc_sorts.specs.Functions.{function_of};
ghost use Rattle.dc_sorts.specs.Standing.{standing_of};
ghost use Rattle.dc_uses.specs.Uses.{reading_by, reading_of, reading_undeclared, rank_of, reading_behind, asks_array, array_named};

use dc_sorts::{Intrinsic, Meaning, Standing, intrinsic_named};
use dc_text::DcText;
use dc_tree::Expr;

/// What is asked of an argument: the array of an inquiry; an array that is gone over; the dimension
/// of an inquiry, in an array of this rank if its first argument is one; the number that INT
/// converts; the kind to which it does; or any value.
#[derive(Clone, Copy, Debug, PartialEq, Eq)]
pub enum Reading {
    Asked,
    Array,
    Dimension(Option<usize>),
    Converted,
    Kind,
    Value,
}

fn reading_by(function: Intrinsic) -> Reading
    ensures { result ≡ reading_by (function_of function) }
{
    match function {
        Intrinsic::Size | Intrinsic::LowerBound | Intrinsic::UpperBound => Reading::Asked,
        Intrinsic::Total | Intrinsic::Count | Intrinsic::Any | Intrinsic::All => Reading::Array,
        Intrinsic::Converted => Reading::Converted,
        _ => Reading::Value,
    }
}

fn reading_undeclared(function: Option<Intrinsic>) -> Reading
    ensures { result ≡ reading_undeclared (option_map function_of function) }
{
    match function {
        Some(function) => reading_by(function),
        None => Reading::Value,
    }
}

/// How the first argument behind a name is read.
pub(crate) fn reading_of(standing: &Standing, text: &[u8]) -> Reading
    ensures { result ≡ reading_of (standing_of standing.now) text.now }
{
    match standing.meaning(text) {
        Meaning::Nothing => reading_undeclared(intrinsic_named(text)),
        _ => Reading::Value,
    }
}

#[tactic(auto, using(dc_tree::proofs::Views::expression_views))]
fn rank_of(standing: &Standing, expr: &Expr) -> Option<usize>
    ensures { result ≡ rank_of (standing_of standing.now) (tree expr.now) }
{
    let Expr::Name(text) = expr else {
        return None;
    };
    match standing.meaning(text.as_bytes()) {
        Meaning::Variable { rank, .. } if rank > 0 => Some(rank),
        _ => None,
    }
}

/// How the argument behind one is read.
pub(crate) fn reading_behind(standing: &Standing, reading: Reading, expr: &Expr) -> Reading
    ensures { result ≡ reading_behind (standing_of standing.now) reading (tree expr.now) }
{
    match reading {
        Reading::Asked => Reading::Dimension(rank_of(standing, expr)),
        Reading::Converted => Reading::Kind,
        _ => Reading::Value,
    }
}

/// Whether an array is asked for, which a name alone can be.
fn asks_array(reading: Reading) -> bool
    ensures { result ≡ asks_array reading }
{
    matches!(reading, Reading::Asked | Reading::Array)
}

/// The name that stands where an array is asked for.
#[tactic(auto, using(dc_tree::proofs::Views::expression_views))]
pub(crate) fn array_named(reading: Reading, expr: &Expr) -> Option<&DcText>
    ensures { option_copied result ≡ array_named reading (tree expr.now) }
{
    match expr {
        Expr::Name(text) if asks_array(reading) => Some(text),
        _ => None,
    }
}
