//! The names in expressions, from the outside in.

ghost use Rattle.std.specs.Prelude.{◌≡◌, map, OnOk};
ghost use Rattle.dc_tree.specs.Findings.{least_with_all};
ghost use Rattle.dc_tree.specs.Syntax.{tree, arg_tree, args_from};
ghost use Rattle.dc_sorts.specs.Standing.{standing_of};
ghost use Rattle.dc_uses.specs.Uses.{is_dimension, dimension_findings, asked_findings, use_findings, argument_findings};

use crate::evaluating::{note_kind, whole_constant};
use crate::name::{note_array, note_head, note_name, note_suffix};
use crate::reading::{Reading, array_named, reading_behind};
use dc_sorts::Standing;
use dc_text::{DcList, NoMemory};
use dc_tree::{Arg, Expr, LeastFinding};
use std::alloc::Global;

fn is_dimension(rank: Option<usize>, value: i64) -> bool
    ensures { result ≡ is_dimension rank value }
{
    match rank {
        Some(rank) => 1 <= value && value as i128 <= rank as i128,
        None => true,
    }
}

/// Notes that there is no such dimension of an array.
fn note_dimension(line: u32, rank: Option<usize>, value: Option<i64>, found: &mut LeastFinding)
    ensures { found.new ≡ least_with_all found.old (dimension_findings line rank value) }
{
    match value {
        Some(value) => found.note_if(!is_dimension(rank, value), 23, line),
        None => found.note(23, line),
    }
}

/// Notes what an argument breaks by what is asked of it, beside the names in it.
fn note_asked(
    alloc: Global,
    standing: &Standing,
    line: u32,
    reading: Reading,
    expr: &Expr,
    found: &mut LeastFinding,
) -> Result<(), NoMemory>
    ensures { OnOk result (found.new ≡ least_with_all found.old
        (asked_findings (standing_of standing.now) line reading (tree expr.now))) }
{
    match reading {
        Reading::Dimension(rank) => {
            note_dimension(line, rank, whole_constant(alloc, standing, expr)?, found);
            Ok(())
        }
        Reading::Kind => note_kind(alloc, standing, line, expr, found),
        _ => Ok(()),
    }
}

/// Notes what an expression breaks by the names in it.
#[cycle(uses)]
#[tactic(auto, using(dc_tree::proofs::Views::expression_views, dc_tree::proofs::Findings::notes))]
pub fn note_uses(
    alloc: Global,
    standing: &Standing,
    line: u32,
    expr: &Expr,
    found: &mut LeastFinding,
) -> Result<(), NoMemory>
    ensures { OnOk result (found.new
        ≡ least_with_all found.old (use_findings (standing_of standing.now) line (tree expr.now))) }
{
    match expr {
        Expr::Number { suffix, .. } => note_suffix(standing, line, suffix, found),
        Expr::Truth(_) | Expr::Chars(_) => {}
        Expr::Name(text) => note_name(standing, line, text.as_bytes(), found),
        Expr::Refer { name, args } => {
            let first = note_head(standing, line, name.as_bytes(), args.as_slice(), found);
            note_arguments(alloc, standing, line, first, args, found)?;
        }
        Expr::Paren(inside) => note_uses(alloc, standing, line, inside.get(), found)?,
        Expr::Unary { right, .. } => note_uses(alloc, standing, line, right.get(), found)?,
        Expr::Binary { left, right, .. } => {
            note_uses(alloc, standing, line, left.get(), found)?;
            note_uses(alloc, standing, line, right.get(), found)?;
        }
    }
    Ok(())
}

/// Notes what arguments break, the first of which is read in this way.
#[cycle(uses)]
#[tactic(auto, using(dc_tree::proofs::Views::expression_views, dc_tree::proofs::Findings::notes))]
fn note_arguments(
    alloc: Global,
    standing: &Standing,
    line: u32,
    first: Reading,
    args: &DcList<Arg>,
    found: &mut LeastFinding,
) -> Result<(), NoMemory>
    ensures { OnOk result (found.new ≡ least_with_all found.old
        (argument_findings (standing_of standing.now) line first
        (args_from (map arg_tree args.now)))) }
{
    let mut reading = first;
    for arg in args.as_slice() {
        match array_named(reading, &arg.value) {
            Some(text) => note_array(standing, line, text.as_bytes(), found),
            None => note_uses(alloc, standing, line, &arg.value, found)?,
        }
        note_asked(alloc, standing, line, reading, &arg.value, found)?;
        reading = reading_behind(standing, reading, &arg.value);
    }
    Ok(())
}
