//! The rule on numbers: each is in the range of its kind.

ghost use Rattle.std.specs.Prelude.{◌≡◌, map};
ghost use Rattle.dc_tree.specs.Findings.{least_with_all};
ghost use Rattle.dc_tree.specs.Syntax.{arg_tree, args_from, number, tree};
ghost use Rattle.dc_sorts.specs.Standing.{standing_of};
ghost use Rattle.dc_operands.specs.Operands.{each_number_findings, is_out_of_kind, number_findings, number_findings_in};

use dc_sorts::{Known, Standing, known_number};
use dc_tree::{Arg, Expr, LeastFinding, Suffix};

fn is_out_of_kind(known: &Known) -> bool
    ensures { result ≡ is_out_of_kind known.now }
{
    known.constant && known.value.is_none()
}

fn note_number(
    standing: &Standing,
    line: u32,
    digits: &[u8],
    suffix: &Suffix,
    found: &mut LeastFinding,
)
    ensures { found.new ≡ least_with_all found.old
        (number_findings (standing_of standing.now) line (number digits.now suffix.now)) }
{
    let known = known_number(standing, digits, suffix);
    found.note_if(is_out_of_kind(&known), 29, line);
}

#[cycle(numbers)]
#[tactic(auto, using(dc_tree::proofs::Views::expression_views, dc_tree::proofs::Findings::notes))]
fn note_numbers_in(standing: &Standing, line: u32, args: &[Arg], found: &mut LeastFinding)
    ensures { found.new ≡ least_with_all found.old
        (number_findings_in (standing_of standing.now) line (args_from (map arg_tree args.now))) }
{
    for arg in args {
        note_numbers(standing, line, &arg.value, found);
    }
}

/// Notes the numbers in an expression that aren't in the range of their kind.
#[cycle(numbers)]
#[tactic(auto, using(dc_tree::proofs::Views::expression_views, dc_tree::proofs::Findings::notes))]
pub fn note_numbers(standing: &Standing, line: u32, expr: &Expr, found: &mut LeastFinding)
    ensures { found.new ≡ least_with_all found.old
        (number_findings (standing_of standing.now) line (tree expr.now)) }
{
    match expr {
        Expr::Number { digits, suffix } => {
            note_number(standing, line, digits.as_bytes(), suffix, found)
        }
        Expr::Refer { args, .. } => note_numbers_in(standing, line, args.as_slice(), found),
        Expr::Paren(inside) => note_numbers(standing, line, inside.get(), found),
        Expr::Unary { right, .. } => note_numbers(standing, line, right.get(), found),
        Expr::Binary { left, right, .. } => {
            note_numbers(standing, line, left.get(), found);
            note_numbers(standing, line, right.get(), found);
        }
        _ => {}
    }
}

/// Notes the numbers in expressions that aren't in the range of their kind.
#[tactic(auto, using(dc_tree::proofs::Findings::notes))]
pub fn note_all_numbers(standing: &Standing, line: u32, exprs: &[Expr], found: &mut LeastFinding)
    ensures { found.new ≡ least_with_all found.old
        (each_number_findings (standing_of standing.now) line (map tree exprs.now)) }
{
    for expr in exprs {
        note_numbers(standing, line, expr, found);
    }
}
