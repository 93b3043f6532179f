//! The rules on operands and arguments.

ghost use Rattle.std.specs.Prelude.{◌≡◌, map, IfOk, OnOk};
ghost use Rattle.dc_tree.specs.Findings.{least_with_all};
ghost use Rattle.dc_tree.specs.Syntax.{arg_tree, args_from, refer, tree};
ghost use Rattle.dc_sorts.specs.Knowing.{known_args};
ghost use Rattle.dc_sorts.specs.Standing.{scope_at, standing_of};
ghost use Rattle.dc_operands.specs.Operands.{argument_with, element_argument, named_argument, known_at, operand_findings, operand_findings_in, arguments_of, plain_arguments, each_operand_findings};

use crate::argument::Argument;
use crate::operating::{is_array, is_variable, takes_one, takes_two};
use crate::references::note_reference;
use dc_sorts::{
    Form, Known, Standing, known_chars, known_joined, known_led, known_name, known_number,
    known_referred, known_truth,
};
use dc_text::{DcList, NoMemory};
use dc_tree::{Arg, Expr, LeastFinding};
use std::alloc::Global;

fn named_argument(standing: &Standing, keyed: bool, form: Form, text: &[u8]) -> Argument
    ensures { result ≡ named_argument (standing_of standing.now) keyed form text.now }
{
    Argument {
        keyed,
        form,
        is_name: true,
        is_variable: is_variable(standing.meaning(text)),
        is_fixed: standing.is_fixed(text),
    }
}

fn element_argument(standing: &Standing, keyed: bool, form: Form, text: &[u8]) -> Argument
    ensures { result ≡ element_argument (standing_of standing.now) keyed form text.now }
{
    Argument {
        keyed,
        form,
        is_name: false,
        is_variable: is_array(standing.meaning(text)),
        is_fixed: standing.is_fixed(text),
    }
}

#[tactic(auto, using(dc_tree::proofs::Views::expression_views))]
fn argument_with(standing: &Standing, keyed: bool, form: Form, expr: &Expr) -> Argument
    ensures { result ≡ argument_with (standing_of standing.now) keyed form (tree expr.now) }
{
    match expr {
        Expr::Name(text) => named_argument(standing, keyed, form, text.as_bytes()),
        Expr::Refer { name, .. } => element_argument(standing, keyed, form, name.as_bytes()),
        _ => Argument {
            keyed,
            form,
            is_name: false,
            is_variable: false,
            is_fixed: false,
        },
    }
}

/// What is known of each argument, and the arguments as the rules see them.
#[derive(Drop)]
struct Seen {
    known: DcList<Known>,
    arguments: DcList<Argument>,
}

#[cycle(operands)]
#[tactic(auto, using(dc_tree::proofs::Views::expression_views, dc_tree::proofs::Findings::notes, crate::proofs::Gathering::gathering))]
fn note_each(
    alloc: Global,
    standing: &Standing,
    line: u32,
    args: &[Arg],
    found: &mut LeastFinding,
) -> Result<Seen, NoMemory>
    ensures known { IfOk result (λ seen. seen.known
        ≡ known_args (scope_at (standing_of standing.now)) (args_from (map arg_tree args.now))) }
    ensures arguments { IfOk result (λ seen. seen.arguments
        ≡ arguments_of (standing_of standing.now) (args_from (map arg_tree args.now))) }
    ensures findings { OnOk result (found.new ≡ least_with_all found.old
        (operand_findings_in (standing_of standing.now) line (args_from (map arg_tree args.now)))) }
{
    let mut known = DcList::new(alloc);
    let mut arguments = DcList::new(alloc);
    for arg in args {
        let one = note_operands(alloc, standing, line, &arg.value, found)?;
        arguments.push(argument_with(standing, arg.keyed, one.form, &arg.value))?;
        known.push(one)?;
    }
    Ok(Seen { known, arguments })
}

/// Notes the operands and arguments in an expression that are wrong, and gives what is known of it.
#[cycle(operands)]
#[tactic(auto, using(dc_tree::proofs::Views::expression_views, dc_tree::proofs::Findings::notes, dc_sorts::proofs::Knowing::knowing))]
pub fn note_operands(
    alloc: Global,
    standing: &Standing,
    line: u32,
    expr: &Expr,
    found: &mut LeastFinding,
) -> Result<Known, NoMemory>
    ensures known { IfOk result (λ known. known
        ≡ known_at (standing_of standing.now) (tree expr.now)) }
    ensures findings { OnOk result (found.new ≡ least_with_all found.old
        (operand_findings (standing_of standing.now) line (tree expr.now))) }
{
    match expr {
        Expr::Number { digits, suffix } => Ok(known_number(standing, digits.as_bytes(), suffix)),
        Expr::Truth(value) => Ok(known_truth(standing, *value)),
        Expr::Chars(text) => Ok(known_chars(standing, text.as_bytes())),
        Expr::Name(text) => Ok(known_name(standing, text.as_bytes())),
        Expr::Refer { name, args } => {
            let seen = note_each(alloc, standing, line, args.as_slice(), found)?;
            let arguments = seen.arguments.as_slice();
            note_reference(standing, line, name.as_bytes(), arguments, found);
            Ok(known_referred(standing, name.as_bytes(), seen.known.as_slice()))
        }
        Expr::Paren(inside) => note_operands(alloc, standing, line, inside.get(), found),
        Expr::Unary { mark, right } => {
            let right = note_operands(alloc, standing, line, right.get(), found)?;
            found.note_if(!takes_one(*mark, right.form), 28, line);
            Ok(known_led(*mark, &right))
        }
        Expr::Binary { mark, left, right } => {
            let left = note_operands(alloc, standing, line, left.get(), found)?;
            let right = note_operands(alloc, standing, line, right.get(), found)?;
            found.note_if(!takes_two(*mark, left.form, right.form), 28, line);
            Ok(known_joined(*mark, &left, &right))
        }
    }
}

/// Notes the operands and arguments in expressions that are wrong, and gives the expressions as
/// arguments of CALL.
#[tactic(auto, using(dc_tree::proofs::Findings::notes, crate::proofs::Gathering::gathering))]
pub fn note_arguments(
    alloc: Global,
    standing: &Standing,
    line: u32,
    exprs: &[Expr],
    found: &mut LeastFinding,
) -> Result<DcList<Argument>, NoMemory>
    ensures arguments { IfOk result (λ arguments. arguments
        ≡ plain_arguments (standing_of standing.now) (map tree exprs.now)) }
    ensures findings { OnOk result (found.new ≡ least_with_all found.old
        (each_operand_findings (standing_of standing.now) line (map tree exprs.now))) }
{
    let mut arguments = DcList::new(alloc);
    for expr in exprs {
        let seen = note_operands(alloc, standing, line, expr, found)?;
        arguments.push(argument_with(standing, false, seen.form, expr))?;
    }
    Ok(arguments)
}
