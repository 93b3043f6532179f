//! The rules on the arguments of references.

ghost use Rattle.std.specs.Prelude.{◌≡◌, option_map};
ghost use Rattle.dc_tree.specs.Findings.{least_with_all};
ghost use Rattle.dc_tree.specs.Intrinsics.{intrinsic};
ghost use Rattle.dc_sorts.specs.Standing.{standing_of};
ghost use Rattle.dc_operands.specs.Operands.{all_whole, call_findings, dummies_of, function_findings, reference_findings, subscript_findings};

use crate::argument::Argument;
use crate::fitting::{fit_all, some_breaks_fixed};
use crate::forms::is_whole;
use crate::taking::{none_keyed, takes};
use dc_sorts::{Meaning, Standing, intrinsic_named};
use dc_tree::LeastFinding;

/// What the dummies of a procedure mean in it, in their order.
pub fn dummies_of<'a>(standing: &Standing<'a>, number: u32) -> &'a [Meaning]
    ensures { result.now ≡ dummies_of (standing_of standing.now) number }
{
    if number == 0 {
        return &[];
    }
    match standing.callees.get(number as usize - 1) {
        Some(dummies) => dummies.as_slice(),
        None => &[],
    }
}

fn all_whole(arguments: &[Argument]) -> bool
    ensures { result ≡ all_whole arguments.now }
{
    for argument in arguments {
        if !is_whole(argument.form) {
            return false;
        }
    }
    true
}

/// Notes subscripts that are no INTEGERs.
#[tactic(auto, using(dc_tree::proofs::Findings::notes))]
pub fn note_subscripts(line: u32, arguments: &[Argument], found: &mut LeastFinding)
    ensures { found.new ≡ least_with_all found.old (subscript_findings line arguments.now) }
{
    found.note_if(!all_whole(arguments), 28, line);
    found.note_if(!none_keyed(arguments), 30, line);
}

/// Notes that arguments don't fit the dummies, or may not be defined through them.
#[tactic(auto, using(dc_tree::proofs::Findings::notes))]
pub fn note_call(line: u32, dummies: &[Meaning], arguments: &[Argument], found: &mut LeastFinding)
    ensures { found.new ≡ least_with_all found.old
        (call_findings line dummies.now arguments.now) }
{
    found.note_if(!fit_all(dummies, arguments), 30, line);
    found.note_if(some_breaks_fixed(dummies, arguments), 31, line);
}

fn note_function(line: u32, text: &[u8], arguments: &[Argument], found: &mut LeastFinding)
    ensures { found.new ≡ least_with_all found.old
        (function_findings line (intrinsic text.now) arguments.now) }
{
    match intrinsic_named(text) {
        Some(function) => found.note_if(!takes(function, arguments), 30, line),
        None => {}
    }
}

/// Notes what a reference breaks by its arguments.
pub(crate) fn note_reference(
    standing: &Standing,
    line: u32,
    text: &[u8],
    arguments: &[Argument],
    found: &mut LeastFinding,
)
    ensures { found.new ≡ least_with_all found.old
        (reference_findings (standing_of standing.now) line text.now arguments.now) }
{
    match standing.meaning(text) {
        Meaning::Variable { .. } => note_subscripts(line, arguments, found),
        Meaning::Procedure { number, .. } => {
            note_call(line, dummies_of(standing, number), arguments, found)
        }
        Meaning::Nothing => note_function(line, text, arguments, found),
        _ => {}
    }
}
