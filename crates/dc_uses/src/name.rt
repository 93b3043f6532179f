//! Names alone and in front of arguments, and kinds behind numbers.

ghost use Rattle.std.specs.Prelude.{◌≡◌, is_some, map};
ghost use Rattle.dc_tree.specs.Findings.{least_with_all};
ghost use Rattle.dc_tree.specs.Intrinsics.{intrinsic};
ghost use Rattle.dc_tree.specs.Syntax.{args_from, arg_tree};
ghost use Rattle.dc_sorts.specs.Standing.{standing_of};
ghost use Rattle.dc_uses.specs.Uses.{undeclared_findings, name_findings, array_findings, suffix_findings, head_findings, count_of, misfits, reading_of};

use crate::constant::{note_kind_named, write_kind};
use crate::reading::{Reading, reading_of};
use dc_sorts::{Meaning, Standing, intrinsic_named};
use dc_tree::{Arg, LeastFinding, Suffix};

/// Whether a function of the language has this name.
#[tactic(auto, using(crate::proofs::Names::named))]
fn is_intrinsic(text: &[u8]) -> bool
    ensures { result ≡ is_some (intrinsic text.now) }
{
    intrinsic_named(text).is_some()
}

/// Notes that a name isn't declared, or is that of a function of the language and stands alone.
pub fn note_undeclared(line: u32, text: &[u8], found: &mut LeastFinding)
    ensures { found.new ≡ least_with_all found.old (undeclared_findings line text.now) }
{
    found.note(if is_intrinsic(text) { 21 } else { 20 }, line);
}

/// Notes what a name breaks where a scalar is asked.
pub fn note_name(standing: &Standing, line: u32, text: &[u8], found: &mut LeastFinding)
    ensures { found.new
        ≡ least_with_all found.old (name_findings (standing_of standing.now) line text.now) }
{
    match standing.meaning(text) {
        Meaning::Nothing => note_undeclared(line, text, found),
        Meaning::Variable { rank, .. } => found.note_if(rank != 0, 21, line),
        Meaning::Procedure { .. } => found.note(21, line),
        _ => {}
    }
}

/// Notes what a name breaks where an array is asked.
pub fn note_array(standing: &Standing, line: u32, text: &[u8], found: &mut LeastFinding)
    ensures { found.new
        ≡ least_with_all found.old (array_findings (standing_of standing.now) line text.now) }
{
    match standing.meaning(text) {
        Meaning::Nothing => note_undeclared(line, text, found),
        Meaning::Variable { rank, .. } => found.note_if(rank == 0, 21, line),
        _ => found.note(21, line),
    }
}

/// Notes what the kind behind a number breaks.
pub(crate) fn note_suffix(standing: &Standing, line: u32, suffix: &Suffix, found: &mut LeastFinding)
    ensures { found.new
        ≡ least_with_all found.old (suffix_findings (standing_of standing.now) line suffix.now) }
{
    match suffix {
        Suffix::Absent => {}
        Suffix::Digits(digits) => found.note_if(!write_kind(digits.as_bytes()), 22, line),
        Suffix::Named(text) => {
            note_name(standing, line, text.as_bytes(), found);
            note_kind_named(standing, line, text.as_bytes(), found);
        }
    }
}

/// Whether a variable of this rank stands in front of another number of subscripts.
pub fn misfits(rank: usize, count: usize) -> bool
    ensures { result ≡ misfits rank count }
{
    rank == 0 || count != rank
}

/// Notes what a name breaks in front of arguments or subscripts, and tells how the first of them
/// is read.
#[tactic(auto, using(crate::proofs::Names::counted))]
pub(crate) fn note_head(
    standing: &Standing,
    line: u32,
    text: &[u8],
    args: &[Arg],
    found: &mut LeastFinding,
) -> Reading
    ensures reading { result ≡ reading_of (standing_of standing.now) text.now }
    ensures findings { found.new ≡ least_with_all found.old
        (head_findings (standing_of standing.now) line text.now
        (count_of (args_from (map arg_tree args.now)))) }
{
    match standing.meaning(text) {
        Meaning::Nothing => found.note_if(!is_intrinsic(text), 20, line),
        Meaning::Variable { rank, .. } => found.note_if(misfits(rank, args.len()), 21, line),
        Meaning::Procedure { function: true, .. } => {}
        _ => found.note(21, line),
    }
    reading_of(standing, text)
}
