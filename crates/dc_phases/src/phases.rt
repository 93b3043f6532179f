//! The phases in their order.

ghost use Rattle.dc_phases.specs.Answer.{Answers};

use crate::statements::all_statements;
use crate::tokened::all_tokens;
use dc_lines::split;
use dc_nest::nest;
use dc_tree::{Fail, Program};
use std::alloc::Global;

/// The longest source.
const MOST_BYTES: usize = 1_048_576;

const LONG_SOURCE: u8 = 1;

/// Gives the program that a source spells, or its first refusal: the first of the phases size, lines,
/// tokens, statements and nesting with a broken rule, and in it of the rules on the least line the
/// least.
pub fn read_program(alloc: Global, text: &[u8]) -> Result<Program, Fail>
    ensures { Answers text.now result }
{
    if text.len() > MOST_BYTES {
        return Err(Fail::refused(LONG_SOURCE, 1));
    }
    let statements = split(alloc, text)?;
    let tokens = all_tokens(alloc, statements)?;
    let list = all_statements(alloc, tokens)?;
    nest(alloc, list)
}
