//! `lower`: the code of a program.

ghost use Rattle.std.specs.Prelude.{◌≡◌, IfOk};
ghost use Rattle.dc_tree.specs.Blocks.{source_of};
ghost use Rattle.dc_lower.specs.CodeOf.{IsCodeOf};
ghost use Rattle.dc_lower.specs.Lowerable.{IsLowerable};
ghost use Rattle.dc_lower.specs.Lowered.{lowered};

use crate::program::{Lists, code_lists};
use dc_code::Code;
use dc_text::NoMemory;
use dc_tree::{Program, Symbols};
use std::alloc::Global;

/// The code of a program that is run today and breaks no rule, with its declared names: its main
/// program, and behind it the header and the block of each loop. A code with more instructions than
/// there are places for wants memory too.
pub fn lower(alloc: Global, program: &Program, symbols: &Symbols) -> Result<Code, NoMemory>
    requires { IsLowerable symbols.now (source_of program.now) }
    ensures made { IfOk result (λ code. code ≡ lowered symbols.now (source_of program.now)) }
    ensures means { IfOk result (IsCodeOf symbols.now (source_of program.now)) }
{
    let Lists {
        instructions,
        texts,
        shapes,
        bounds,
        plans,
        entries,
        constructs,
    } = code_lists(alloc, program, symbols)?;
    Ok(Code::new(
        instructions,
        texts,
        shapes,
        bounds,
        plans,
        entries,
        constructs,
    ))
}
