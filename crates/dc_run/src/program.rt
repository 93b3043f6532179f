//! The run of a main program: its code is made, and the code is run.

ghost use Rattle.std.specs.Prelude.{◌≡◌, ◌<◌, ◌↔◌, IsTrue, IfOk, List, length, ℕ};
ghost use Rattle.dc_tree.specs.Blocks.{Source, source_of};
ghost use Rattle.dc_lower.specs.Lowerable.{IsLowerable};
ghost use Rattle.dc_lower.specs.Lowered.{lowered};
ghost use Rattle.dc_run.specs.Answered.{IsRunOf, NamesOwn};

use crate::ending::RunOut;
use crate::loops::loop_places;
use crate::running::{begin, run_code};
use crate::standing::Task;
use dc_code::Code;
use dc_entities::Numbering;
use dc_lower::lower;
use dc_text::NoMemory;
use dc_tree::{Program, Symbols};
use std::alloc::Global;

/// Whether each instruction has a place that a machine's word holds.
fn has_places(code: &Code) -> bool
    ensures { IsTrue result ↔ length code.now.instructions < 4294967296 }
{
    code.instructions().len() < 4_294_967_296
}

/// Runs a program by its code.
fn run_lowered(
    alloc: Global,
    program: &Program,
    symbols: &Symbols,
    code: &Code,
    turns: u64,
) -> Result<RunOut, NoMemory>
    ghost source: { Source }
    requires source { source ≡ source_of program.now }
    requires lowerable { IsLowerable symbols.now source }
    requires code { code.now ≡ lowered symbols.now source }
    requires few { length code.now.instructions < 4294967296 }
    ensures is { IfOk result (λ out. (given : List ℕ)
        → IsRunOf symbols.entry.now source turns given out) }
    ensures owns { IfOk result (λ out. NamesOwn symbols.entry.now out.ending) }
{
    let numbering = Numbering::new(alloc, symbols)?;
    let nodes = program.body.nodes.as_slice();
    let loops = loop_places(alloc, nodes)?;
    let task = Task {
        symbols,
        numbering: &numbering,
        code,
        nodes,
        loops: loops.as_slice(),
        turns,
    };
    let mut standing = begin(alloc, symbols, code)?;
    let ending = run_code(alloc, task, turns, &mut standing)?;
    Ok(RunOut {
        output: standing.output,
        ending,
    })
}

/// Runs a main program with so many turns, and as many for each iteration: what it writes, and how it ends.
pub(crate) fn run_program(
    alloc: Global,
    program: &Program,
    symbols: &Symbols,
    turns: u64,
) -> Result<RunOut, NoMemory>
    requires { IsLowerable symbols.now (source_of program.now) }
    ensures is { IfOk result (λ out. (given : List ℕ)
        → IsRunOf symbols.now (source_of program.now) turns given out) }
    ensures owns { IfOk result (λ out. NamesOwn symbols.now out.ending) }
{
    let code = lower(alloc, program, symbols)?;
    if has_places(&code) {
        run_lowered(alloc, program, symbols, &code, turns)
    } else {
        Err(NoMemory)
    }
}
