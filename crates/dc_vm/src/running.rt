//! The run of a code.

ghost use Rattle.std.specs.Prelude.{◌≡◌, ◌<◌, length, slice_get};
ghost use Rattle.dc_code.specs.Machine.{machine, bound};
ghost use Rattle.dc_code.specs.OverCells.{over_cells};
ghost use Rattle.dc_steps.specs.Ending.{Ends};
ghost use Rattle.dc_steps.specs.Ready.{AreReady, UnlessOver};
ghost use Rattle.dc_vm.specs.Moving.{PausesLower};

use crate::stepping::step;
use dc_code::{Code, Instr};
use dc_int::FaultKind;
use dc_steps::{Ended, Frame, Next};
use dc_store::Cells;
use std::alloc::Global;

fn instr_at(instructions: &[Instr], at: usize) -> Option<Instr>
    ensures { result ≡ slice_get instructions.now at }
{
    instructions.get(at).copied()
}

/// Runs a code from a place over cells, up to its end, to an instruction that the caller has to carry out, or to
/// a fault. Of what a pause leaves the bound is lower, so that a caller who goes on behind each pause ends.
pub fn run<M: Cells>(
    alloc: Global,
    code: &Code,
    entry: u32,
    frame: &mut Frame,
    cells: &mut M,
    turns: u64,
) -> Ended
    requires few { length (code.now).instructions < 4294967296 }
    requires ready { AreReady code.now M.shapes M.shown (M.holds cells.old) }
    ensures ends { Ends code.now (machine code.now) result frame.new (M.holds cells.new)
        (over_cells M.shown M.after (M.holds cells.old)
        (machine code.now entry frame.old turns)) }
    ensures ready { UnlessOver result (AreReady code.now M.shapes M.shown (M.holds cells.new)) }
    ensures lower { PausesLower code.now (bound code.now entry frame.old turns) result frame.new }
{
    let instructions = code.instructions();
    let mut at = entry as usize;
    let mut left = turns;
    while let Some(instr) = instr_at(instructions, at) {
        match step(alloc, code, instr, at, frame, cells, left) {
            Next::On { at: to, turns } => {
                at = to;
                left = turns;
            }
            Next::Over(ended) => return ended,
        }
    }
    Ended::Fault {
        why: FaultKind::Undefined,
        line: 0,
    }
}
