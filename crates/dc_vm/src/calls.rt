//! Calls of procedures.

ghost use Rattle.std.specs.Prelude.{◌≡◌, ◌<◌, ◌-◌, slice_get};
ghost use Rattle.dc_code.specs.declared.instr.What.{What};
ghost use Rattle.dc_steps.specs.Carrying.{Carries};
ghost use Rattle.dc_steps.specs.Ready.{AreReady, UnlessNextOver};

use crate::next::halted;
use dc_code::Code;
use dc_int::FaultKind;
use dc_steps::{Ended, Frame, Halt, Next, arguments_off, deepened, entered};
use dc_store::Cells;
use std::alloc::Global;

/// Where a procedure begins, by its number from 1. A number 0 is taken as 1.
fn entry_of(code: &Code, procedure: u32) -> Option<u32>
    ensures { result ≡ slice_get (code.now).entries (procedure - 1) }
{
    code.entries()
        .get(procedure.saturating_sub(1) as usize)
        .copied()
}

/// Enters a procedure: takes the arguments off, spends a turn, and goes on where it begins.
pub(crate) fn called<M: Cells>(
    alloc: Global,
    code: &Code,
    frame: &mut Frame,
    cells: &mut M,
    procedure: u32,
    count: u32,
    at: usize,
    turns: u64,
    line: u32,
) -> Next
    requires at { at < 4294967295 }
    requires ready { AreReady code.now M.shapes M.shown (M.holds cells.old) }
    ensures carries { Carries code.now M.shown M.after line (What.Call procedure count) at turns
        frame.old (M.holds cells.old) result frame.new (M.holds cells.new) }
    ensures ready { UnlessNextOver result (AreReady code.now M.shapes M.shown (M.holds cells.new)) }
{
    let Some(entry) = entry_of(code, procedure) else {
        return halted(Halt::Fault(FaultKind::Undefined), line);
    };
    let passed = match arguments_off(alloc, code, frame, procedure, count) {
        Ok(passed) => passed,
        Err(halt) => return halted(halt, line),
    };
    if let Err(halt) = deepened(frame) {
        return halted(halt, line);
    }
    if turns == 0 {
        return Next::Over(Ended::Spent { line });
    }
    match entered(
        alloc,
        code,
        frame,
        cells,
        procedure,
        passed,
        at as u32 + 1,
        line,
    ) {
        Ok(()) => Next::On {
            at: entry as usize,
            turns: turns - 1,
        },
        Err(halt) => halted(halt, line),
    }
}
