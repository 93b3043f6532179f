//! One instruction.

ghost use Rattle.std.specs.Prelude.{◌≡◌, ◌<◌, slice_get, Some};
ghost use Rattle.dc_steps.specs.Carrying.{Carries};
ghost use Rattle.dc_steps.specs.Ready.{AreReady, UnlessNextOver};

use crate::control::controlled;
use crate::next::{next_behind, paused_behind};
use crate::work::{Work, cells_asked, frame_asked, values_made, work_of};
use dc_code::{Code, Instr};
use dc_steps::{Frame, Next};
use dc_store::Cells;
use std::alloc::Global;

/// Carries out the instruction at a place.
#[tactic(auto, using(crate::proofs::Moved::carried))]
pub(crate) fn step<M: Cells>(
    alloc: Global,
    code: &Code,
    instr: Instr,
    at: usize,
    frame: &mut Frame,
    cells: &mut M,
    turns: u64,
) -> Next
    requires at { at < 4294967295 }
    requires found { slice_get (code.now).instructions at ≡ Some instr }
    requires ready { AreReady code.now M.shapes M.shown (M.holds cells.old) }
    ensures carries { Carries code.now M.shown M.after instr.line instr.what at turns
        frame.old (M.holds cells.old) result frame.new (M.holds cells.new) }
    ensures ready { UnlessNextOver result (AreReady code.now M.shapes M.shown (M.holds cells.new)) }
{
    let line = instr.line;
    let what = instr.what;
    match work_of(what) {
        Work::Values => next_behind(values_made(frame, what), at, turns, line),
        Work::Frame => next_behind(frame_asked(frame, code, what), at, turns, line),
        Work::Cells => {
            let done = cells_asked(alloc, code, frame, cells, what, line);
            next_behind(done, at, turns, line)
        }
        Work::Callers => paused_behind(Ok(()), at, turns, line),
        Work::Control => controlled(alloc, code, instr, at, frame, cells, turns),
    }
}
