//! Jumps, and the turns that they spend.

ghost use Rattle.std.specs.Prelude.{◌<◌};
ghost use Rattle.dc_code.specs.Computation.{sequence};
ghost use Rattle.dc_code.specs.Frames.{Frame};
ghost use Rattle.dc_code.specs.Instructions.{Going, ahead, spent, returned};
ghost use Rattle.dc_vm.specs.Moving.{Moves, jumped_unless};

use crate::next::halted;
use dc_int::FaultKind;
use dc_steps::{Ended, Frame, Halt, Next, unit_left, value_off};

/// Goes to a later place.
pub(crate) fn ahead(target: u32, at: usize, turns: u64, line: u32) -> Next
    ensures { (frame : Frame)
        → Moves result frame (λ (go : Going). ahead go line target at frame turns) }
{
    if at < target as usize {
        Next::On {
            at: target as usize,
            turns,
        }
    } else {
        halted(Halt::Fault(FaultKind::Undefined), line)
    }
}

/// Takes a truth off, and goes to a later place where it is false.
pub(crate) fn ahead_unless(frame: &mut Frame, target: u32, at: usize, turns: u64, line: u32) -> Next
    requires { at < 4294967296 }
    ensures { Moves result frame.new
        (λ (go : Going). jumped_unless go line target at frame.old turns) }
{
    match value_off(frame) {
        Ok(value) => {
            if value != 0 {
                Next::On { at: at + 1, turns }
            } else {
                ahead(target, at, turns, line)
            }
        }
        Err(halt) => halted(halt, line),
    }
}

/// Spends a turn, and goes to a place.
pub(crate) fn spent_to(to: usize, turns: u64, line: u32) -> Next
    ensures { (frame : Frame)
        → Moves result frame
        (λ (go : Going). sequence (spent line turns) (λ left. go to frame left)) }
{
    if turns == 0 {
        return Next::Over(Ended::Spent { line });
    }
    Next::On {
        at: to,
        turns: turns - 1,
    }
}

/// Leaves a unit, and goes on behind the call.
pub(crate) fn returned(frame: &mut Frame, turns: u64, line: u32) -> Next
    ensures { Moves result frame.new (λ (go : Going). returned go line frame.old turns) }
{
    match unit_left(frame) {
        Ok(back) => Next::On {
            at: back as usize,
            turns,
        },
        Err(halt) => halted(halt, line),
    }
}
