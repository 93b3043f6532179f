//! What comes behind the work of an instruction.

ghost use Rattle.std.specs.Prelude.{◌≡◌, ◌<◌};
ghost use Rattle.dc_steps.specs.Ending.{next_behind};
ghost use Rattle.dc_vm.specs.Moving.{halted, paused_behind};

use dc_steps::{Ended, Halt, Next};

/// Where the work of an instruction ends badly.
pub(crate) fn halted(halt: Halt, line: u32) -> Next
    ensures { result ≡ halted halt line }
{
    match halt {
        Halt::Fault(why) => Next::Over(Ended::Fault { why, line }),
        Halt::NoMemory => Next::Over(Ended::NoMemory),
    }
}

/// Where the work of the instruction at a place ends well, the next place comes.
pub(crate) fn next_behind(done: Result<(), Halt>, at: usize, turns: u64, line: u32) -> Next
    requires { at < 4294967296 }
    ensures { result ≡ next_behind done at turns line }
{
    match done {
        Ok(()) => Next::On { at: at + 1, turns },
        Err(halt) => halted(halt, line),
    }
}

/// Where it ends well, the run pauses.
pub(crate) fn paused_behind(done: Result<(), Halt>, at: usize, turns: u64, line: u32) -> Next
    requires { at < 4294967296 }
    ensures { result ≡ paused_behind done at turns line }
{
    match done {
        Ok(()) => Next::Over(Ended::Paused {
            at: at as u32,
            turns,
        }),
        Err(halt) => halted(halt, line),
    }
}
