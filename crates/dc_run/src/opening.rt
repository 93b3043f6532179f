//! The header of a loop, run by its code.

ghost use Rattle.std.specs.Prelude.{◌≡◌, ◌<◌, ◌∷◌, [], length, IfOk, OnOk};
ghost use Rattle.dc_code.specs.Combinations.{Span};
ghost use Rattle.dc_code.specs.Loops.{Loop};
ghost use Rattle.dc_lower.specs.Heading.{stack_of};
ghost use Rattle.dc_steps.specs.Ready.{AreReady};
ghost use Rattle.dc_tree.specs.Blocks.{items, line_of};
ghost use Rattle.dc_run.specs.Opening.{OpensBy};
ghost use Rattle.dc_run.specs.Resuming.{IsReachable};
ghost use Rattle.dc_run.specs.Variables.{Held, held_by};

use crate::standing::{Found, Task};
use crate::variables::Variables;
use dc_frame::Frame;
use dc_int::Why;
use dc_steps::Ended;
use dc_text::NoMemory;
use dc_walk::Limits;
use std::alloc::Global;

/// What the header of a loop comes to: the limits of its one index with the turns that are left, or a statement
/// that isn't carried out.
#[derive(Clone, Copy)]
pub(crate) enum Opened {
    Between { limits: Limits, turns: u64 },
    Bad { why: Why, line: u32 },
}

/// Takes the step and the limits off the stack on which a header left them.
fn limits_off(frame: &mut Frame) -> Limits
    ghost span: { Span }
    requires { (frame.old).stack ≡ stack_of (span ∷ []) }
    ensures first { result.first ≡ span.first }
    ensures last { result.last ≡ span.last }
{
    let _step = frame.pop();
    let last = frame.pop();
    let first = frame.pop();
    Limits { first, last }
}

/// Runs the header of a loop that is reached with so many turns. It changes no element.
pub(crate) fn open(
    alloc: Global,
    task: Task<'_>,
    found: Found<'_>,
    turns: u64,
    variables: &mut Variables,
) -> Result<Opened, NoMemory>
    ghost parts: { Loop }
    requires reachable { IsReachable parts task.symbols.now task.code.now task.turns found.number
        (line_of found.head.now) (items found.body.now) }
    requires few { length task.code.now.instructions < 4294967296 }
    requires ready { AreReady task.code.now (λ (held : Held). held.shapes)
        (λ (held : Held). held.store) (held_by variables.old) }
    ensures opens { IfOk result (OpensBy parts.form turns (variables.old).ledger.store) }
    ensures kept { OnOk result (held_by variables.new ≡ held_by variables.old) }
{
    let header = task.code.constructs()[found.number as usize].header;
    let mut frame = Frame::new(alloc, task.code, header)?;
    match dc_vm::run(alloc, task.code, header, &mut frame, variables, turns) {
        Ended::Done { turns } => Ok(Opened::Between {
            limits: limits_off(&mut frame),
            turns,
        }),
        Ended::Fault { why, line } => Ok(Opened::Bad {
            why: Why::Fault(why),
            line,
        }),
        Ended::Spent { line } => Ok(Opened::Bad {
            why: Why::Spent,
            line,
        }),
        Ended::NoMemory => Err(NoMemory),
        Ended::Paused { .. } => unreachable!(),
    }
}
