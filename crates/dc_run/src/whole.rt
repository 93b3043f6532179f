//! The run of an accepted source, and the line of the log that tells of it.

ghost use Rattle.std.specs.Prelude.{◌≡◌, ◌≢◌, ◌≤◌, length, IfOk};
ghost use Rattle.dc_code.specs.declared.verdict.Verdict.{Verdict};
ghost use Rattle.dc_tree.specs.Blocks.{source_of};
ghost use Rattle.dc_run.specs.declared.ending.Ending.{Ending};
ghost use Rattle.dc_run.specs.Answered.{ending_of, NamesOwn};
ghost use Rattle.dc_run.specs.Headline.{Reports};
ghost use Rattle.dc_run.specs.ReportLine as lines;

use crate::ending::{Ending, RunOut};
use crate::program::run_program;
use crate::report::ending_line;
use dc_front::Accepted;
use dc_outer::Gate;
use dc_text::{DcText, NoMemory};
use std::alloc::Global;

/// Runs an accepted source with an input. The main program, each mask and each iteration may spend so many
/// turns, and a loop is run by so many workers, who pass the gate before each chunk of its iterations.
///
/// What it writes and how it ends is what the run of the source reports (`Reports`): each loop that it reaches
/// ends with the one store that every order of its iterations gives, or the run ends there, with its trouble.
/// Each store of the run fits the declared variables.
///
/// No program of today spends a turn, reads, or has its loops run by workers.
pub fn run<G: Gate + Sync>(
    alloc: Global,
    accepted: &Accepted,
    input: &[u8],
    turns: u64,
    workers: u32,
    _gate: &G,
) -> Result<RunOut, NoMemory>
    requires some_turns { 1 ≤ turns }
    requires few_turns { turns ≤ 1000000000 }
    requires some_workers { 1 ≤ workers }
    requires few_workers { workers ≤ 64 }
    requires short_input { length input.now ≤ 16777216 }
    ensures reports { let symbols = (accepted.now).symbols in
        let source = source_of (accepted.now).program in
        IfOk result (λ out.
        Reports symbols source turns input.now out.output (ending_of symbols out.ending)) }
    ensures owns { IfOk result (λ out. NamesOwn (accepted.now).symbols out.ending) }
    ensures stops { IfOk result (λ out. out.ending ≢ Ending.Stopped Verdict.GoOn) }
{
    let symbols = accepted.symbols();
    // The slice is taken for what it says of the names: each value that is declared is of its sort.
    let _sound = symbols.as_slice();
    run_program(alloc, accepted.program(), symbols, turns)
}

/// The line of the log that tells how a run of the source ended, with its line feed; empty where it came to
/// its end.
pub fn report_line(alloc: Global, accepted: &Accepted, ending: &Ending) -> Result<DcText, NoMemory>
    requires { NamesOwn (accepted.now).symbols ending.now }
    ensures { let symbols = (accepted.now).symbols in
        IfOk result (λ line. line
        ≡ lines.report_line (lines.outside_names symbols) (ending_of symbols ending.now)) }
{
    ending_line(alloc, accepted.symbols(), ending)
}
