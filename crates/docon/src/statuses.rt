//! The statuses of the top call, and which of them a run has, by how it ends.

ghost use Rattle.std.specs.Prelude.{◌≡◌, List};
ghost use Rattle.dc_code.specs.Verdicts.{trouble_in, seen};
ghost use Rattle.dc_tree.specs.declared.symbols.Symbol.{Symbol};
ghost use Rattle.dc_run.specs.Answered.{ending_of};
ghost use Rattle.docon.specs.Report.{status_of_why, status_of_trouble, status_of};

use dc_code::Verdict;
use dc_int::Why;
use dc_run::Ending;

/// The program ran to its end.
pub const DONE: u8 = 0;

/// The source is refused: the log names the line and the rule.
pub const REFUSED: u8 = 1;

/// Two iterations of a loop break its restriction: the log names both, and an element.
pub const RACE: u8 = 2;

/// A statement met a fault, and the run ended there.
pub const FAULT: u8 = 3;

/// A limit of turns is spent.
pub const SPENT: u8 = 4;

/// The words are no command, or their turns are no number in range.
pub const WORDS: u8 = 5;

/// The device of the source's file failed.
pub const READ_FAULT: u8 = 6;

/// A write to standard output or to standard error failed: what stands there is a proper prefix.
pub const WRITE_FAULT: u8 = 7;

/// Memory was wanting, and nothing is written.
pub const NO_MEMORY: u8 = 8;

fn status_of_why(why: Why) -> u8
    ensures { result ≡ status_of_why why }
{
    match why {
        Why::Fault(_) => FAULT,
        Why::Spent => SPENT,
    }
}

fn status_of_verdict(verdict: &Verdict) -> u8
    ensures { result ≡ status_of_trouble (trouble_in (seen verdict.now)) }
{
    match verdict {
        Verdict::GoOn => DONE,
        Verdict::HeaderFault { why, .. } => status_of_why(*why),
        Verdict::IterFault { .. } => FAULT,
        Verdict::IterSpent { .. } => SPENT,
        Verdict::Race { .. } => RACE,
    }
}

/// The status of a run that ends so.
pub(crate) fn status_of(ending: &Ending) -> u8
    ensures { (symbols : List Symbol) → result ≡ status_of (ending_of symbols ending.now) }
{
    match ending {
        Ending::Done => DONE,
        Ending::Bad { why, .. } => status_of_why(*why),
        Ending::Stopped(verdict) => status_of_verdict(verdict),
    }
}
