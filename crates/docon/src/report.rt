//! The report of a source.

ghost use Rattle.std.specs.Prelude.{◌≡◌, ◌≤◌, IfOk};
ghost use Rattle.dc_tree.specs.Blocks.{source_of};
ghost use Rattle.docon.specs.Report.{
  only_log,
  refusal_words,
  accepted_report,
  IsRunReport,
  IsCodeReport,
  IsSourceReport,
};
ghost use Rattle.docon.specs.Matches.{HasTurns};
ghost use Rattle.docon.specs.Words.{why_bad};

use crate::request::{BadWords, Task};
use crate::statuses::{DONE, REFUSED, WORDS, status_of};
use dc_front::{Accepted, accept};
use dc_listing::listing;
use dc_lower::lower;
use dc_outer::Gate;
use dc_run::{report_line, run};
use dc_text::{DcText, NoMemory};
use dc_tree::{Fail, Refusal};
use std::alloc::Global;

const WORKERS: u32 = 4;

/// The bytes for standard output and for standard error, and the status.
#[derive(Debug, Drop)]
pub(crate) struct Report {
    pub out: DcText,
    pub log: DcText,
    pub status: u8,
}

/// A report whose log is one line of these words.
pub(crate) fn only_log(alloc: Global, words: &[u8], status: u8) -> Result<Report, NoMemory>
    ensures { IfOk result (λ report. report ≡ only_log words.now status) }
{
    let mut log = DcText::from_bytes(alloc, words)?;
    log.push(b'\n')?;
    Ok(Report {
        out: DcText::new(alloc),
        log,
        status,
    })
}

fn refusal(alloc: Global, refusal: Refusal) -> Result<Report, NoMemory>
    ensures { IfOk result (λ report. report
        ≡ only_log (refusal_words refusal.line refusal.rule) REFUSED) }
{
    let mut words = DcText::from_bytes(alloc, b"refused: line ")?;
    words.put_number(i64::from(refusal.line))?;
    words.append(b": K")?;
    words.put_number(i64::from(refusal.rule))?;
    only_log(alloc, words.as_bytes(), REFUSED)
}

/// The report of words that are refused.
pub(crate) fn words_refusal(alloc: Global, bad: BadWords) -> Result<Report, NoMemory>
    ensures { IfOk result (λ report. report ≡ only_log (why_bad bad) WORDS) }
{
    match bad {
        BadWords::Command => only_log(alloc, b"words: command", WORDS),
        BadWords::Turns => only_log(alloc, b"words: turns", WORDS),
    }
}

/// The report of an accepted source's run.
fn run_report<G: Gate + Sync>(
    alloc: Global,
    accepted: &Accepted,
    turns: u64,
    gate: &G,
) -> Result<Report, NoMemory>
    requires some_turns { 1 ≤ turns }
    requires few_turns { turns ≤ 1000000000 }
    ensures { IfOk result
        (IsRunReport turns (accepted.now).symbols (source_of (accepted.now).program)) }
{
    let ran = run(alloc, accepted, &[], turns, WORKERS, gate)?;
    let log = report_line(alloc, accepted, &ran.ending)?;
    let status = status_of(&ran.ending);
    Ok(Report {
        out: ran.output,
        log,
        status,
    })
}

/// The report of an accepted source that isn't run.
fn accepted_report(alloc: Global) -> Result<Report, NoMemory>
    ensures { IfOk result (λ report. report ≡ accepted_report) }
{
    Ok(Report {
        out: DcText::from_bytes(alloc, b"accepted\n")?,
        log: DcText::new(alloc),
        status: DONE,
    })
}

/// The report of an accepted source whose code is listed.
fn code_report(alloc: Global, accepted: &Accepted) -> Result<Report, NoMemory>
    ensures { IfOk result (IsCodeReport (accepted.now).symbols (source_of (accepted.now).program)) }
{
    let symbols = accepted.symbols();
    // The slice is taken for what it says of the names: each value that is declared is of its sort.
    let _sound = symbols.as_slice();
    let code = lower(alloc, accepted.program(), symbols)?;
    Ok(Report {
        out: listing(alloc, &code)?,
        log: DcText::new(alloc),
        status: DONE,
    })
}

/// The report of a source: of its run, of its check or of its code.
pub(crate) fn source_report<G: Gate + Sync>(
    alloc: Global,
    task: Task,
    text: &[u8],
    gate: &G,
) -> Result<Report, NoMemory>
    requires { HasTurns task }
    ensures { IfOk result (IsSourceReport task text.now) }
{
    match accept(alloc, text) {
        Ok(accepted) => match task {
            Task::Run { turns } => run_report(alloc, &accepted, turns, gate),
            Task::Check => accepted_report(alloc),
            Task::Code => code_report(alloc, &accepted),
        },
        Err(Fail::Refused(rule)) => refusal(alloc, rule),
        Err(Fail::NoMemory) => Err(NoMemory),
    }
}
