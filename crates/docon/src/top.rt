//! `docon`, the top call. A reader begins here.

ghost use Rattle.std.specs.Prelude.{◌≡◌, IfOk};
ghost use Rattle.docon.specs.Answers.{Answers, KeepsFiles};
ghost use Rattle.docon.specs.Report.{reading, Reported};
ghost use Rattle.docon.specs.Writing.{change};

use crate::report::{Report, only_log, source_report, words_refusal};
use crate::request::{WordsFail, request_of};
use crate::statuses::{NO_MEMORY, READ_FAULT};
use crate::writing::write_report;
use dc_outer::{FileFault, Files, Gate, Sink, Source};
use dc_text::{DcText, NoMemory};
use std::alloc::Global;

/// The greatest number of bytes of a source.
const MOST_SOURCE: usize = 1_048_576;

fn report<F: Files, G: Gate + Sync>(
    alloc: Global,
    words: &[DcText],
    files: &mut F,
    gate: &G,
) -> Result<Report, NoMemory>
    ensures report { IfOk result (Reported (reading words.now F.told F.faults files.old files.new)) }
    ensures files_kept { KeepsFiles words.now F.told F.faults files.old files.new }
{
    let request = match request_of(alloc, words) {
        Ok(request) => request,
        Err(WordsFail::Refused(bad)) => return words_refusal(alloc, bad),
        Err(WordsFail::NoMemory) => return Err(NoMemory),
    };
    match files.read(alloc, &request.file, MOST_SOURCE) {
        Ok(text) => source_report(alloc, request.task, text.as_slice(), gate),
        Err(FileFault::Failed) => only_log(alloc, b"read: file", READ_FAULT),
        Err(FileFault::NoMemory) => Err(NoMemory),
    }
}

/// Runs the command that the words of a command line name, without the program's own name, and
/// answers the status of the process. `run [--turns=T] FILE` runs the program of a file. `check FILE`
/// only tells whether the file's source is accepted, by the same rules, and `code FILE` lists the code
/// of its program. What words ask for is `request_of`, in `specs/Words.antt`.
///
/// **For every accepted source that is run, whatever the input and whatever the gate does, what is
/// written is the report of its run. Each loop that the run reaches ends with the one store that
/// every order of its iterations gives, and the run goes on with that store. Or the run ends there,
/// and the report names a fault or a spent limit with which one iteration ends every order that it
/// begins, or an element and two iterations which, run first and in succession, break its
/// restriction.** What goes wrong in the header of a loop or outside loops belongs to no iteration,
/// and is reported as it comes.
///
/// This is `Reports`, in `specs/Headline.antt` of dc_run, which the field `report` of `Answers` says of
/// the source that was read, unless a write failed or memory was wanting. A listing is that of a code
/// that does what the program means (`IsCodeOf`, of dc_lower). The field `causes` says where
/// each status comes, and `complete` that all was written where nothing failed. The clause `unchanged`
/// says what stays as it was. Statuses and the lines of the log are listed in `docs/REPORTS.md`.
///
/// Without `--turns` a run has 1,000,000 turns. No statement of today spends one, reads, or is run by
/// workers.
pub fn docon<F: Files, S: Source, W: Sink, L: Sink, G: Gate + Sync>(
    alloc: Global,
    words: &[DcText],
    files: &mut F,
    input: &mut S,
    out: &mut W,
    log: &mut L,
    gate: &G,
) -> u8
    ensures answers { let asked = reading words.now F.told F.faults files.old files.new in
        let to_out = change W.taken W.room W.faults out.old out.new in
        let to_log = change L.taken L.room L.faults log.old log.new in
        Answers asked to_out to_log result }
    ensures unchanged { KeepsFiles words.now F.told F.faults files.old files.new
        × (input.new ≡ input.old) }
{
    match report(alloc, words, files, gate) {
        Ok(report) => write_report(&report, out, log),
        Err(NoMemory) => NO_MEMORY,
    }
}
