//! What the words of a command line ask for.

ghost use Rattle.std.specs.Prelude.{◌≡◌, IfOk, map};
ghost use Rattle.docon.specs.Words.{request_in, request_of, plain_request, run_request};
ghost use Rattle.docon.specs.Matches.{HasTurns, IsText, IsTexts, IsUnlessMemory};

use crate::command::{matches_in, plain_command, run_command, value};
use crate::number::turns_in;
use dc_text::{DcText, NoMemory};
use std::alloc::Global;

/// What is done with a source: its program is run, with so many turns for the main program, each mask and each
/// iteration; or it is only told that the source is accepted; or the program's code is listed.
#[derive(Clone, Copy, Debug, PartialEq, Eq)]
pub(crate) enum Task {
    Run { turns: u64 },
    Check,
    Code,
}

/// What is done, and the file that it is done with.
#[derive(Debug, Drop)]
pub(crate) struct Request {
    pub task: Task,
    pub file: DcText,
}

/// Why words ask for nothing: they are no command, or their turns are no number in range.
#[derive(Clone, Copy, Debug, PartialEq, Eq)]
pub(crate) enum BadWords {
    Command,
    Turns,
}

/// Why there is no answer: the words are refused, or memory was wanting.
#[derive(Clone, Copy, Debug, PartialEq, Eq)]
pub(crate) enum WordsFail {
    Refused(BadWords),
    NoMemory,
}

impl From<NoMemory> for WordsFail {
    ghost use Rattle.docon.specs.declared.request.WordsFail.{WordsFail};
    ghost use Rattle.std.specs.Prelude.{◌≡◌};

    ghost from_gives = { λ _ e. e ≡ WordsFail.NoMemory };

    fn from(_error: NoMemory) -> WordsFail {
        WordsFail::NoMemory
    }
}

const NO_COMMAND: WordsFail = WordsFail::Refused(BadWords::Command);

/// The word as a text. None where it isn't UTF-8.
fn text_of(word: &[u8]) -> Option<&str>
    ensures { IsText word.now result }
{
    str::from_utf8(word).ok()
}

/// The words as texts. None where one of them isn't UTF-8.
fn texts<'a>(alloc: Global, words: &'a [DcText]) -> Result<Option<Vec<&'a str>>, NoMemory>
    ensures { IfOk result (IsTexts words.entry.now) }
{
    let mut texts = Vec::new(alloc);
    for word in words {
        let Some(text) = text_of(word.as_bytes()) else {
            return Ok(None);
        };
        texts.push(text)?;
    }
    Ok(Some(texts))
}

/// What `run` and the words behind it ask for.
fn run_request(alloc: Global, words: &[&str]) -> Result<Request, WordsFail>
    ensures asked { IsUnlessMemory (run_request (map (λ word. word.now) words.now)) result }
    ensures range { IfOk result (λ request. HasTurns request.task) }
{
    let matches = matches_in(run_command(alloc)?, words)?;
    let Some(file) = value(&matches, "file") else {
        return Err(NO_COMMAND);
    };
    let Some(turns) = turns_in(value(&matches, "turns")) else {
        return Err(WordsFail::Refused(BadWords::Turns));
    };
    let file = DcText::from_bytes(alloc, file.as_bytes())?;
    Ok(Request {
        task: Task::Run { turns },
        file,
    })
}

/// What a command that takes a file alone and the words behind it ask for.
fn plain_request(
    alloc: Global,
    task: Task,
    name: &str,
    words: &[&str],
) -> Result<Request, WordsFail>
    ensures asked { IsUnlessMemory (plain_request task name.now (map (λ word. word.now) words.now))
        result }
    ensures task { IfOk result (λ request. request.task ≡ task) }
{
    let matches = matches_in(plain_command(alloc, name)?, words)?;
    let Some(file) = value(&matches, "file") else {
        return Err(NO_COMMAND);
    };
    let file = DcText::from_bytes(alloc, file.as_bytes())?;
    Ok(Request { task, file })
}

fn request_in(alloc: Global, words: &[&str]) -> Result<Request, WordsFail>
    ensures asked { IsUnlessMemory (request_in (map (λ word. word.now) words.now)) result }
    ensures range { IfOk result (λ request. HasTurns request.task) }
{
    match words {
        [command, ..] if *command == "run" => run_request(alloc, words),
        [command, ..] if *command == "check" => plain_request(alloc, Task::Check, "check", words),
        [command, ..] if *command == "code" => plain_request(alloc, Task::Code, "code", words),
        _ => Err(NO_COMMAND),
    }
}

/// What words ask for.
pub(crate) fn request_of(alloc: Global, words: &[DcText]) -> Result<Request, WordsFail>
    ensures asked { IsUnlessMemory (request_of words.now) result }
    ensures range { IfOk result (λ request. HasTurns request.task) }
{
    match texts(alloc, words)? {
        Some(texts) => request_in(alloc, texts.as_slice()),
        None => Err(NO_COMMAND),
    }
}
