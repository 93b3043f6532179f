//! The program: makes the adapters over the system, and ends with the status of the top call.
#![tactic(auto)]

use dc_outer::{DiskFiles, OpenGate, StdError, StdInput, StdOutput};
use dc_text::{DcList, DcText, NoMemory};
use docon::docon;
use docon::statuses::NO_MEMORY;
use std::alloc::Global;
use std::env;
use std::io::ErrorKind;
use std::process::ExitCode;

/// The words after the program's name.
fn words(alloc: Global, all: env::Args) -> Result<DcList<DcText>, NoMemory> {
    let mut words = DcList::new(alloc);
    for word in all.skip(1) {
        words.push(DcText::from_vec(word.into_bytes()))?;
    }
    Ok(words)
}

/// Words that aren't text are no command, as no words are.
fn words_of(rt: &HostRuntime) -> Result<DcList<DcText>, NoMemory> {
    match env::args(rt) {
        Ok(all) => words(rt.alloc(), all),
        Err(error) if error.kind() == ErrorKind::OutOfMemory => Err(NoMemory),
        Err(_) => Ok(DcList::new(rt.alloc())),
    }
}

fn main(rt: HostRuntime) -> ExitCode {
    let Ok(words) = words_of(&rt) else {
        return ExitCode::from(NO_MEMORY);
    };
    let mut input = StdInput::new(rt.stdin());
    let mut out = StdOutput::new(rt.stdout());
    let mut log = StdError::new(rt.stderr());
    let alloc = rt.alloc();
    let mut files = DiskFiles::new(rt);
    ExitCode::from(docon(
        alloc,
        words.as_slice(),
        &mut files,
        &mut input,
        &mut out,
        &mut log,
        &OpenGate,
    ))
}
