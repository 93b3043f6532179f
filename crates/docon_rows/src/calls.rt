//! Calls of the top call over files and sinks in memory.
use dc_outer::{BytesIn, BytesOut, FilesInMemory, OpenGate};
use dc_text::{DcList, DcText, NoMemory};
use docon::docon;
use std::alloc::Global;

/// What a call left: the bytes on out and on the log, and the status.
#[derive(Debug, Drop)]
pub struct Answer {
    pub out: DcText,
    pub log: DcText,
    pub status: u8,
}

/// How the sinks behave: how many bytes a write takes at most, and which writes fail.
#[derive(Clone, Copy)]
pub struct Sinks<'a> {
    pub piece: usize,
    pub failing_out: &'a [u64],
    pub failing_log: &'a [u64],
}

/// Sinks that never fail.
pub const WELL: Sinks<'static> = Sinks {
    piece: 64,
    failing_out: &[],
    failing_log: &[],
};

fn numbers(alloc: Global, all: &[u64]) -> Result<DcList<u64>, NoMemory> {
    Ok(DcList::from_vec(Vec::from_slice(alloc, all)?))
}

pub fn words(alloc: Global, all: &[&str]) -> Result<DcList<DcText>, NoMemory> {
    let mut words = DcList::new(alloc);
    for word in all {
        words.push(DcText::from_bytes(alloc, word.as_bytes())?)?;
    }
    Ok(words)
}

/// Calls the top call with a file `s.f90` of this source.
pub fn call(
    alloc: Global,
    source: &[u8],
    command: &[&str],
    sinks: &Sinks,
) -> Result<Answer, NoMemory> {
    let mut pairs = DcList::new(alloc);
    pairs.push((
        DcText::from_bytes(alloc, b"s.f90")?,
        DcText::from_bytes(alloc, source)?,
    ))?;
    let mut files = FilesInMemory::new(pairs, DcList::new(alloc));
    let mut input = BytesIn::new(DcText::new(alloc), 64, DcList::new(alloc));
    let mut out = BytesOut::new(
        alloc,
        100_000,
        sinks.piece.max(1),
        numbers(alloc, sinks.failing_out)?,
    )?;
    let mut log = BytesOut::new(
        alloc,
        128,
        sinks.piece.max(1),
        numbers(alloc, sinks.failing_log)?,
    )?;
    let command = words(alloc, command)?;
    let status = docon(
        alloc,
        command.as_slice(),
        &mut files,
        &mut input,
        &mut out,
        &mut log,
        &OpenGate,
    );
    Ok(Answer {
        out: DcText::from_bytes(alloc, out.as_bytes())?,
        log: DcText::from_bytes(alloc, log.as_bytes())?,
        status,
    })
}
