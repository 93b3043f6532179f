//! Files, input and output of the system.

ghost use Rattle.std.specs.Prelude.{◌≡◌, ◌+◌, ◌<◌, ◌≤◌, None, IfOk, length, vec_len};
ghost use Rattle.std.specs.Io.KnownBytes.{ReadConsumes, WriteAppends};
ghost use Rattle.dc_outer.specs.Causes.{CountOf};

use crate::fault::{Failed, FileFault};
use crate::traits::{Files, Sink, Source};
use dc_text::DcText;
use std::alloc::Global;
use std::io::{ErrorKind, Read, Stderr, Stdin, Stdout, Write};
use std::marker::Model;
use std::{fs, io, rt, str};

/// The files of a runtime, seen as the runtime and the count of faults. A name is a path, and what
/// is not text is the name of no file.
#[derive(Drop)]
pub struct DiskFiles<R> {
    rt: R,
    faults: u64,
}

impl<R> Model for DiskFiles<R> {
    ghost use Rattle.dc_outer.specs.Counted.{Counted};

    ghost Value = { Counted R };

    ghost view = { λ s. record { inner = s.rt; faults = s.faults } };
}

impl<R> DiskFiles<R> {
    pub fn new(rt: R) -> DiskFiles<R>
        ensures inner { result.inner ≡ rt }
        ensures faults { result.faults ≡ 0 }
    {
        DiskFiles { rt, faults: 0 }
    }
}

// The first `limit + 1` bytes of a file, or all of them where there are fewer.
fn read_front(
    rt: &impl rt::Files,
    alloc: Global,
    name: &DcText,
    limit: usize,
) -> io::Result<Vec<u8>>
    ensures { IfOk result (λ bytes. vec_len bytes ≤ limit + 1) }
{
    let Ok(path) = str::from_utf8(name.as_bytes()) else {
        return Err(io::Error::from(ErrorKind::InvalidInput));
    };
    let file = fs::open(rt, path)?;
    let most = limit.saturating_add(1);
    let mut bytes = Vec::new(alloc);
    file.take(most as u64).read_to_end(&mut bytes)?;
    bytes.truncate(most);
    Ok(bytes)
}

impl<R: rt::Files> Files for DiskFiles<R> {
    ghost faults = { λ files. files.faults };

    ghost told = { λ _ _. None };

    fn read(&mut self, alloc: Global, name: &DcText, limit: usize) -> Result<Vec<u8>, FileFault> {
        match read_front(&self.rt, alloc, name, limit) {
            Ok(bytes) => Ok(bytes),
            Err(error) if error.kind() == ErrorKind::OutOfMemory => Err(FileFault::NoMemory),
            Err(_) => {
                self.faults = self.faults.saturating_add(1);
                Err(FileFault::Failed)
            }
        }
    }
}

/// A reader as a source, seen as the reader and the count of faults.
#[derive(Drop)]
pub struct ReadSource<R> {
    reader: R,
    faults: u64,
}

/// Standard input as a source.
pub type StdInput = ReadSource<Stdin>;

impl<R> Model for ReadSource<R> {
    ghost use Rattle.dc_outer.specs.Counted.{Counted};

    ghost Value = { Counted R };

    ghost view = { λ s. record { inner = s.reader; faults = s.faults } };
}

impl<R> ReadSource<R> {
    pub fn new(reader: R) -> ReadSource<R>
        ensures inner { result.inner ≡ reader }
        ensures faults { result.faults ≡ 0 }
    {
        ReadSource { reader, faults: 0 }
    }
}

impl<R: Read> Source for ReadSource<R> {
    ghost faults = { λ source. source.faults };

    ghost left = { λ _. None };

    fn read(&mut self, buffer: &mut [u8]) -> Result<usize, Failed>
        requires { 0 < length buffer.old }
        ensures within { IfOk result (λ n. n ≤ length buffer.new) }
        ensures count { CountOf self.old.faults self.new.faults result }
        ensures bytes { ReadConsumes (R.remaining self.old.inner) (R.remaining self.new.inner) result buffer.new }
    {
        match self.reader.read(buffer) {
            Ok(count) => Ok(count),
            Err(_) => {
                self.faults = self.faults.saturating_add(1);
                Err(Failed)
            }
        }
    }
}

/// A writer as a sink, seen as the writer and the count of faults. A write that takes nothing is a
/// fault.
#[derive(Drop)]
pub struct WriteSink<W> {
    writer: W,
    faults: u64,
}

/// Standard output as a sink.
pub type StdOutput = WriteSink<Stdout>;

/// Standard error as a sink.
pub type StdError = WriteSink<Stderr>;

impl<W> Model for WriteSink<W> {
    ghost use Rattle.dc_outer.specs.Counted.{Counted};

    ghost Value = { Counted W };

    ghost view = { λ s. record { inner = s.writer; faults = s.faults } };
}

impl<W> WriteSink<W> {
    pub fn new(writer: W) -> WriteSink<W>
        ensures inner { result.inner ≡ writer }
        ensures faults { result.faults ≡ 0 }
    {
        WriteSink { writer, faults: 0 }
    }
}

impl<W: Write> Sink for WriteSink<W> {
    ghost faults = { λ sink. sink.faults };

    ghost taken = { λ _. None };

    fn write(&mut self, piece: &[u8]) -> Result<usize, Failed>
        requires { 0 < length piece.now }
        ensures some { IfOk result (λ n. 0 < n) }
        ensures within { IfOk result (λ n. n ≤ length piece.now) }
        ensures count { CountOf self.old.faults self.new.faults result }
        ensures bytes { WriteAppends (W.contents self.old.inner) (W.contents self.new.inner) result piece.now }
    {
        match self.writer.write(piece) {
            Ok(count) if count > 0 => Ok(count),
            _ => {
                self.faults = self.faults.saturating_add(1);
                Err(Failed)
            }
        }
    }
}
