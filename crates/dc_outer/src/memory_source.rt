//! Sources in memory: `BytesIn`, `BytesInSure`.

ghost use Rattle.std.specs.Prelude.{◌≡◌, ◌≤◌, ◌<◌, ◌↔◌, length, [], Ok, Some, IfOk, IsErr, IsTrue, OnErr};
ghost use Rattle.dc_outer.specs.Causes.{CountOf};
ghost use Rattle.dc_outer.specs.Moves.{AtEndOnly, Moved};
ghost use Rattle.dc_outer.specs.Memory.{after_failed_read, after_read, filled_buffer, is_listed, read_count, without_front};

use crate::calls::Calls;
use crate::fault::Failed;
use crate::traits::Source;
use dc_text::{DcList, DcText};
use std::marker::Model;

/// A source of bytes in memory that never fails, seen as the bytes that are left and the most that
/// a call moves.
#[derive(Debug, Drop)]
pub struct BytesInSure {
    bytes: DcText,
    at: usize,
    piece: usize,
}

impl Model for BytesInSure {
    ghost use Rattle.std.specs.Prelude.{◌≤◌, length, drop};
    ghost use Rattle.dc_outer.specs.Memory.{SureSource};

    ghost Value = { SureSource };

    ghost view = { λ s. record { left = drop s.at s.bytes; piece = s.piece } };

    ghost invariant = { λ s. (s.at ≤ length s.bytes) × (1 ≤ s.piece) };
}

impl BytesInSure {
    pub fn new(bytes: DcText, piece: usize) -> BytesInSure
        requires { 1 ≤ piece }
        ensures left { result.left ≡ bytes }
        ensures piece { result.piece ≡ piece }
    {
        BytesInSure {
            bytes,
            at: 0,
            piece,
        }
    }

    // Moves as many bytes as the piece, the buffer and what is left allow.
    fn take_front(&mut self, buffer: &mut [u8]) -> usize
        ensures piece { 1 ≤ self.old.piece }
        ensures count { result ≡ read_count self.old (length buffer.old) }
        ensures after { self.new ≡ without_front self.old result }
        ensures buffer { buffer.new ≡ filled_buffer self.old result buffer.old }
    {
        let rest = &self.bytes.as_bytes()[self.at..];
        let count = self.piece.min(buffer.len().min(rest.len()));
        buffer[..count].copy_from_slice(&rest[..count]);
        self.at += count;
        count
    }
}

impl Source for BytesInSure {
    ghost faults = { λ _. 0 };

    ghost left = { λ s. Some s.left };

    fn read(&mut self, buffer: &mut [u8]) -> Result<usize, Failed>
        requires { 0 < length buffer.old }
        ensures within { IfOk result (λ n. n ≤ length buffer.new) }
        ensures moved { IfOk result (λ n. Moved (Some self.old.left) (Some self.new.left) n buffer.new) }
        ensures end { IfOk result (AtEndOnly (Some self.old.left)) }
        ensures answer { result ≡ Ok (read_count self.old (length buffer.old)) }
        ensures after { IfOk result (λ n. self.new ≡ without_front self.old n) }
        ensures buffer { IfOk result (λ n. buffer.new ≡ filled_buffer self.old n buffer.old) }
    {
        Ok(self.take_front(buffer))
    }
}

/// A source of bytes in memory of which listed calls fail, numbered from 0.
#[derive(Debug, Drop)]
pub struct BytesIn {
    source: BytesInSure,
    calls: Calls,
    faults: u64,
}

impl Model for BytesIn {
    ghost use Rattle.dc_outer.specs.Memory.{FaultySource};

    ghost Value = { FaultySource };

    ghost view = { λ s. record { source = s.source; failing = s.calls.failing; calls = s.calls.made; faults = s.faults } };
}

impl BytesIn {
    pub fn new(bytes: DcText, piece: usize, failing: DcList<u64>) -> BytesIn
        requires { 1 ≤ piece }
        ensures left { result.source.left ≡ bytes }
        ensures piece { result.source.piece ≡ piece }
        ensures failing { result.failing ≡ failing }
        ensures calls { result.calls ≡ 0 }
        ensures faults { result.faults ≡ 0 }
    {
        BytesIn {
            source: BytesInSure::new(bytes, piece),
            calls: Calls::new(failing),
            faults: 0,
        }
    }
}

impl Source for BytesIn {
    ghost faults = { λ s. s.faults };

    ghost left = { λ s. Some s.source.left };

    fn read(&mut self, buffer: &mut [u8]) -> Result<usize, Failed>
        requires { 0 < length buffer.old }
        ensures within { IfOk result (λ n. n ≤ length buffer.new) }
        ensures moved { IfOk result (λ n.
            Moved (Some self.old.source.left) (Some self.new.source.left) n buffer.new) }
        ensures end { IfOk result (AtEndOnly (Some self.old.source.left)) }
        ensures kept { OnErr result (self.new.source ≡ self.old.source) }
        ensures count { CountOf self.old.faults self.new.faults result }
        ensures failed { IsErr result ↔ IsTrue (is_listed self.old.failing self.old.calls) }
        ensures number { IfOk result (λ n. n ≡ read_count self.old.source (length buffer.old)) }
        ensures after { IfOk result (λ n. self.new ≡ after_read self.old n) }
        ensures after_failed { OnErr result (self.new ≡ after_failed_read self.old) }
        ensures buffer { IfOk result (λ n. buffer.new ≡ filled_buffer self.old.source n buffer.old) }
        ensures buffer_failed { OnErr result (buffer.new ≡ buffer.old) }
    {
        if self.calls.next_fails() {
            self.faults = self.faults.saturating_add(1);
            return Err(Failed);
        }
        self.source.read(buffer)
    }
}
