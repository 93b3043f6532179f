//! Sinks in memory: `BytesOut`, `BytesOutSure`.

ghost use Rattle.std.specs.Prelude.{◌≡◌, ◌≤◌, ◌<◌, ◌↔◌, length, take, [], Some, IfOk, IsErr, IsTrue, OnErr};
ghost use Rattle.dc_outer.specs.Causes.{CountOf};
ghost use Rattle.dc_outer.specs.Moves.{RoomOf, Taken};
ghost use Rattle.dc_outer.specs.Memory.{after_write, room_left, with_end, with_fault, write_count, write_fails};

use crate::calls::Calls;
use crate::fault::Failed;
use crate::traits::Sink;
use dc_text::{DcList, NoMemory};
use std::alloc::Global;
use std::marker::Model;

/// A sink of bytes in memory that fails only where it is full. Its memory is taken when it is made.
#[derive(Debug, Drop)]
pub struct BytesOutSure {
    bytes: Vec<u8>,
    room: usize,
    piece: usize,
    faults: u64,
}

impl Model for BytesOutSure {
    ghost use Rattle.std.specs.Prelude.{◌≤◌, vec_capacity, vec_len};
    ghost use Rattle.dc_outer.specs.Memory.{SureSink};

    ghost Value = { SureSink };

    ghost view = { λ s. record { taken = s.bytes.items; room = s.room; piece = s.piece; faults = s.faults } };

    ghost invariant = { λ s. (vec_len s.bytes ≤ s.room) × (s.room ≤ vec_capacity s.bytes) × (1 ≤ s.piece) };
}

impl BytesOutSure {
    pub fn new(alloc: Global, room: usize, piece: usize) -> Result<BytesOutSure, NoMemory>
        requires { 1 ≤ piece }
        ensures taken { IfOk result (λ made. made.taken ≡ []) }
        ensures room { IfOk result (λ made. made.room ≡ room) }
        ensures piece { IfOk result (λ made. made.piece ≡ piece) }
        ensures faults { IfOk result (λ made. made.faults ≡ 0) }
    {
        let bytes = Vec::with_capacity(alloc, room)?;
        Ok(BytesOutSure {
            bytes,
            room,
            piece,
            faults: 0,
        })
    }

    pub fn as_bytes(&self) -> &[u8]
        ensures bytes { result.now ≡ self.now.taken }
        ensures within { length self.now.taken ≤ self.now.room }
    {
        self.bytes.as_slice()
    }

    // Counts a fault.
    fn fail(&mut self) -> Failed
        ensures after { self.new ≡ with_fault self.old }
        ensures never_falls { self.old.faults ≤ self.new.faults }
    {
        self.faults = self.faults.saturating_add(1);
        Failed
    }
}

impl Sink for BytesOutSure {
    ghost faults = { λ s. s.faults };

    ghost taken = { λ s. Some s.taken };

    ghost room = { λ s. Some (room_left s) };

    fn write(&mut self, piece: &[u8]) -> Result<usize, Failed>
        requires { 0 < length piece.now }
        ensures some { IfOk result (λ n. 0 < n) }
        ensures within { IfOk result (λ n. n ≤ length piece.now) }
        ensures moved { IfOk result (λ n. Taken (Some self.old.taken) (Some self.new.taken) n piece.now) }
        ensures kept { OnErr result (self.new.taken ≡ self.old.taken) }
        ensures space { RoomOf (Some (room_left self.old)) (Some (room_left self.new)) result }
        ensures count { CountOf self.old.faults self.new.faults result }
        ensures failed { IsErr result ↔ (room_left self.old ≡ 0) }
        ensures number { IfOk result (λ n. n ≡ write_count self.old (length piece.now)) }
        ensures after { IfOk result (λ n. self.new ≡ with_end self.old (take n piece.now)) }
        ensures after_failed { OnErr result (self.new ≡ with_fault self.old) }
    {
        let free = self.room - self.bytes.len();
        if free == 0 {
            return Err(self.fail());
        }
        let count = self.piece.min(piece.len().min(free));
        self.bytes.extend_from_slice(&piece[..count]).unwrap();
        Ok(count)
    }
}

/// A sink of bytes in memory of which listed calls fail, numbered from 0, and each where it is full.
/// Its memory is taken when it is made.
#[derive(Debug, Drop)]
pub struct BytesOut {
    sink: BytesOutSure,
    calls: Calls,
}

impl Model for BytesOut {
    ghost use Rattle.dc_outer.specs.Memory.{FaultySink};

    ghost Value = { FaultySink };

    ghost view = { λ s. record { sink = s.sink; failing = s.calls.failing; calls = s.calls.made } };
}

impl BytesOut {
    pub fn new(
        alloc: Global,
        room: usize,
        piece: usize,
        failing: DcList<u64>,
    ) -> Result<BytesOut, NoMemory>
        requires { 1 ≤ piece }
        ensures taken { IfOk result (λ made. made.sink.taken ≡ []) }
        ensures room { IfOk result (λ made. made.sink.room ≡ room) }
        ensures piece { IfOk result (λ made. made.sink.piece ≡ piece) }
        ensures faults { IfOk result (λ made. made.sink.faults ≡ 0) }
        ensures failing { IfOk result (λ made. made.failing ≡ failing) }
        ensures calls { IfOk result (λ made. made.calls ≡ 0) }
    {
        let sink = BytesOutSure::new(alloc, room, piece)?;
        Ok(BytesOut {
            sink,
            calls: Calls::new(failing),
        })
    }

    pub fn as_bytes(&self) -> &[u8]
        ensures bytes { result.now ≡ self.now.sink.taken }
        ensures within { length self.now.sink.taken ≤ self.now.sink.room }
    {
        self.sink.as_bytes()
    }
}

impl Sink for BytesOut {
    ghost faults = { λ s. s.sink.faults };

    ghost taken = { λ s. Some s.sink.taken };

    fn write(&mut self, piece: &[u8]) -> Result<usize, Failed>
        requires { 0 < length piece.now }
        ensures some { IfOk result (λ n. 0 < n) }
        ensures within { IfOk result (λ n. n ≤ length piece.now) }
        ensures moved { IfOk result (λ n.
            Taken (Some self.old.sink.taken) (Some self.new.sink.taken) n piece.now) }
        ensures kept { OnErr result (self.new.sink.taken ≡ self.old.sink.taken) }
        ensures count { CountOf self.old.sink.faults self.new.sink.faults result }
        ensures failed { IsErr result ↔ IsTrue (write_fails self.old) }
        ensures number { IfOk result (λ n. n ≡ write_count self.old.sink (length piece.now)) }
        ensures after { IfOk result (λ n.
            self.new ≡ after_write self.old (with_end self.old.sink (take n piece.now))) }
        ensures after_failed { OnErr result (self.new ≡ after_write self.old (with_fault self.old.sink)) }
    {
        if self.calls.next_fails() {
            return Err(self.sink.fail());
        }
        self.sink.write(piece)
    }
}
