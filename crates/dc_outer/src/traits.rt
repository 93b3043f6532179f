//! `Files`, `Source`, `Sink` and `Gate`.

ghost use Rattle.std.specs.Prelude.{◌≡◌, ◌+◌, ◌≤◌, ◌<◌, ℕ, List, Option, None, length, take, vec_len, IfOk, IfSome, OnErr};
ghost use Rattle.dc_outer.specs.Causes.{CountOf, FileCount};
ghost use Rattle.dc_outer.specs.Moves.{AtEndOnly, Moved, RoomOf, Taken};

use crate::fault::{Failed, FileFault};
use dc_text::DcText;
use std::alloc::Global;

/// Files that are read by name.
pub trait Files {
    // How many faults came.
    ghost faults: { Self → ℕ };

    // The bytes held under a name, where the files tell.
    ghost told: { Self → List ℕ → Option (List ℕ) };

    /// The first `limit + 1` bytes of a file, or all of them where there are fewer.
    fn read(&mut self, alloc: Global, name: &DcText, limit: usize) -> Result<Vec<u8>, FileFault>
        ensures kept { told self.new ≡ told self.old }
        ensures within { IfOk result (λ bytes. vec_len bytes ≤ limit + 1) }
        ensures held { IfOk result (λ bytes. IfSome (told self.old name.now)
            (λ held. bytes.items ≡ take (limit + 1) held)) }
        ensures count { FileCount (faults self.old) (faults self.new) result };
}

/// Bytes that are taken from the front.
pub trait Source {
    // How many faults came.
    ghost faults: { Self → ℕ };

    // The bytes not yet taken, where the source tells.
    ghost left: { Self → Option (List ℕ) };

    /// Moves the next bytes to the front of the buffer, and gives their number: 0 exactly where
    /// nothing is left.
    fn read(&mut self, buffer: &mut [u8]) -> Result<usize, Failed>
        requires { 0 < length buffer.old }
        ensures within { IfOk result (λ n. n ≤ length buffer.new) }
        ensures moved { IfOk result (λ n. Moved (left self.old) (left self.new) n buffer.new) }
        ensures end { IfOk result (AtEndOnly (left self.old)) }
        ensures kept { OnErr result (left self.new ≡ left self.old) }
        ensures count { CountOf (faults self.old) (faults self.new) result };
}

/// Takes bytes, one after another.
pub trait Sink {
    // How many faults came.
    ghost faults: { Self → ℕ };

    // The bytes taken so far, where the sink tells.
    ghost taken: { Self → Option (List ℕ) };

    // How many bytes more it takes for sure, where the sink tells.
    ghost room: { Self → Option ℕ } = { λ _. None };

    /// Takes bytes from the front of the piece, at least one, and gives their number.
    fn write(&mut self, piece: &[u8]) -> Result<usize, Failed>
        requires { 0 < length piece.now }
        ensures some { IfOk result (λ n. 0 < n) }
        ensures within { IfOk result (λ n. n ≤ length piece.now) }
        ensures moved { IfOk result (λ n. Taken (taken self.old) (taken self.new) n piece.now) }
        ensures kept { OnErr result (taken self.new ≡ taken self.old) }
        ensures space { RoomOf (room self.old) (room self.new) result }
        ensures count { CountOf (faults self.old) (faults self.new) result };
}

/// What a worker passes before it begins a chunk of work. It promises nothing.
pub trait Gate {
    fn enter(&self, worker: u32, chunk: u64);
}

/// A gate that stops no one.
#[derive(Clone, Copy, Debug)]
pub struct OpenGate;

impl Gate for OpenGate {
    fn enter(&self, _worker: u32, _chunk: u64) {}
}
