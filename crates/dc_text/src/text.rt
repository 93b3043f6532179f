//! Texts that grow at their end.

ghost use Rattle.std.specs.Prelude.{◌≡◌, ◌++◌, [], ◌∷◌, ◌↔◌, length, slice_get, IsTrue, IfOk, OnOk, OnErr};
ghost use Rattle.std.specs.Fmt.{signed_decimal};
ghost use Rattle.std.specs.Option.{option_copied};
ghost use Rattle.std.specs.Str.{bytes_eq};
ghost use Rattle.std.specs.Cmp.Rules.{comparing};
ghost use Rattle.std.proofs.Common.{rules};

use crate::memory::NoMemory;
use itoa::Buffer;
use std::alloc::Global;
use std::marker::Model;

/// A text that grows at its end, seen as the list of its bytes.
#[derive(Debug, Drop)]
pub struct DcText {
    bytes: Vec<u8>,
}

impl Model for DcText {
    ghost use Rattle.std.specs.Prelude.{ℕ, List};
    ghost use Rattle.std.specs.Coded.{coded_list, coded_ℕ};

    ghost Value = { List ℕ };

    ghost coded = { coded_list coded_ℕ };

    ghost view = { λ a. a.bytes.items };
}

impl DcText {
    /// The empty text. It takes no memory.
    pub fn new(alloc: Global) -> DcText
        ensures { result ≡ [] }
    {
        DcText {
            bytes: Vec::new(alloc),
        }
    }

    /// Takes no memory.
    pub fn from_vec(bytes: Vec<u8>) -> DcText
        ensures { result ≡ bytes.items }
    {
        DcText { bytes }
    }

    /// Takes no memory.
    pub fn into_vec(self) -> Vec<u8>
        ensures { result.items ≡ self }
    {
        let DcText { bytes } = self;
        bytes
    }

    pub fn from_bytes(alloc: Global, bytes: &[u8]) -> Result<DcText, NoMemory>
        ensures { IfOk result (λ made. made ≡ bytes.now) }
    {
        let bytes = Vec::from_slice(alloc, bytes)?;
        Ok(DcText { bytes })
    }

    pub fn as_bytes(&self) -> &[u8]
        ensures { result.now ≡ self.now }
    {
        self.bytes.as_slice()
    }

    pub fn len(&self) -> usize
        ensures { result ≡ length self.now }
    {
        self.bytes.len()
    }

    pub fn is_empty(&self) -> bool
        ensures { IsTrue result ↔ (self.now ≡ []) }
    {
        self.bytes.is_empty()
    }

    /// The byte at a place, counted from 0.
    pub fn get(&self, at: usize) -> Option<u8>
        ensures { result ≡ slice_get self.now at }
    {
        self.bytes.get(at).copied()
    }

    /// A text of its own with the same bytes.
    pub fn copy(&self, alloc: Global) -> Result<DcText, NoMemory>
        ensures { IfOk result (λ made. made ≡ self.now) }
    {
        DcText::from_bytes(alloc, self.as_bytes())
    }

    /// Adds a byte at the end.
    pub fn push(&mut self, byte: u8) -> Result<(), NoMemory>
        ensures ok { OnOk result (self.new ≡ self.old ++ byte ∷ []) }
        ensures err { OnErr result (self.new ≡ self.old) }
    {
        self.bytes.push(byte)?;
        Ok(())
    }

    /// Adds bytes at the end.
    pub fn append(&mut self, bytes: &[u8]) -> Result<(), NoMemory>
        ensures ok { OnOk result (self.new ≡ self.old ++ bytes.now) }
        ensures err { OnErr result (self.new ≡ self.old) }
    {
        self.bytes.extend_from_slice(bytes)?;
        Ok(())
    }

    /// Adds a number in decimal digits, with `-` in front where it is negative.
    pub fn put_number(&mut self, value: i64) -> Result<(), NoMemory>
        ensures ok { OnOk result (self.new ≡ self.old ++ signed_decimal value) }
        ensures err { OnErr result (self.new ≡ self.old) }
    {
        let mut buffer = Buffer::new();
        self.append(buffer.format(value).as_bytes())
    }

    /// Drops every byte. It takes no memory.
    pub fn clear(&mut self)
        ensures { self.new ≡ [] }
    {
        self.bytes.clear();
    }
}

impl PartialEq for DcText {
    ghost eq = { bytes_eq };

    ghost laws = { Prim.search (comparing, rules) };

    fn eq(&self, other: &DcText) -> bool {
        self.as_bytes() == other.as_bytes()
    }
}
