//! Files in memory: `FilesInMemory`, `FilesSure`.

ghost use Rattle.std.specs.Prelude.{◌≡◌, ◌+◌, ◌≤◌, ◌↔◌, Some, IfOk, IfSome, IsErrOf, IsOkUnless, IsTrue, take, option_copied, option_map, vec_len};
ghost use Rattle.dc_outer.specs.Causes.{FileCount};
ghost use Rattle.dc_outer.specs.Memory.{after_file, first_held, held_or_empty, read_fails};

use crate::calls::Calls;
use crate::fault::FileFault;
use crate::traits::Files;
use dc_text::{DcList, DcText, NoMemory};
use std::alloc::Global;
use std::marker::Model;

// The bytes of the first pair with a name.
fn find_held<'a>(pairs: &'a [(DcText, DcText)], name: &DcText) -> Option<&'a DcText>
    ensures { option_copied result ≡ first_held pairs.now name.now }
{
    pairs
        .iter()
        .find(|pair| pair.0 == *name)
        .map(|pair| &pair.1)
}

// The first `limit + 1` bytes, or all of them where there are fewer.
fn copy_front(alloc: Global, bytes: &DcText, limit: usize) -> Result<Vec<u8>, NoMemory>
    ensures { IfOk result (λ made. made.items ≡ take (limit + 1) bytes.now) }
{
    let count = bytes.len().min(limit.saturating_add(1));
    Ok(Vec::from_slice(alloc, &bytes.as_bytes()[..count])?)
}

/// Files in memory that never fail, seen as their names with their bytes. The first pair with a name
/// counts, and a name that is not held is an empty file.
#[derive(Debug, Drop)]
pub struct FilesSure {
    pairs: DcList<(DcText, DcText)>,
}

impl Model for FilesSure {
    ghost use Rattle.std.specs.Prelude.{ℕ, List};

    ghost Value = { List (List ℕ × List ℕ) };

    ghost view = { λ files. files.pairs };
}

impl FilesSure {
    pub fn new(pairs: DcList<(DcText, DcText)>) -> FilesSure
        ensures { result ≡ pairs }
    {
        FilesSure { pairs }
    }
}

impl Files for FilesSure {
    ghost faults = { λ _. 0 };

    ghost told = { λ files name. Some (held_or_empty files name) };

    fn read(&mut self, alloc: Global, name: &DcText, limit: usize) -> Result<Vec<u8>, FileFault>
        ensures within { IfOk result (λ bytes. vec_len bytes ≤ limit + 1) }
        ensures held { IfOk result (λ bytes. bytes.items ≡ take (limit + 1) (held_or_empty self.old name.now)) }
        ensures failed { IsOkUnless result FileFault.NoMemory }
        ensures after { self.new ≡ self.old }
    {
        match find_held(self.pairs.as_slice(), name) {
            Some(bytes) => Ok(copy_front(alloc, bytes, limit)?),
            None => Ok(Vec::new(alloc)),
        }
    }
}

/// Files in memory of which listed calls fail, numbered from 0. The first pair with a name counts,
/// and the read of a name that is not held fails.
#[derive(Debug, Drop)]
pub struct FilesInMemory {
    pairs: DcList<(DcText, DcText)>,
    calls: Calls,
    faults: u64,
}

impl Model for FilesInMemory {
    ghost use Rattle.dc_outer.specs.Memory.{FaultyFiles};

    ghost Value = { FaultyFiles };

    ghost view = { λ s. record { pairs = s.pairs; failing = s.calls.failing; calls = s.calls.made; faults = s.faults } };
}

impl FilesInMemory {
    pub fn new(pairs: DcList<(DcText, DcText)>, failing: DcList<u64>) -> FilesInMemory
        ensures pairs { result.pairs ≡ pairs }
        ensures failing { result.failing ≡ failing }
        ensures calls { result.calls ≡ 0 }
        ensures faults { result.faults ≡ 0 }
    {
        FilesInMemory {
            pairs,
            calls: Calls::new(failing),
            faults: 0,
        }
    }
}

impl Files for FilesInMemory {
    ghost faults = { λ files. files.faults };

    ghost told = { λ files name. first_held files.pairs name };

    fn read(&mut self, alloc: Global, name: &DcText, limit: usize) -> Result<Vec<u8>, FileFault>
        ensures within { IfOk result (λ bytes. vec_len bytes ≤ limit + 1) }
        ensures held { IfOk result (λ bytes.
            Some bytes.items ≡ option_map (take (limit + 1)) (first_held self.old.pairs name.now)) }
        ensures count { FileCount self.old.faults self.new.faults result }
        ensures failed { IsErrOf result FileFault.Failed ↔ IsTrue (read_fails self.old name.now) }
        ensures after { self.new ≡ after_file self.old name.now }
    {
        let is_listed = self.calls.next_fails();
        match find_held(self.pairs.as_slice(), name) {
            Some(bytes) if !is_listed => Ok(copy_front(alloc, bytes, limit)?),
            _ => {
                self.faults = self.faults.saturating_add(1);
                Err(FileFault::Failed)
            }
        }
    }
}
