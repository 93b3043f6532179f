//! `Lowering`: a part of a code, as it is made.

ghost use Rattle.std.specs.Prelude.{◌≡◌, ◌+◌, ◌++◌, [], length, IfOk, OnOk};
ghost use Rattle.dc_actions.specs.Deeds.{lined};

use dc_actions::held;
use dc_code::{Group, Instr, What};
use dc_text::{DcList, DcText, NoMemory};
use std::alloc::Global;

/// What there is of a part so far: the place of its first instruction, its instructions, the literals of its
/// output, its groups of slots, and how many DO CONCURRENT loops it enters.
#[derive(Drop)]
pub(crate) struct Lowering {
    pub base: u32,
    pub instructions: DcList<Instr>,
    pub texts: DcList<DcText>,
    pub groups: DcList<Group>,
    pub loops: u32,
}

impl Lowering {
    /// A part with no instructions, which begins at this place and has these groups. It takes no memory.
    pub(crate) fn new(alloc: Global, base: u32, groups: DcList<Group>) -> Lowering
        ensures { result ≡ record {
          base = base;
          instructions = [];
          texts = [];
          groups = groups;
          loops = 0;
        } }
    {
        Lowering {
            base,
            instructions: DcList::new(alloc),
            texts: DcList::new(alloc),
            groups,
            loops: 0,
        }
    }

    /// The place behind so many instructions more.
    pub(crate) fn place_behind(&self, more: usize) -> Result<u32, NoMemory>
        ensures { IfOk result (λ place. place
            ≡ (self.now).base + length (self.now).instructions + more) }
    {
        let made = held(self.instructions.len())?;
        let more = held(more)?;
        held(self.base as usize + made as usize + more as usize)
    }

    /// Adds instructions of one line.
    #[tactic(auto, using(dc_sorts::proofs::Knowing::gathering))]
    pub(crate) fn add_lined(&mut self, line: u32, whats: &[What]) -> Result<(), NoMemory>
        ensures instructions { OnOk result ((self.new).instructions
            ≡ (self.old).instructions ++ lined line whats.now) }
        ensures texts { (self.new).texts ≡ (self.old).texts }
        ensures groups { (self.new).groups ≡ (self.old).groups }
        ensures loops { (self.new).loops ≡ (self.old).loops }
        ensures base { (self.new).base ≡ (self.old).base }
    {
        for what in whats {
            self.instructions.push(Instr { line, what: *what })?;
        }
        Ok(())
    }
}
