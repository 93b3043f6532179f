//! What stands before and behind the block of a loop.

ghost use Rattle.std.specs.Prelude.{◌≡◌, ◌++◌, ◌+◌, [], ◌∷◌, IfOk, OnOk, drop, map};
ghost use Rattle.dc_code.specs.declared.instr.What.{What};
ghost use Rattle.dc_actions.specs.Deeds.{lined};
ghost use Rattle.dc_flows.specs.Adding.{Adds};
ghost use Rattle.dc_flows.specs.Arounds.{around_of};
ghost use Rattle.dc_flows.specs.Flows.{test_code};

use crate::around::Around;
use crate::lowering::Lowering;
use crate::rounds::Rounds;
use dc_actions::held;
use dc_code::{Instr, What};
use dc_text::{DcList, NoMemory};
use std::alloc::Global;

/// Adds instructions once more.
#[tactic(auto, using(dc_sorts::proofs::Knowing::gathering))]
fn repeat(whats: &mut DcList<What>, more: &[What]) -> Result<(), NoMemory>
    ensures { OnOk result (whats.new ≡ whats.old ++ more.now) }
{
    for what in more {
        whats.push(*what)?;
    }
    Ok(())
}

/// Adds a test, behind which the loop is left where it doesn't hold.
#[tactic(auto, using(dc_sorts::proofs::Knowing::gathering))]
fn test_round(whats: &mut DcList<What>, test: &[What], behind: u32) -> Result<(), NoMemory>
    ensures { OnOk result (whats.new ≡ whats.old ++ test_code test.now behind) }
{
    repeat(whats, test)?;
    whats.push(What::JumpFalse { t: behind })
}

/// Adds a test and what begins a round.
#[tactic(auto, using(dc_sorts::proofs::Knowing::gathering))]
fn begin_round(
    whats: &mut DcList<What>,
    test: &[What],
    behind: u32,
    what: What,
) -> Result<(), NoMemory>
    ensures { OnOk result (whats.new ≡ whats.old ++ (test_code test.now behind ++ what ∷ [])) }
{
    test_round(whats, test, behind)?;
    whats.push(what)
}

impl Lowering {
    /// Adds what stands before the first round, or behind a round: these instructions, a test, and what begins a
    /// round.
    #[tactic(auto, using(dc_sorts::proofs::Knowing::gathering))]
    pub(crate) fn add_round(
        &mut self,
        alloc: Global,
        line: u32,
        first: &[What],
        test: &[What],
        behind: u32,
        what: What,
    ) -> Result<(), NoMemory>
        ensures { OnOk result (Adds self.old self.new
            (lined line (first.now ++ (test_code test.now behind ++ what ∷ []))) [] [] 0) }
    {
        let mut whats = DcList::new(alloc);
        repeat(&mut whats, first)?;
        begin_round(&mut whats, test, behind, what)?;
        self.add(line, whats.as_slice())
    }

    /// Adds the entry of the next DO CONCURRENT.
    pub(crate) fn enter(&mut self, line: u32) -> Result<(), NoMemory>
        ensures { OnOk result (Adds self.old self.new
            (lined line (What.Enter (self.old).loops ∷ [])) [] [] 1) }
    {
        let what = What::Enter { c: self.loops };
        self.instructions.push(Instr { line, what })?;
        self.loops = held(self.loops as usize + 1)?;
        Ok(())
    }
}

/// The loops around the block of a loop: it, and those around it.
#[tactic(auto, using(dc_sorts::proofs::Knowing::gathering))]
pub(crate) fn around_block<'a>(
    alloc: Global,
    first: Around<'a>,
    around: &[Around<'a>],
) -> Result<DcList<Around<'a>>, NoMemory>
    ensures { IfOk result (λ all. all ≡ first.entry ∷ around.entry.now) }
{
    let mut all = DcList::new(alloc);
    all.push(first)?;
    for one in around {
        all.push(*one)?;
    }
    Ok(all)
}
