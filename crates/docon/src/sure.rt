//! `run_sure`: the top call over an outside that doesn't fail.

ghost use Rattle.std.specs.Prelude.{◌≡◌};
ghost use Rattle.docon.specs.declared.statuses.TheConstants.{READ_FAULT};
ghost use Rattle.docon.specs.Answers.{Answers, KeepsFiles};
ghost use Rattle.docon.specs.Report.{reading};
ghost use Rattle.docon.specs.Sure.{sure_change, sure_told, no_faults, HasSureRoom, WritesSurely};

use crate::top::docon;
use dc_outer::{BytesInSure, BytesOutSure, FilesSure, OpenGate};
use dc_text::DcText;
use std::alloc::Global;

/// `docon` over files and input that never fail, and over sinks that fail only where they are full: all
/// that `docon` promises, and that no reading fails. With room for the report it is written whole, or
/// nothing is, for want of memory.
pub fn run_sure(
    alloc: Global,
    words: &[DcText],
    files: &mut FilesSure,
    input: &mut BytesInSure,
    out: &mut BytesOutSure,
    log: &mut BytesOutSure,
) -> u8
    ensures answers { let asked = reading words.now sure_told no_faults files.old files.new in
        Answers asked (sure_change out.old out.new) (sure_change log.old log.new) result }
    ensures unchanged { KeepsFiles words.now sure_told no_faults files.old files.new
        × (input.new ≡ input.old) }
    ensures reads { ¬ (result ≡ READ_FAULT) }
    ensures whole { HasSureRoom words.now files.old out.old log.old
        → WritesSurely words.now files.old (sure_change out.old out.new)
        (sure_change log.old log.new) result }
{
    docon(alloc, words, files, input, out, log, &OpenGate)
}
