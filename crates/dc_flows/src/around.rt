//! The loops around a statement.

ghost use Rattle.std.specs.Prelude.{◌≡◌, ◌++◌, [], ◌∷◌, OnOk, drop, map, option_map};
ghost use Rattle.dc_code.specs.declared.instr.What.{What};
ghost use Rattle.dc_meaning.specs.Execution.{belongs};
ghost use Rattle.dc_flows.specs.Arounds.{around_of, place_at};
ghost use Rattle.dc_flows.specs.Flows.{loop_named, jump_code};

use dc_code::What;
use dc_text::{DcList, DcText, NoMemory};

/// A loop around a statement: its label, and where a CYCLE and where an EXIT that belongs to it go on.
#[derive(Clone, Copy)]
pub(crate) struct Around<'a> {
    pub label: Option<&'a DcText>,
    pub next: u32,
    pub behind: u32,
}

/// How a loop is left: for its next round, or for what is behind it.
#[derive(Clone, Copy, Debug, PartialEq, Eq)]
pub(crate) enum Leaving {
    Cycle,
    Exit,
}

/// Whether a CYCLE or EXIT with this name, or with none, belongs to a loop with this label.
fn belongs(label: Option<&DcText>, given: Option<&DcText>) -> bool
    ensures { result ≡ belongs (option_map (λ name. name.now) label.entry)
        (option_map (λ name. name.now) given.entry) }
{
    match (label, given) {
        (_, None) => true,
        (Some(label), Some(given)) => label.as_bytes() == given.as_bytes(),
        (None, Some(_)) => false,
    }
}

/// The loop to which a CYCLE or EXIT with this name, or with none, belongs. The innermost is the first.
fn loop_named<'a>(around: &[Around<'a>], given: Option<&DcText>) -> Option<Around<'a>>
    ensures { option_map around_of result ≡ loop_named (map around_of around.now)
        (option_map (λ name. name.now) given.entry) }
{
    for found in around {
        if belongs(found.label, given) {
            return Some(*found);
        }
    }
    None
}

/// Adds the jump of a CYCLE or an EXIT.
#[tactic(auto, using(dc_sorts::proofs::Knowing::gathering))]
pub(crate) fn jump(
    whats: &mut DcList<What>,
    around: &[Around<'_>],
    leaving: Leaving,
    given: Option<&DcText>,
) -> Result<(), NoMemory>
    ensures { OnOk result (whats.new ≡ whats.old ++ jump_code (place_at leaving)
        (loop_named (map around_of around.now) (option_map (λ name. name.now) given.entry))) }
{
    match loop_named(around, given) {
        Some(found) => match leaving {
            Leaving::Cycle => whats.push(What::Jump { t: found.next }),
            Leaving::Exit => whats.push(What::Jump { t: found.behind }),
        },
        None => whats.push(What::Jump { t: 0 }),
    }
}
