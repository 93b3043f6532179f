//! `Flow`: where the execution of a block goes on.

ghost use Rattle.std.specs.Prelude.{◌≡◌};
ghost use Rattle.dc_meaning.specs.Acts.{Act};
ghost use Rattle.dc_meaning.specs.Actions as actions;
ghost use Rattle.dc_meaning.specs.Execution as execution;
ghost use Rattle.dc_walk.specs.Flows.{flow_of, leaving};

use dc_text::DcText;

/// Behind a block, or by CYCLE or EXIT at a loop, which a name may tell.
#[derive(Clone, Copy)]
pub(crate) enum Flow<'a> {
    On,
    Cycle(&'a Option<DcText>),
    Exit(&'a Option<DcText>),
}

/// Whether a CYCLE or EXIT that belongs to no loop inside belongs to the loop with this label.
fn belongs(label: &Option<DcText>, given: &Option<DcText>) -> bool
    ensures { result ≡ execution.belongs label.now given.now }
{
    match given {
        None => true,
        Some(given) => match label {
            None => false,
            Some(label) => label.as_bytes() == given.as_bytes(),
        },
    }
}

/// How a loop with this label is left behind a round that ended so, and `None` where it isn't.
pub(crate) fn leaving<'a>(label: &Option<DcText>, flow: Flow<'a>) -> Option<Flow<'a>>
    ensures { (next : Act actions.Flow)
        → execution.behind_round label.now next (flow_of flow.entry) ≡ leaving next result }
{
    match flow {
        Flow::On => None,
        Flow::Cycle(given) => {
            if belongs(label, given) {
                None
            } else {
                Some(flow)
            }
        }
        Flow::Exit(given) => {
            if belongs(label, given) {
                Some(Flow::On)
            } else {
                Some(flow)
            }
        }
    }
}
