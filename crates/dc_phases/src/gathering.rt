//! The answers to the items of a list, all of which are asked before a refusal is told.

ghost use Rattle.std.specs.Prelude.{◌≡◌, [], None, Some, OnOk};
ghost use Rattle.dc_phases.specs.Gathering.{with_answer, told};

use dc_text::{DcList, NoMemory};
use dc_tree::{Fail, LeastFinding};
use std::alloc::Global;

/// What the items gave so far, and the first rule that one of them breaks.
#[derive(Drop)]
pub(crate) struct Gathered<T> {
    items: DcList<T>,
    first: LeastFinding,
}

impl<T: Drop> Gathered<T> {
    pub fn new(alloc: Global) -> Gathered<T>
        ensures { result ≡ record { items = []; first = None } }
    {
        Gathered {
            items: DcList::new(alloc),
            first: LeastFinding::none(),
        }
    }

    /// Adds the answer to one item more.
    pub fn add(&mut self, answer: Result<T, Fail>) -> Result<(), NoMemory>
        ensures { OnOk result (with_answer self.old answer ≡ Some self.new) }
    {
        match answer {
            Ok(item) => self.items.push(item),
            Err(Fail::Refused(refusal)) => {
                self.first.note(refusal.rule, refusal.line);
                Ok(())
            }
            Err(Fail::NoMemory) => Err(NoMemory),
        }
    }

    /// Gives what the items gave, where none breaks a rule.
    pub fn finish(self) -> Result<DcList<T>, Fail>
        ensures { result ≡ told self.items self.first }
    {
        let Gathered { items, first } = self;
        match first.refusal() {
            None => Ok(items),
            Some(refusal) => Err(Fail::Refused(refusal)),
        }
    }
}
