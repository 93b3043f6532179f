//! Values that are kept in scalars, which are added for a statement.

ghost use Rattle.std.specs.Prelude.{◌≡◌, ◌++◌, [], ◌∷◌, IfOk, OnOk};
ghost use Rattle.dc_sorts.specs.Forms.{sort_of_form};
ghost use Rattle.dc_flows.specs.Flows.{keep_code, fetch_code, scalar_group};

use dc_code::{Group, What};
use dc_int::Kind;
use dc_sorts::Form;
use dc_text::{DcList, NoMemory};
use std::alloc::Global;

/// Adds how a value on top of the stack is kept in a group.
#[tactic(auto, using(dc_sorts::proofs::Knowing::gathering))]
pub(crate) fn keep(whats: &mut DcList<What>, group: u32) -> Result<(), NoMemory>
    ensures { OnOk result (whats.new ≡ whats.old ++ keep_code group) }
{
    whats.push(What::SubscriptSlot { s: group })?;
    whats.push(What::StoreSlot { s: group })
}

/// Adds how the value that a group keeps is pushed.
#[tactic(auto, using(dc_sorts::proofs::Knowing::gathering))]
pub(crate) fn fetch(whats: &mut DcList<What>, group: u32) -> Result<(), NoMemory>
    ensures { OnOk result (whats.new ≡ whats.old ++ fetch_code group) }
{
    whats.push(What::SubscriptSlot { s: group })?;
    whats.push(What::LoadSlot { s: group })
}

/// The group of a scalar of a form. It takes no memory.
pub(crate) fn scalar_group(alloc: Global, form: Form) -> Group
    ensures { result ≡ scalar_group (sort_of_form form) }
{
    match form {
        Form::Whole(kind) => Group {
            kind,
            logical: false,
            bounds: DcList::new(alloc),
        },
        Form::Logical => Group {
            kind: Kind::K4,
            logical: true,
            bounds: DcList::new(alloc),
        },
    }
}
