//! What an iteration did is taken back.

ghost use Rattle.std.specs.Prelude.{◌≡◌};
ghost use Rattle.dc_int.specs.Entries.{store_after};
ghost use Rattle.dc_plain.specs.Views.{store_of, entries_of};

use crate::ledger::{put, value_in};
use crate::note::{Note, Variable};

/// Leaves the opening variables again, from which these notes led to the variables: gives each
/// element that they define its opening state.
pub(crate) fn take_back(variables: &mut Vec<Variable>, notes: &[Note], opening: &[Variable])
    requires { store_of variables.old.items
        ≡ store_after (entries_of notes.now) (store_of opening.now) }
    ensures { store_of variables.new.items ≡ store_of opening.now }
{
    for note in notes {
        if let Note::Defined { element, .. } = note {
            put(variables, *element, value_in(opening, *element));
        }
    }
}
