//! The assignments of a loop's block.

ghost use Rattle.std.specs.Prelude.{IsTrue};
ghost use Rattle.dc_form.specs.BuiltPrograms.{is_built_assignment};
ghost use Rattle.dc_tree.specs.Statements as statements;
ghost use Rattle.dc_tree.specs.Statements.{deed};
ghost use Rattle.dc_meaning.specs.Actions as actions;
ghost use Rattle.dc_meaning.specs.Walking.{Stays};
ghost use Rattle.dc_meaning.specs.WalkScope.{scope_of, own_of, index_names, spared, IsWalk};

use crate::assign::{assign, assign_list};
use crate::stop::Stop;
use crate::walk::Walk;
use dc_plain::Ledger;
use dc_tree::Action;
use std::alloc::Global;

/// Carries out an assignment.
pub fn act(
    alloc: Global,
    walk: &Walk<'_>,
    ledger: &mut Ledger,
    line: u32,
    action: &Action,
) -> Result<(), Stop>
    requires walk { IsWalk walk.now }
    requires built { IsTrue (is_built_assignment (deed action.now)) }
    requires spared { IsTrue (spared (index_names (walk.now).standing) (statements.act (deed action.now))) }
    ensures { Stays (λ done. actions.on) (own_of walk.now) ledger.old
        (λ call. actions.act (scope_of walk.now) call line (deed action.now)) ledger.new result }
{
    match action {
        Action::Assign { left, right } => assign(alloc, walk, ledger, line, left, right),
        Action::Fill { name, items } => {
            assign_list(alloc, walk, ledger, line, name.as_bytes(), items.as_slice())
        }
        _ => unreachable!(),
    }
}
