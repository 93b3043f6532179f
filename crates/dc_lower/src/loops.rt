//! The code of a loop: its header and its block, with their plans.

ghost use Rattle.std.specs.Prelude.{◌≡◌, ◌++◌, [], ◌∷◌, IfOk, IsTrue};
ghost use Rattle.dc_code.specs.declared.instr.What.{What};
ghost use Rattle.dc_tree.specs.Statements.{index_ranging};
ghost use Rattle.dc_actions.specs.Deeds.{lined};
ghost use Rattle.dc_actions.specs.Limits.{is_held_index, limits_code};
ghost use Rattle.dc_lower.specs.Lowered.{index_group};
ghost use Rattle.dc_actions.specs.Naming.{scope_of, AreNamed};

use crate::blocks::add_lined;
use dc_actions::{Names, index_limits};
use dc_code::{Group, Instr, Plan, What};
use dc_int::Kind;
use dc_text::{DcList, NoMemory};
use dc_tree::Index;
use std::alloc::Global;

/// The header of a loop with one index, at a line.
pub(crate) fn header(
    alloc: Global,
    names: &Names<'_>,
    line: u32,
    kind: Kind,
    index: &Index,
) -> Result<DcList<Instr>, NoMemory>
    requires names { AreNamed names.now }
    requires held { IsTrue (is_held_index (index_ranging index.now)) }
    ensures { IfOk result (λ made. made ≡ lined line
        (limits_code (scope_of names.now) kind (index_ranging index.now) ++ What.End ∷ [])) }
{
    let mut whats = DcList::new(alloc);
    index_limits(alloc, names, &mut whats, kind, index)?;
    whats.push(What::End)?;
    let mut instructions = DcList::new(alloc);
    add_lined(&mut instructions, line, whats.as_slice())?;
    Ok(instructions)
}

/// The groups of the indexes: one scalar.
pub(crate) fn index_groups(alloc: Global, kind: Kind) -> Result<DcList<Group>, NoMemory>
    ensures { IfOk result (λ groups. groups ≡ index_group kind ∷ []) }
{
    let mut groups = DcList::new(alloc);
    groups.push(Group {
        kind,
        logical: false,
        bounds: DcList::new(alloc),
    })?;
    Ok(groups)
}

/// A plan with these groups and no dummies. It takes no memory.
pub(crate) fn plan(alloc: Global, groups: DcList<Group>) -> Plan
    ensures { result ≡ record { dummies = []; groups = groups } }
{
    Plan {
        dummies: DcList::new(alloc),
        groups,
    }
}
