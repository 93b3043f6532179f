//! The instructions of limits and steps.

ghost use Rattle.std.specs.Prelude.{◌≡◌, ◌++◌, [], ◌∷◌, OnOk, IsTrue};
ghost use Rattle.dc_code.specs.declared.instr.What.{What};
ghost use Rattle.dc_form.specs.BuiltPrograms.{is_held};
ghost use Rattle.dc_tree.specs.Statements.{index_ranging};
ghost use Rattle.dc_tree.specs.Syntax.{tree};
ghost use Rattle.dc_actions.specs.Expressions.{value_code};
ghost use Rattle.dc_actions.specs.Limits.{is_held_index, limits_code};
ghost use Rattle.dc_actions.specs.Naming.{scope_of, AreNamed};

use crate::names::Names;
use crate::values::value;
use dc_code::What;
use dc_int::Kind;
use dc_text::{DcList, NoMemory};
use dc_tree::{Expr, Index};
use std::alloc::Global;

/// Adds a limit or a step, wrapped to the kind of the index.
#[tactic(auto, using(dc_sorts::proofs::Knowing::gathering))]
fn limit(
    alloc: Global,
    names: &Names<'_>,
    whats: &mut DcList<What>,
    kind: Kind,
    expr: &Expr,
) -> Result<(), NoMemory>
    requires names { AreNamed names.now }
    requires held { IsTrue (is_held (tree expr.now)) }
    ensures { OnOk result (whats.new
        ≡ whats.old ++ value_code (scope_of names.now) (tree expr.now) ++ What.Wrap kind ∷ []) }
{
    value(alloc, names, whats, expr)?;
    whats.push(What::Wrap { k: kind })
}

/// Adds the limits and the step of an index, which is 1 where none is written.
#[tactic(auto, using(dc_sorts::proofs::Knowing::gathering))]
pub fn index_limits(
    alloc: Global,
    names: &Names<'_>,
    whats: &mut DcList<What>,
    kind: Kind,
    index: &Index,
) -> Result<(), NoMemory>
    requires names { AreNamed names.now }
    requires held { IsTrue (is_held_index (index_ranging index.now)) }
    ensures { OnOk result (whats.new
        ≡ whats.old ++ limits_code (scope_of names.now) kind (index_ranging index.now)) }
{
    limit(alloc, names, whats, kind, &index.first)?;
    limit(alloc, names, whats, kind, &index.last)?;
    match &index.step {
        None => whats.push(What::Const { k: kind, n: 1 }),
        Some(step) => limit(alloc, names, whats, kind, step),
    }
}
