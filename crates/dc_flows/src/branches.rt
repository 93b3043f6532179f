//! The arms of IF.

ghost use Rattle.std.specs.Prelude.{◌≡◌, ◌++◌, ◌+◌, [], ◌∷◌, length, IfOk, OnOk, IsTrue};
ghost use Rattle.dc_code.specs.declared.instr.What.{What};
ghost use Rattle.dc_form.specs.BuiltPrograms.{is_held};
ghost use Rattle.dc_tree.specs.Syntax.{tree};
ghost use Rattle.dc_actions.specs.Deeds.{lined};
ghost use Rattle.dc_actions.specs.Expressions.{value_code};
ghost use Rattle.dc_actions.specs.Naming.{scope_of, AreNamed};
ghost use Rattle.dc_flows.specs.Adding.{before_of, Adds};
ghost use Rattle.dc_flows.specs.Flows.{test_code};

use crate::lowering::Lowering;
use crate::sizes::sum;
use dc_actions::{Names, value};
use dc_code::What;
use dc_text::{DcList, NoMemory};
use dc_tree::Expr;
use std::alloc::Global;

impl Lowering {
    /// Adds instructions of one line, and nothing else.
    pub(crate) fn add(&mut self, line: u32, whats: &[What]) -> Result<(), NoMemory>
        ensures { OnOk result (Adds self.old self.new (lined line whats.now) [] [] 0) }
    {
        self.add_lined(line, whats)
    }

    /// Adds a test, behind which a block of this size and a jump are passed over where it doesn't hold.
    pub(crate) fn guard(&mut self, line: u32, test: DcList<What>, size: u32) -> Result<(), NoMemory>
        ensures { OnOk result (Adds self.old self.new
            (lined line (test_code test
            ((before_of self.old).at + (length test + 1) + size + 1))) [] [] 0) }
    {
        let mut whats = test;
        let behind = self.place_behind(whats.len() + 1)?;
        let next = sum(sum(behind, size)?, 1)?;
        whats.push(What::JumpFalse { t: next })?;
        self.add(line, whats.as_slice())
    }
}

/// The instructions of a test.
pub(crate) fn test(alloc: Global, names: &Names<'_>, test: &Expr) -> Result<DcList<What>, NoMemory>
    requires names { AreNamed names.now }
    requires held { IsTrue (is_held (tree test.now)) }
    ensures { IfOk result (λ whats. whats ≡ value_code (scope_of names.now) (tree test.now)) }
{
    let mut whats = DcList::new(alloc);
    value(alloc, names, &mut whats, test)?;
    Ok(whats)
}
