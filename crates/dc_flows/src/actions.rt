//! The instructions of single statements.

ghost use Rattle.std.specs.Prelude.{◌≡◌, ◌++◌, ◌+◌, [], ◌∷◌, length, map, IfOk, OnOk, IsTrue};
ghost use Rattle.dc_code.specs.declared.instr.What.{What};
ghost use Rattle.dc_form.specs.BuiltPrograms.{is_held};
ghost use Rattle.dc_tree.specs.Statements.{deed, statement};
ghost use Rattle.dc_tree.specs.Syntax.{tree};
ghost use Rattle.dc_actions.specs.Deeds.{lined, texts_of_deed, groups_of_deed};
ghost use Rattle.dc_actions.specs.Expressions.{value_code};
ghost use Rattle.dc_actions.specs.Naming.{scope_of, AreNamed};
ghost use Rattle.dc_flows.specs.Adding.{before_of, AddsWhats, Adds};
ghost use Rattle.dc_flows.specs.Arounds.{around_of};
ghost use Rattle.dc_flows.specs.Flows.{
  action_code,
  guarded_code,
  says_code,
  texts_of_says,
  groups_of_says,
};
ghost use Rattle.dc_flows.specs.FlowsHeld.{action_has_code, says_has_code};

use crate::around::{Around, Leaving, jump};
use crate::lowering::Lowering;
use dc_actions::{Names, assignment, filling, output, value};
use dc_code::What;
use dc_text::{DcList, NoMemory};
use dc_tree::{Action, Expr, Stmt};
use std::alloc::Global;

impl Lowering {
    /// The instructions of a statement, inside these loops.
    #[tactic(auto, using(dc_sorts::proofs::Knowing::gathering))]
    fn action(
        &mut self,
        alloc: Global,
        names: &Names<'_>,
        around: &[Around<'_>],
        action: &Action,
    ) -> Result<DcList<What>, NoMemory>
        requires names { AreNamed names.now }
        requires held { IsTrue (action_has_code (scope_of names.now) (deed action.now)) }
        ensures { IfOk result (λ whats. AddsWhats self.old self.new whats
            (action_code (scope_of names.now) (before_of self.old) (map around_of around.now)
            (deed action.now))
            (texts_of_deed (deed action.now))
            (groups_of_deed (scope_of names.now) (deed action.now))) }
    {
        let mut whats = DcList::new(alloc);
        match action {
            Action::Assign { left, right } => assignment(alloc, names, &mut whats, left, right)?,
            Action::Fill { name, items } => {
                let text = name.as_bytes();
                let items = items.as_slice();
                filling(alloc, names, &mut whats, &mut self.groups, text, items)?;
            }
            Action::Print { items, .. } => {
                let items = items.as_slice();
                output(alloc, names, &mut whats, &mut self.texts, items)?;
            }
            Action::Cycle(name) => jump(&mut whats, around, Leaving::Cycle, name.as_ref())?,
            Action::Exit(name) => jump(&mut whats, around, Leaving::Exit, name.as_ref())?,
            Action::Stop => whats.push(What::Stop)?,
            Action::ErrorStop => whats.push(What::ErrorStop)?,
            Action::Continue => {}
            _ => unreachable!(),
        }
        Ok(whats)
    }

    /// The instructions of a statement that is carried out where a test holds.
    #[tactic(auto, using(dc_sorts::proofs::Knowing::gathering))]
    fn guarded(
        &mut self,
        alloc: Global,
        names: &Names<'_>,
        around: &[Around<'_>],
        test: &Expr,
        action: &Action,
    ) -> Result<DcList<What>, NoMemory>
        requires names { AreNamed names.now }
        requires test { IsTrue (is_held (tree test.now)) }
        requires held { IsTrue (action_has_code (scope_of names.now) (deed action.now)) }
        ensures { IfOk result (λ whats. AddsWhats self.old self.new whats
            (guarded_code (before_of self.old).at (value_code (scope_of names.now) (tree test.now))
            (action_code (scope_of names.now) (before_of self.old) (map around_of around.now)
            (deed action.now)))
            (texts_of_deed (deed action.now))
            (groups_of_deed (scope_of names.now) (deed action.now))) }
    {
        let mut whats = DcList::new(alloc);
        value(alloc, names, &mut whats, test)?;
        let inside = self.action(alloc, names, around, action)?;
        let behind = self.place_behind(whats.len() + 1 + inside.len())?;
        whats.push(What::JumpFalse { t: behind })?;
        whats.append(inside)?;
        Ok(whats)
    }

    /// The instructions of a statement or an IF statement, inside these loops.
    #[tactic(auto, using(dc_tree::proofs::Views::statement_views))]
    pub(crate) fn whats(
        &mut self,
        alloc: Global,
        names: &Names<'_>,
        around: &[Around<'_>],
        stmt: &Stmt,
    ) -> Result<DcList<What>, NoMemory>
        requires names { AreNamed names.now }
        requires held { IsTrue (says_has_code (scope_of names.now) (statement stmt.now)) }
        ensures { IfOk result (λ whats. AddsWhats self.old self.new whats
            (says_code (scope_of names.now) (before_of self.old) (map around_of around.now)
            (statement stmt.now))
            (texts_of_says (statement stmt.now))
            (groups_of_says (scope_of names.now) (statement stmt.now))) }
    {
        match stmt {
            Stmt::Act(action) => self.action(alloc, names, around, action),
            Stmt::IfAction { test, action } => self.guarded(alloc, names, around, test, action),
            _ => unreachable!(),
        }
    }

    /// Adds the instructions of a statement or an IF statement, inside these loops.
    pub(crate) fn says(
        &mut self,
        alloc: Global,
        names: &Names<'_>,
        around: &[Around<'_>],
        line: u32,
        stmt: &Stmt,
    ) -> Result<(), NoMemory>
        requires names { AreNamed names.now }
        requires held { IsTrue (says_has_code (scope_of names.now) (statement stmt.now)) }
        ensures { OnOk result (Adds self.old self.new
            (lined line (says_code (scope_of names.now) (before_of self.old)
            (map around_of around.now) (statement stmt.now)))
            (texts_of_says (statement stmt.now))
            (groups_of_says (scope_of names.now) (statement stmt.now)) 0) }
    {
        let whats = self.whats(alloc, names, around, stmt)?;
        self.add_lined(line, whats.as_slice())
    }
}
