//! Single statements of a block.

ghost use Rattle.std.specs.Prelude.{IsTrue};
ghost use Rattle.dc_tree.specs.Blocks.{line_of};
ghost use Rattle.dc_tree.specs.Statements as statements;
ghost use Rattle.dc_tree.specs.Statements.{deed, statement};
ghost use Rattle.dc_tree.specs.Syntax.{tree};
ghost use Rattle.dc_form.specs.BuiltPrograms.{is_held};
ghost use Rattle.dc_meaning.specs.Actions as actions;
ghost use Rattle.dc_meaning.specs.Execution.{plain_line};
ghost use Rattle.dc_meaning.specs.Walking.{Stays};
ghost use Rattle.dc_meaning.specs.WalkScope.{scope_of, own_of, index_names, IsWalk};
ghost use Rattle.dc_walk.specs.Flows.{flow_of};
ghost use Rattle.dc_walk.specs.Walked.{is_walked_deed, is_walked_line};

use crate::flow::Flow;
use crate::testing::holds;
use dc_meaning::{Stop, Walk, act};
use dc_plain::Ledger;
use dc_tree::{Action, Expr, Lined, Stmt};
use std::alloc::Global;

/// Carries out an action.
fn perform_action<'a>(
    alloc: Global,
    walk: &Walk<'_>,
    ledger: &mut Ledger,
    line: u32,
    action: &'a Action,
) -> Result<Flow<'a>, Stop>
    requires walk { IsWalk walk.now }
    requires walked { IsTrue (is_walked_deed (index_names (walk.now).standing) (deed action.now)) }
    ensures { Stays flow_of (own_of walk.now) ledger.old
        (λ call. actions.act (scope_of walk.now) call line (deed action.now)) ledger.new result }
{
    match action {
        Action::Assign { .. } | Action::Fill { .. } => {
            act(alloc, walk, ledger, line, action)?;
            Ok(Flow::On)
        }
        Action::Cycle(label) => Ok(Flow::Cycle(label)),
        Action::Exit(label) => Ok(Flow::Exit(label)),
        Action::Continue => Ok(Flow::On),
        _ => unreachable!(),
    }
}

/// Carries out an action, if a test holds.
fn perform_tested<'a>(
    alloc: Global,
    walk: &Walk<'_>,
    ledger: &mut Ledger,
    line: u32,
    test: &Expr,
    action: &'a Action,
) -> Result<Flow<'a>, Stop>
    requires walk { IsWalk walk.now }
    requires held { IsTrue (is_held (tree test.now)) }
    requires walked { IsTrue (is_walked_deed (index_names (walk.now).standing) (deed action.now)) }
    ensures { let says = statements.if_action (tree test.now) (deed action.now) in
        Stays flow_of (own_of walk.now) ledger.old
        (λ call. plain_line (scope_of walk.now) call (record { line = line; says = says }))
        ledger.new result }
{
    if holds(alloc, walk, ledger, line, Some(test))? {
        perform_action(alloc, walk, ledger, line, action)
    } else {
        Ok(Flow::On)
    }
}

/// Carries out a single statement.
pub(crate) fn perform_line<'a>(
    alloc: Global,
    walk: &Walk<'_>,
    ledger: &mut Ledger,
    lined: &'a Lined,
) -> Result<Flow<'a>, Stop>
    requires walk { IsWalk walk.now }
    requires walked { IsTrue (is_walked_line (index_names (walk.now).standing)
        (statement (lined.now).stmt)) }
    ensures { Stays flow_of (own_of walk.now) ledger.old
        (λ call. plain_line (scope_of walk.now) call (line_of lined.now)) ledger.new result }
{
    match &lined.stmt {
        Stmt::Act(action) => perform_action(alloc, walk, ledger, lined.line, action),
        Stmt::IfAction { test, action } => {
            perform_tested(alloc, walk, ledger, lined.line, test, action)
        }
        _ => unreachable!(),
    }
}
