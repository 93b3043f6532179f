//! Assignments and output.

ghost use Rattle.std.specs.Prelude.{◌≡◌};
ghost use Rattle.dc_form.specs.BuiltPrograms.{is_held_target, is_built_assignment, is_built_deed, is_built_inside, spares, is_built_line};
ghost use Rattle.dc_tree.specs.Statements.{target_of, deed, statement};

use crate::values::{all_held, is_held};
use dc_tree::{Action, Stmt, Target};

fn is_held_target(target: &Target) -> bool
    ensures { result ≡ is_held_target (target_of target.now) }
{
    match &target.subscripts {
        None => true,
        Some(subscripts) => all_held(subscripts.as_slice()),
    }
}

fn is_built_assignment(action: &Action) -> bool
    ensures { result ≡ is_built_assignment (deed action.now) }
{
    match action {
        Action::Assign { left, right } => is_held_target(left) && is_held(right),
        Action::Fill { items, .. } => all_held(items.as_slice()),
        _ => false,
    }
}

fn is_built_deed(action: &Action) -> bool
    ensures { result ≡ is_built_deed (deed action.now) }
{
    match action {
        Action::Print { items, .. } => all_held(items.as_slice()),
        _ => is_built_assignment(action),
    }
}

/// Whether a statement can stand in a loop.
pub(crate) fn is_built_inside(stmt: &Stmt) -> bool
    ensures { result ≡ is_built_inside (statement stmt.now) }
{
    match stmt {
        Stmt::Act(action) => is_built_assignment(action),
        _ => false,
    }
}

/// Whether a statement doesn't define what has this name.
pub(crate) fn spares(index: &[u8], stmt: &Stmt) -> bool
    ensures { result ≡ spares index.now (statement stmt.now) }
{
    match stmt {
        Stmt::Act(Action::Assign { left, .. }) => !(left.name.as_bytes() == index),
        Stmt::Act(Action::Fill { name, .. }) => !(name.as_bytes() == index),
        _ => true,
    }
}

/// Whether a statement can stand outside of loops.
pub(crate) fn is_built_line(stmt: &Stmt) -> bool
    ensures { result ≡ is_built_line (statement stmt.now) }
{
    match stmt {
        Stmt::Act(action) => is_built_deed(action),
        _ => false,
    }
}
