//! Tests: of IF, of DO WHILE, and of loops that have none.

ghost use Rattle.std.specs.Prelude.{◌≡◌, option_map, IsTrue};
ghost use Rattle.std.specs.Option.{option_copied};
ghost use Rattle.dc_tree.specs.Statements.{statement};
ghost use Rattle.dc_tree.specs.Syntax.{tree};
ghost use Rattle.dc_meaning.specs.Walking.{Stays};
ghost use Rattle.dc_meaning.specs.WalkScope.{scope_of, own_of, IsWalk};
ghost use Rattle.dc_walk.specs.Arms.{tested, test_of};
ghost use Rattle.dc_walk.specs.Walked.{is_held_or_absent};

use dc_meaning::{Stop, Walk, value};
use dc_plain::Ledger;
use dc_tree::{Expr, Stmt};
use std::alloc::Global;

/// Whether a test holds. Where there is none, it does.
pub(crate) fn holds(
    alloc: Global,
    walk: &Walk<'_>,
    ledger: &mut Ledger,
    line: u32,
    test: Option<&Expr>,
) -> Result<bool, Stop>
    requires walk { IsWalk walk.now }
    requires held { IsTrue (is_held_or_absent (option_map tree (option_copied test))) }
    ensures { Stays (λ is. is) (own_of walk.now) ledger.old
        (λ call. tested (scope_of walk.now) call line (option_map tree (option_copied test.entry)))
        ledger.new result }
{
    match test {
        Some(test) => Ok(value(alloc, walk, ledger, line, test)? != 0),
        None => Ok(true),
    }
}

/// The test of an arm of IF, which begins with this statement.
pub(crate) fn test_of(head: &Stmt) -> Option<&Expr>
    ensures { option_map tree (option_copied result) ≡ test_of (statement head.now) }
{
    match head {
        Stmt::IfThen(test) => Some(test),
        Stmt::ElseIf(test) => Some(test),
        _ => None,
    }
}
