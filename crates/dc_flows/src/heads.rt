//! The tests, ranges and selectors of arms and of SELECT CASE.

ghost use Rattle.std.specs.Prelude.{◌≡◌, map, option_map};
ghost use Rattle.dc_tree.specs.Statements.{case_range, statement};
ghost use Rattle.dc_tree.specs.Syntax.{tree};
ghost use Rattle.dc_flows.specs.Flows.{selected, tested, ranges_in};

use dc_tree::{Expr, Range, Stmt};

/// The test of an arm of IF. None for ELSE.
pub(crate) fn test_of(stmt: &Stmt) -> Option<&Expr>
    ensures { option_map (λ test. tree test.now) result ≡ tested (statement stmt.entry.now) }
{
    match stmt {
        Stmt::IfThen(test) => Some(test),
        Stmt::ElseIf(test) => Some(test),
        _ => None,
    }
}

/// The ranges of an arm of SELECT CASE. None for the default.
pub(crate) fn ranges_of(stmt: &Stmt) -> Option<&[Range]>
    ensures { option_map (λ ranges. map case_range ranges.now) result
        ≡ ranges_in (statement stmt.entry.now) }
{
    match stmt {
        Stmt::Case(ranges) => Some(ranges.as_slice()),
        _ => None,
    }
}

/// The selector of SELECT CASE.
pub(crate) fn selector_of(stmt: &Stmt) -> Option<&Expr>
    ensures { option_map (λ selector. tree selector.now) result
        ≡ selected (statement stmt.entry.now) }
{
    match stmt {
        Stmt::Select(selector) => Some(selector),
        _ => None,
    }
}
