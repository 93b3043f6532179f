//! Laws of the definitions, each the clause of a function that does nothing.

ghost use Rattle.std.specs.Prelude.{◌≡◌, List, [], None, Some};
ghost use Rattle.dc_tree.specs.Back.{IsToldApart};
ghost use Rattle.dc_tree.specs.Findings.{IsFirst, found_in, least_of};
ghost use Rattle.dc_tree.specs.declared.fail.Refusal.{Refusal};
ghost use Rattle.dc_tree.specs.Grammar.{Ranked, spell};
ghost use Rattle.dc_tree.specs.StatementsBack.{IsProgramToldApart, IsStatementToldApart};
ghost use Rattle.dc_tree.specs.Syntax.{Tree};

use crate::expr::Expr;
use crate::program::Program;
use crate::stmt::Stmt;

/// Two expressions of the code that definitions see as one tree are one.
pub fn trees_are_told_apart(a: &Expr, b: &Expr)
    ensures { IsToldApart a.now b.now }
{}

/// Two statements of the code that definitions see as one are one.
pub fn statements_are_told_apart(a: &Stmt, b: &Stmt)
    ensures { IsStatementToldApart a.now b.now }
{}

/// Two programs of the code that definitions see as one are one.
pub fn programs_are_told_apart(a: &Program, b: &Program)
    ensures { IsProgramToldApart a.now b.now }
{}

/// Tokens spell one expression at most.
pub fn tokens_spell_one_expression()
    ensures { (one other : Tree) → Ranked one → Ranked other → spell one ≡ spell other
        → one ≡ other }
{}

/// The least of some findings is the first broken rule, where there are findings, and two first
/// broken rules are one.
pub fn the_least_finding_is_the_first()
    ensures first { (findings : List Refusal) (least : Refusal) → least_of findings ≡ Some least
        → IsFirst (found_in findings) least }
    ensures none { (findings : List Refusal) → least_of findings ≡ None → findings ≡ [] }
    ensures one { (findings : List Refusal) (a b : Refusal) → IsFirst (found_in findings) a
        → IsFirst (found_in findings) b → a ≡ b }
{}
