//! What a statement is to the statements around it.

ghost use Rattle.std.specs.Prelude.{◌≡◌};
ghost use Rattle.dc_tree.specs.Statements.{statement};
ghost use Rattle.dc_nest.specs.Nested.{form_of};

use dc_tree::Stmt;

#[derive(Clone, Copy, PartialEq, Eq)]
pub(crate) enum Form {
    BeginsProgram,
    /// USE, IMPLICIT NONE, or a declaration.
    InFront,
    /// CONTAINS.
    BeginsProcedures,
    BeginsProcedure,
    EndsUnit,
    /// It does something, and begins and ends nothing.
    Acts,
    BeginsIf,
    /// ELSE IF or ELSE.
    BeginsElse,
    EndsIf,
    BeginsSelect,
    /// CASE or CASE DEFAULT.
    BeginsCase,
    EndsSelect,
    BeginsLoop,
    EndsLoop,
}

pub(crate) fn form_of(stmt: &Stmt) -> Form
    ensures { result ≡ form_of (statement stmt.now) }
{
    match stmt {
        Stmt::Program(_) => Form::BeginsProgram,
        Stmt::Use { .. } | Stmt::ImplicitNone | Stmt::Declare { .. } => Form::InFront,
        Stmt::Contains => Form::BeginsProcedures,
        Stmt::Procedure { .. } => Form::BeginsProcedure,
        Stmt::End { .. } => Form::EndsUnit,
        Stmt::IfAction { .. } | Stmt::Act(_) => Form::Acts,
        Stmt::IfThen(_) => Form::BeginsIf,
        Stmt::ElseIf(_) | Stmt::Else => Form::BeginsElse,
        Stmt::EndIf => Form::EndsIf,
        Stmt::Select(_) => Form::BeginsSelect,
        Stmt::Case(_) | Stmt::CaseDefault => Form::BeginsCase,
        Stmt::EndSelect => Form::EndsSelect,
        Stmt::Do { .. } | Stmt::DoWhile { .. } | Stmt::Concurrent { .. } => Form::BeginsLoop,
        Stmt::EndDo(_) => Form::EndsLoop,
    }
}
