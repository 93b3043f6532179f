//! Which statements a place allows.

ghost use Rattle.std.specs.Prelude.{◌≡◌, option_map};
ghost use Rattle.std.specs.Option.{option_copied};
ghost use Rattle.dc_tree.specs.Statements.{statement};
ghost use Rattle.dc_nest.specs.Places.{open_at, innermost, directly_in, is_if, is_before_else, is_select, is_loop, is_block, may_use, may_be_implicit, may_declare, may_execute, is_closed, is_program, ends, ends_program, allows_inside, allows, is_ended};

use crate::place::{Construct, Front, Place, Position, Scope};
use dc_tree::{Stmt, Unit};

fn innermost(position: &Position) -> Option<&Construct>
    ensures { option_copied result ≡ innermost position.now }
{
    match position {
        Position::Front(_front) => None,
        Position::Body(around) => around.top(),
    }
}

fn is_before_else(construct: &Construct) -> bool
    ensures { result ≡ is_before_else construct.now }
{
    match construct {
        Construct::If(otherwise) => !*otherwise,
        _ => false,
    }
}

fn is_block(construct: &Construct) -> bool
    ensures { result ≡ is_block construct.now }
{
    match construct {
        Construct::Select(cased) => *cased,
        _ => true,
    }
}

fn is_in_if(position: &Position) -> bool
    ensures { result ≡ directly_in is_if position.now }
{
    match innermost(position) {
        Some(construct) => matches!(construct, Construct::If(_)),
        None => false,
    }
}

fn may_have_else(position: &Position) -> bool
    ensures { result ≡ directly_in is_before_else position.now }
{
    match innermost(position) {
        Some(construct) => is_before_else(construct),
        None => false,
    }
}

fn is_in_select(position: &Position) -> bool
    ensures { result ≡ directly_in is_select position.now }
{
    match innermost(position) {
        Some(construct) => matches!(construct, Construct::Select(_)),
        None => false,
    }
}

fn is_in_loop(position: &Position) -> bool
    ensures { result ≡ directly_in is_loop position.now }
{
    match innermost(position) {
        Some(construct) => matches!(construct, Construct::Loop(_) | Construct::Concurrent(_)),
        None => false,
    }
}

fn may_use(position: &Position) -> bool
    ensures { result ≡ may_use position.now }
{
    matches!(position, Position::Front(Front::Uses))
}

fn may_be_implicit(position: &Position) -> bool
    ensures { result ≡ may_be_implicit position.now }
{
    matches!(position, Position::Front(Front::Uses | Front::Implicit))
}

fn may_declare(position: &Position) -> bool
    ensures { result ≡ may_declare position.now }
{
    matches!(position, Position::Front(_))
}

fn may_execute(position: &Position) -> bool
    ensures { result ≡ may_execute position.now }
{
    match innermost(position) {
        Some(construct) => is_block(construct),
        None => true,
    }
}

fn is_closed(position: &Position) -> bool
    ensures { result ≡ is_closed position.now }
{
    innermost(position).is_none()
}

pub(crate) fn is_program(scope: &Scope) -> bool
    ensures { result ≡ is_program scope.now }
{
    scope.procedure.is_none()
}

fn ends(unit: Option<Unit>, scope: &Scope) -> bool
    ensures { result ≡ ends unit scope.now }
{
    let Some(unit) = unit else {
        return true;
    };
    let Some(heading) = &scope.procedure else {
        return matches!(unit, Unit::Program);
    };
    match unit {
        Unit::Program => false,
        Unit::Function => heading.function,
        Unit::Subroutine => !heading.function,
    }
}

fn ends_program(unit: Option<Unit>) -> bool
    ensures { result ≡ ends_program unit }
{
    matches!(unit, None | Some(Unit::Program))
}

fn allows_inside(position: &Position, stmt: &Stmt) -> bool
    ensures { result ≡ allows_inside position.now (statement stmt.now) }
{
    match stmt {
        Stmt::Use { .. } => may_use(position),
        Stmt::ImplicitNone => may_be_implicit(position),
        Stmt::Declare { .. } => may_declare(position),
        Stmt::IfThen(_)
        | Stmt::IfAction { .. }
        | Stmt::Select(_)
        | Stmt::Do { .. }
        | Stmt::DoWhile { .. }
        | Stmt::Concurrent { .. }
        | Stmt::Act(_) => may_execute(position),
        Stmt::ElseIf(_) | Stmt::Else => may_have_else(position),
        Stmt::EndIf => is_in_if(position),
        Stmt::Case(_) | Stmt::CaseDefault | Stmt::EndSelect => is_in_select(position),
        Stmt::EndDo(_) => is_in_loop(position),
        _ => false,
    }
}

/// Whether a statement may stand in a place.
pub(crate) fn allows(place: &Place, stmt: &Stmt) -> bool
    ensures { result ≡ allows place.now (statement stmt.now) }
{
    match place {
        Place::Outset => matches!(stmt, Stmt::Program(_)),
        Place::Within(scope, position) => match stmt {
            Stmt::Contains => is_program(scope) && is_closed(position),
            Stmt::End { unit, .. } => ends(*unit, scope) && is_closed(position),
            _ => allows_inside(position, stmt),
        },
        Place::Between(_program) => match stmt {
            Stmt::Procedure { .. } => true,
            Stmt::End { unit, .. } => ends_program(*unit),
            _ => false,
        },
        Place::Ended => false,
    }
}

pub(crate) fn is_ended(place: &Place) -> bool
    ensures { result ≡ is_ended place.now }
{
    matches!(place, Place::Ended)
}
