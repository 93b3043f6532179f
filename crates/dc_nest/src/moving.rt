//! The place behind a statement.

ghost use Rattle.std.specs.Prelude.{◌≡◌, IfOk};
ghost use Rattle.dc_tree.specs.Statements.{statement};
ghost use Rattle.dc_nest.specs.declared.place.Front.{Front};
ghost use Rattle.dc_nest.specs.declared.place.Position.{Position};
ghost use Rattle.dc_nest.specs.declared.place.Place.{Place};
ghost use Rattle.dc_nest.specs.Places.{main_of, procedure_of, under_top, open_in, inside, known, outside, behind_inside, behind_end, behind};

use crate::place::{Construct, Front, Heading, Place, Position, Scope};
use dc_text::{DcText, NoMemory, Stack};
use dc_tree::Stmt;
use std::alloc::Global;

fn open_in(alloc: Global, position: Position) -> Stack<Construct>
    ensures { result ≡ open_in position }
{
    match position {
        Position::Front(_front) => Stack::new(alloc),
        Position::Body(around) => around,
    }
}

fn body(alloc: Global, position: Position) -> Position
    ensures { result ≡ Position.Body (open_in position) }
{
    Position::Body(open_in(alloc, position))
}

fn inside(alloc: Global, construct: Construct, position: Position) -> Result<Position, NoMemory>
    ensures { IfOk result (λ p. p ≡ inside construct position) }
{
    let mut around = open_in(alloc, position);
    around.push(construct)?;
    Ok(Position::Body(around))
}

fn under_top(alloc: Global, position: Position) -> Stack<Construct>
    ensures { result ≡ under_top (open_in position) }
{
    let mut around = open_in(alloc, position);
    let _ended = around.pop();
    around
}

fn known(alloc: Global, construct: Construct, position: Position) -> Result<Position, NoMemory>
    ensures { IfOk result (λ p. p ≡ known construct position) }
{
    let mut around = under_top(alloc, position);
    around.push(construct)?;
    Ok(Position::Body(around))
}

fn outside(alloc: Global, position: Position) -> Position
    ensures { result ≡ outside position }
{
    Position::Body(under_top(alloc, position))
}

fn copy_label(alloc: Global, label: &Option<DcText>) -> Result<Option<DcText>, NoMemory>
    ensures { IfOk result (λ copy. copy ≡ label.now) }
{
    match label {
        Some(name) => Ok(Some(name.copy(alloc)?)),
        None => Ok(None),
    }
}

fn behind_inside(alloc: Global, position: Position, stmt: &Stmt) -> Result<Position, NoMemory>
    ensures { IfOk result (λ p. p ≡ behind_inside position (statement stmt.now)) }
{
    match stmt {
        Stmt::ImplicitNone | Stmt::Declare { .. } => Ok(Position::Front(Front::Declarations)),
        Stmt::IfThen(_) => inside(alloc, Construct::If(false), position),
        Stmt::Else => known(alloc, Construct::If(true), position),
        Stmt::Select(_) => inside(alloc, Construct::Select(false), position),
        Stmt::Case(_) | Stmt::CaseDefault => known(alloc, Construct::Select(true), position),
        Stmt::Do { label, .. } | Stmt::DoWhile { label, .. } => {
            let label = copy_label(alloc, label)?;
            inside(alloc, Construct::Loop(label), position)
        }
        Stmt::Concurrent { label, .. } => {
            let label = copy_label(alloc, label)?;
            inside(alloc, Construct::Concurrent(label), position)
        }
        Stmt::EndIf | Stmt::EndSelect | Stmt::EndDo(_) => Ok(outside(alloc, position)),
        Stmt::IfAction { .. } | Stmt::Act(_) => Ok(body(alloc, position)),
        _ => Ok(position),
    }
}

fn behind_end(scope: Scope) -> Place
    ensures { result ≡ behind_end scope }
{
    let Scope { program, procedure } = scope;
    match procedure {
        Some(_heading) => Place::Between(program),
        None => Place::Ended,
    }
}

fn program_begun(alloc: Global, name: &DcText) -> Result<Place, NoMemory>
    ensures { IfOk result (λ p. p ≡ Place.Within (main_of name.now) (Position.Front Front.Uses)) }
{
    let scope = Scope {
        program: name.copy(alloc)?,
        procedure: None,
    };
    Ok(Place::Within(scope, Position::Front(Front::Uses)))
}

fn procedure_begun(
    alloc: Global,
    program: DcText,
    function: bool,
    name: &DcText,
) -> Result<Place, NoMemory>
    ensures { IfOk result (λ p. p ≡ Place.Within (procedure_of program function name.now) (Position.Front Front.Implicit)) }
{
    let heading = Heading {
        function,
        name: name.copy(alloc)?,
    };
    let scope = Scope {
        program,
        procedure: Some(heading),
    };
    Ok(Place::Within(scope, Position::Front(Front::Implicit)))
}

/// The place behind a statement that its place allows.
pub(crate) fn behind(alloc: Global, place: Place, stmt: &Stmt) -> Result<Place, NoMemory>
    ensures { IfOk result (λ p. p ≡ behind place (statement stmt.now)) }
{
    match place {
        Place::Outset => match stmt {
            Stmt::Program(name) => program_begun(alloc, name),
            _ => Ok(Place::Outset),
        },
        Place::Within(scope, position) => match stmt {
            Stmt::Contains => Ok(Place::Between(scope.program)),
            Stmt::End { .. } => Ok(behind_end(scope)),
            _ => Ok(Place::Within(scope, behind_inside(alloc, position, stmt)?)),
        },
        Place::Between(program) => match stmt {
            Stmt::Procedure { function, name, .. } => procedure_begun(
                alloc, program, *function, name,
            ),
            _ => Ok(Place::Ended),
        },
        Place::Ended => Ok(Place::Ended),
    }
}
