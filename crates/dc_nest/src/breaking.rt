//! Whether a statement breaks a rule in its place.

ghost use Rattle.std.specs.Prelude.{◌≡◌, ◌||◌, [], Some, option_map, unwrap_or};
ghost use Rattle.std.specs.List.{list_any};
ghost use Rattle.std.specs.Option.{option_copied, option_map_or};
ghost use Rattle.std.specs.Str.{bytes_eq};
ghost use Rattle.dc_tree.specs.Statements.{statement, deed};
ghost use Rattle.dc_nest.specs.Places.{open_at};
ghost use Rattle.dc_nest.specs.Rules.{is_opening, is_too_deep, is_same_label, label_of, label_at, unit_at, has_other_name, is_concurrent, is_meant, crossed, aim, is_nothing, is_crossed, is_at_concurrent, deed_of, has_no_loop, is_in_procedure, strays, is_concurrent_line, breaks_at};

use crate::allowing::{allows, is_program};
use crate::place::{Aim, Construct, Place, Position};
use crate::rule::Rule;
use dc_text::{DcText, Stack};
use dc_tree::{Action, Stmt};

/// So many constructs may be open.
const MOST_OPEN: usize = 64;

fn open_at(place: &Place) -> Option<&Stack<Construct>>
    ensures { unwrap_or (option_copied result) [] ≡ open_at place.now }
{
    match place {
        Place::Within(_scope, Position::Body(around)) => Some(around),
        _ => None,
    }
}

fn is_opening(stmt: &Stmt) -> bool
    ensures { result ≡ is_opening (statement stmt.now) }
{
    matches!(
        stmt,
        Stmt::IfThen(_)
            | Stmt::Select(_)
            | Stmt::Do { .. }
            | Stmt::DoWhile { .. }
            | Stmt::Concurrent { .. }
    )
}

fn is_too_deep(place: &Place, stmt: &Stmt) -> bool
    ensures { result ≡ is_too_deep place.now (statement stmt.now) }
{
    let depth = match open_at(place) {
        Some(around) => around.len(),
        None => 0,
    };
    is_opening(stmt) && depth >= MOST_OPEN
}

fn is_same_label(a: &Option<DcText>, b: &Option<DcText>) -> bool
    ensures { result ≡ is_same_label a.now b.now }
{
    match a {
        None => b.is_none(),
        Some(a) => is_named(a, b),
    }
}

fn is_named(name: &DcText, label: &Option<DcText>) -> bool
    ensures { result ≡ is_same_label (Some name.now) label.now }
{
    match label {
        None => false,
        Some(label) => name == label,
    }
}

/// Whether an END DO has the name of the innermost construct.
fn is_label_at(place: &Place, label: &Option<DcText>) -> bool
    ensures { result ≡ is_same_label label.now (label_at place.now) }
{
    let Some(around) = open_at(place) else {
        return label.is_none();
    };
    match around.top() {
        Some(Construct::Loop(name) | Construct::Concurrent(name)) => is_same_label(label, name),
        _ => label.is_none(),
    }
}

fn is_unit_at(place: &Place, name: &DcText) -> bool
    ensures { result ≡ bytes_eq name.now (unit_at place.now) }
{
    match place {
        Place::Within(scope, _position) => match &scope.procedure {
            Some(heading) => *name == heading.name,
            None => *name == scope.program,
        },
        Place::Between(program) => name == program,
        _ => name.is_empty(),
    }
}

fn has_other_name(place: &Place, stmt: &Stmt) -> bool
    ensures { result ≡ has_other_name place.now (statement stmt.now) }
{
    match stmt {
        Stmt::EndDo(label) => !is_label_at(place, label),
        Stmt::End {
            name: Some(name),
            ..
        } => !is_unit_at(place, name),
        _ => false,
    }
}

fn is_concurrent(construct: &Construct) -> bool
    ensures { result ≡ is_concurrent construct.now }
{
    matches!(construct, Construct::Concurrent(_))
}

fn is_meant(label: &Option<DcText>, construct: &Construct) -> bool
    ensures { result ≡ is_meant label.now construct.now }
{
    match construct {
        Construct::Loop(name) | Construct::Concurrent(name) => match label {
            Some(asked) => is_named(asked, name),
            None => true,
        },
        _ => false,
    }
}

fn crossed(aim: Aim) -> Aim
    ensures { result ≡ crossed aim }
{
    match aim {
        Aim::Nothing => Aim::Nothing,
        Aim::At { concurrent, .. } => Aim::At {
            concurrent,
            crossed: true,
        },
    }
}

/// From the outermost construct inwards.
fn aim_in(label: &Option<DcText>, around: &Stack<Construct>) -> Aim
    ensures { result ≡ aim label.now around.now }
{
    let mut aim = Aim::Nothing;
    for construct in around.as_slice() {
        if is_meant(label, construct) {
            aim = Aim::At {
                concurrent: is_concurrent(construct),
                crossed: false,
            };
        } else if is_concurrent(construct) {
            aim = crossed(aim);
        }
    }
    aim
}

fn aim(label: &Option<DcText>, place: &Place) -> Aim
    ensures { result ≡ aim label.now (open_at place.now) }
{
    match open_at(place) {
        Some(around) => aim_in(label, around),
        None => Aim::Nothing,
    }
}

fn deed_of(stmt: &Stmt) -> Option<&Action>
    ensures { option_map deed (option_copied result) ≡ deed_of (statement stmt.now) }
{
    match stmt {
        Stmt::Act(action) | Stmt::IfAction { action, .. } => Some(action),
        _ => None,
    }
}

fn has_no_loop(place: &Place, action: &Action) -> bool
    ensures { result ≡ has_no_loop place.now (deed action.now) }
{
    match action {
        Action::Cycle(label) | Action::Exit(label) => matches!(aim(label, place), Aim::Nothing),
        _ => false,
    }
}

pub(crate) fn is_in_procedure(place: &Place) -> bool
    ensures { result ≡ is_in_procedure place.now }
{
    match place {
        Place::Within(scope, _position) => !is_program(scope),
        _ => false,
    }
}

fn is_crossed(aim: Aim) -> bool
    ensures { result ≡ is_crossed aim }
{
    match aim {
        Aim::Nothing => false,
        Aim::At { crossed, .. } => crossed,
    }
}

fn is_at_concurrent(aim: Aim) -> bool
    ensures { result ≡ is_at_concurrent aim }
{
    match aim {
        Aim::Nothing => false,
        Aim::At { concurrent, .. } => concurrent,
    }
}

fn strays(place: &Place, action: &Action) -> bool
    ensures { result ≡ strays place.now (deed action.now) }
{
    match action {
        Action::Cycle(label) => is_crossed(aim(label, place)),
        Action::Exit(label) => {
            let aim = aim(label, place);
            is_at_concurrent(aim) || is_crossed(aim)
        }
        Action::Return => !is_in_procedure(place),
        _ => false,
    }
}

fn is_in_concurrent(around: &Stack<Construct>) -> bool
    ensures { result ≡ list_any is_concurrent around.now }
{
    let mut inside = false;
    for construct in around.as_slice() {
        inside = is_concurrent(construct) || inside;
    }
    inside
}

fn is_confined(place: &Place) -> bool
    ensures { result ≡ (is_in_procedure place.now || list_any is_concurrent (open_at place.now)) }
{
    if is_in_procedure(place) {
        return true;
    }
    match open_at(place) {
        Some(around) => is_in_concurrent(around),
        None => false,
    }
}

pub(crate) fn breaks_at(rule: Rule, place: &Place, stmt: &Stmt) -> bool
    ensures { result ≡ breaks_at rule place.now (statement stmt.now) }
{
    match rule {
        Rule::Misplaced => !allows(place, stmt),
        Rule::TooDeep => is_too_deep(place, stmt),
        Rule::OtherName => has_other_name(place, stmt),
        Rule::NoLoop => match deed_of(stmt) {
            Some(action) => has_no_loop(place, action),
            None => false,
        },
        Rule::Strays => match deed_of(stmt) {
            Some(action) => strays(place, action),
            None => false,
        },
        Rule::Confined => matches!(stmt, Stmt::Concurrent { .. }) && is_confined(place),
    }
}
