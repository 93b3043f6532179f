//! The tree of a program, read from its statements by recursive descent.

ghost use Rattle.std.specs.Prelude.{◌≡◌, ◌<◌, ◌≤◌, ◌↔◌, [], ◌∷◌, ◌++◌, map, length, None, Some, Ok, IsTrue, IfOk, OnOk};
ghost use Rattle.dc_tree.specs.Blocks.{line_of, item, items, part_items, subprogram_of, source_of};
ghost use Rattle.dc_tree.specs.Listing.{contains_lines};
ghost use Rattle.dc_nest.specs.declared.form.Form.{Form};
ghost use Rattle.dc_nest.specs.Ahead.{next_form, is_node_next, ReadsItem, ReadsBlock, ReadsPart, AddsArms, ReadsFront, ReadsUnit, ReadsProcedure, ReadsProcedures, ReadsProgram, ItemAhead, BlockAhead, PartAhead, ArmsAhead, UnitAhead, ProcedureAhead, ProceduresAhead, ProgramAhead};

use crate::form::{Form, form_of};
use dc_text::{DcList, NoMemory, Stack};
use dc_tree::{Block, Lined, Node, Part, Procedure, Program};
use std::alloc::Global;

/// A unit in front of its CONTAINS or END.
#[derive(Drop)]
struct OpenUnit {
    head: Lined,
    front: DcList<Lined>,
    body: Block,
}

/// The next statement, of which the judge has shown that it is there.
fn take(rest: &mut Stack<Lined>) -> Lined
    requires { map line_of rest.old ≡ [] → ⊥ }
    ensures { rest.old ≡ result ∷ rest.new }
{
    match rest.pop() {
        Some(lined) => lined,
        None => unreachable!(),
    }
}

fn next_form(rest: &Stack<Lined>) -> Option<Form>
    ensures { result ≡ next_form (map line_of rest.now) }
{
    match rest.top() {
        Some(lined) => Some(form_of(&lined.stmt)),
        None => None,
    }
}

fn is_node_next(rest: &Stack<Lined>) -> bool
    ensures { result ≡ is_node_next (map line_of rest.now) }
{
    matches!(
        next_form(rest),
        Some(Form::Acts | Form::BeginsIf | Form::BeginsSelect | Form::BeginsLoop)
    )
}

fn is_next(rest: &Stack<Lined>, wanted: Form) -> bool
    ensures { IsTrue result ↔ (next_form (map line_of rest.now) ≡ Some wanted) }
{
    match next_form(rest) {
        Some(form) => form == wanted,
        None => false,
    }
}

/// Both values, if the second is there. A first without a second is dropped.
fn both<A: Drop, B>(first: A, second: Result<B, NoMemory>) -> Result<(A, B), NoMemory>
    ensures { IfOk result (λ pair. (pair.0 ≡ first) × (second ≡ Ok pair.1)) }
{
    match second {
        Ok(second) => Ok((first, second)),
        Err(NoMemory) => Err(NoMemory),
    }
}

#[cycle(building)]
fn part(alloc: Global, rest: &mut Stack<Lined>) -> Result<Part, NoMemory>
    requires { PartAhead (map line_of rest.old) }
    ensures reads { IfOk result
        (λ part. ReadsPart (part_items part) (map line_of rest.old) (map line_of rest.new)) }
    ensures shorter { OnOk result (length rest.new < length rest.old) }
{
    let head = take(rest);
    let (head, body) = both(head, block(alloc, rest))?;
    Ok(Part { head, body })
}

/// With all further arms of one kind.
#[cycle(building)]
fn with_arms(
    alloc: Global,
    rest: &mut Stack<Lined>,
    wanted: Form,
    arms: DcList<Part>,
) -> Result<DcList<Part>, NoMemory>
    requires { ArmsAhead wanted (map line_of rest.old) }
    ensures reads { IfOk result
        (λ made. AddsArms wanted (map part_items arms) (map part_items made)
        (map line_of rest.old) (map line_of rest.new)) }
    ensures shorter { OnOk result (length rest.new ≤ length rest.old) }
{
    let mut arms = arms;
    while is_next(rest, wanted) {
        arms.push(part(alloc, rest)?)?;
    }
    Ok(arms)
}

#[cycle(building)]
fn branch(alloc: Global, rest: &mut Stack<Lined>) -> Result<Node, NoMemory>
    requires ahead { ItemAhead (map line_of rest.old) }
    requires begins { next_form (map line_of rest.old) ≡ Some Form.BeginsIf }
    ensures reads { IfOk result
        (λ node. ReadsItem (item node) (map line_of rest.old) (map line_of rest.new)) }
    ensures shorter { OnOk result (length rest.new < length rest.old) }
{
    let mut arms = DcList::new(alloc);
    arms.push(part(alloc, rest)?)?;
    let arms = with_arms(alloc, rest, Form::BeginsElse, arms)?;
    let close = take(rest);
    Ok(Node::If { arms, close })
}

#[cycle(building)]
fn selection(alloc: Global, rest: &mut Stack<Lined>) -> Result<Node, NoMemory>
    requires ahead { ItemAhead (map line_of rest.old) }
    requires begins { next_form (map line_of rest.old) ≡ Some Form.BeginsSelect }
    ensures reads { IfOk result
        (λ node. ReadsItem (item node) (map line_of rest.old) (map line_of rest.new)) }
    ensures shorter { OnOk result (length rest.new < length rest.old) }
{
    let head = take(rest);
    let (head, arms) = both(
        head,
        with_arms(alloc, rest, Form::BeginsCase, DcList::new(alloc)),
    )?;
    let close = take(rest);
    Ok(Node::Select { head, arms, close })
}

#[cycle(building)]
fn looping(alloc: Global, rest: &mut Stack<Lined>) -> Result<Node, NoMemory>
    requires ahead { ItemAhead (map line_of rest.old) }
    requires begins { next_form (map line_of rest.old) ≡ Some Form.BeginsLoop }
    ensures reads { IfOk result
        (λ node. ReadsItem (item node) (map line_of rest.old) (map line_of rest.new)) }
    ensures shorter { OnOk result (length rest.new < length rest.old) }
{
    let Part { head, body } = part(alloc, rest)?;
    let close = take(rest);
    Ok(Node::Loop { head, body, close })
}

#[cycle(building)]
fn node(alloc: Global, rest: &mut Stack<Lined>) -> Result<Node, NoMemory>
    requires { ItemAhead (map line_of rest.old) }
    ensures reads { IfOk result
        (λ node. ReadsItem (item node) (map line_of rest.old) (map line_of rest.new)) }
    ensures shorter { OnOk result (length rest.new < length rest.old) }
{
    match next_form(rest) {
        Some(Form::BeginsIf) => branch(alloc, rest),
        Some(Form::BeginsSelect) => selection(alloc, rest),
        Some(Form::BeginsLoop) => looping(alloc, rest),
        _ => Ok(Node::Plain(take(rest))),
    }
}

#[cycle(building)]
fn block(alloc: Global, rest: &mut Stack<Lined>) -> Result<Block, NoMemory>
    requires { BlockAhead (map line_of rest.old) }
    ensures reads { IfOk result
        (λ body. ReadsBlock (items body) (map line_of rest.old) (map line_of rest.new)) }
    ensures shorter { OnOk result (length rest.new ≤ length rest.old) }
{
    let mut nodes = DcList::new(alloc);
    while is_node_next(rest) {
        nodes.push(node(alloc, rest)?)?;
    }
    Ok(Block { nodes })
}

/// The statements in front of the executable ones.
fn front(alloc: Global, rest: &mut Stack<Lined>) -> Result<DcList<Lined>, NoMemory>
    ensures { IfOk result
        (λ front. ReadsFront (map line_of front) (map line_of rest.old) (map line_of rest.new)) }
{
    let mut front = DcList::new(alloc);
    while is_next(rest, Form::InFront) {
        front.push(take(rest))?;
    }
    Ok(front)
}

fn unit(alloc: Global, rest: &mut Stack<Lined>) -> Result<OpenUnit, NoMemory>
    requires { UnitAhead (map line_of rest.old) }
    ensures { IfOk result
        (λ unit. ReadsUnit (line_of unit.head) (map line_of unit.front) (items unit.body)
        (map line_of rest.old) (map line_of rest.new)) }
{
    let head = take(rest);
    let (head, front) = both(head, front(alloc, rest))?;
    let ((head, front), body) = both((head, front), block(alloc, rest))?;
    Ok(OpenUnit { head, front, body })
}

fn procedure(alloc: Global, rest: &mut Stack<Lined>) -> Result<Procedure, NoMemory>
    requires { ProcedureAhead (map line_of rest.old) }
    ensures { IfOk result
        (λ procedure. ReadsProcedure (subprogram_of procedure)
        (map line_of rest.old) (map line_of rest.new)) }
{
    let OpenUnit { head, front, body } = unit(alloc, rest)?;
    let close = take(rest);
    Ok(Procedure {
        head,
        front,
        body,
        close,
    })
}

fn procedures(alloc: Global, rest: &mut Stack<Lined>) -> Result<DcList<Procedure>, NoMemory>
    requires { ProceduresAhead (map line_of rest.old) }
    ensures { IfOk result
        (λ made. ReadsProcedures (map subprogram_of made)
        (map line_of rest.old) (map line_of rest.new)) }
{
    let mut procedures = DcList::new(alloc);
    while is_next(rest, Form::BeginsProcedure) {
        procedures.push(procedure(alloc, rest)?)?;
    }
    Ok(procedures)
}

/// The line of CONTAINS, where it is next.
fn contains(rest: &mut Stack<Lined>) -> Option<u32>
    ensures reads { contains_lines result ++ map line_of rest.new ≡ map line_of rest.old }
    ensures absent { result ≡ None →
        next_form (map line_of rest.new) ≡ Some Form.BeginsProcedures → ⊥ }
{
    if !is_next(rest, Form::BeginsProcedures) {
        return None;
    }
    let lined = take(rest);
    let line = lined.line;
    drop(lined);
    Some(line)
}

/// The tree of statements that are those of a program.
pub(crate) fn program(alloc: Global, rest: &mut Stack<Lined>) -> Result<Program, NoMemory>
    requires { ProgramAhead (map line_of rest.old) }
    ensures { IfOk result (λ program. ReadsProgram (source_of program) (map line_of rest.old)) }
{
    let unit = unit(alloc, rest)?;
    let contains = contains(rest);
    let (unit, procedures) = both(unit, procedures(alloc, rest))?;
    let OpenUnit { head, front, body } = unit;
    let close = take(rest);
    Ok(Program {
        head,
        front,
        body,
        contains,
        procedures,
        close,
    })
}
