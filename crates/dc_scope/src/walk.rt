//! The statements of blocks.

ghost use Rattle.std.specs.Prelude.{◌≡◌, map, OnOk};
ghost use Rattle.dc_tree.specs.Blocks.{line_of, item, items, items_from, arms_from, part_items};
ghost use Rattle.dc_tree.specs.Findings.{least_with_all};
ghost use Rattle.dc_tree.specs.Statements.{statement};
ghost use Rattle.dc_sorts.specs.Standing.{standing_of};
ghost use Rattle.dc_scope.specs.Cases as case_specs;
ghost use Rattle.dc_scope.specs.Scope.{findings_at, line_findings, within, one_findings, block_findings, arms_findings, select_findings};

use crate::case_values::no_cases;
use crate::casing::note_case;
use crate::deed::{note_deed, note_do};
use crate::header::{note_header, with_indexes};
use crate::index::indexes_inside;
use dc_sorts::Standing;
use dc_text::{DcList, NoMemory};
use dc_tree::{LeastFinding, Lined, Node, Part, Stmt};
use dc_uses::note_uses;
use std::alloc::Global;

/// Notes what a statement breaks by itself.
#[tactic(auto, using(dc_tree::proofs::Findings::notes))]
fn note_statement(
    alloc: Global,
    standing: &Standing,
    line: u32,
    stmt: &Stmt,
    found: &mut LeastFinding,
) -> Result<(), NoMemory>
    ensures { OnOk result (found.new ≡ least_with_all found.old
        (findings_at (standing_of standing.now) line (statement stmt.now))) }
{
    match stmt {
        Stmt::IfThen(test) => note_uses(alloc, standing, line, test, found),
        Stmt::ElseIf(test) => note_uses(alloc, standing, line, test, found),
        Stmt::IfAction { test, action } => {
            note_uses(alloc, standing, line, test, found)?;
            note_deed(alloc, standing, line, action, found)
        }
        Stmt::Select(selector) => note_uses(alloc, standing, line, selector, found),
        Stmt::Do { counted, .. } => note_do(alloc, standing, line, counted, found),
        Stmt::DoWhile { test, .. } => note_uses(alloc, standing, line, test, found),
        Stmt::Concurrent {
            spec,
            indexes,
            mask,
            locality,
            ..
        } => note_header(
            alloc,
            standing,
            line,
            spec,
            indexes.as_slice(),
            mask,
            locality.as_slice(),
            found,
        ),
        Stmt::Act(action) => note_deed(alloc, standing, line, action, found),
        _ => Ok(()),
    }
}

fn note_line(
    alloc: Global,
    standing: &Standing,
    lined: &Lined,
    found: &mut LeastFinding,
) -> Result<(), NoMemory>
    ensures { OnOk result (found.new ≡ least_with_all found.old
        (line_findings (standing_of standing.now) (line_of lined.now))) }
{
    note_statement(alloc, standing, lined.line, &lined.stmt, found)
}

/// Notes what a statement or a construct breaks.
#[cycle(walk)]
#[tactic(auto, using(dc_tree::proofs::Views::statement_views, dc_tree::proofs::Findings::notes))]
fn note_node(
    alloc: Global,
    standing: &Standing,
    node: &Node,
    found: &mut LeastFinding,
) -> Result<(), NoMemory>
    ensures { OnOk result (found.new ≡ least_with_all found.old
        (one_findings (standing_of standing.now) (item node.now))) }
{
    match node {
        Node::Plain(lined) => note_line(alloc, standing, lined, found),
        Node::If { arms, .. } => note_arms(alloc, standing, arms, found),
        Node::Select { head, arms, .. } => {
            note_line(alloc, standing, head, found)?;
            note_select(alloc, standing, arms, found)
        }
        Node::Loop { head, body, .. } => {
            note_line(alloc, standing, head, found)?;
            note_body(alloc, standing, &head.stmt, &body.nodes, found)
        }
    }
}

/// Notes what the block of a loop breaks, which begins with this statement.
#[cycle(walk)]
#[tactic(auto, using(dc_tree::proofs::Views::statement_views, dc_tree::proofs::Findings::notes))]
fn note_body(
    alloc: Global,
    standing: &Standing,
    head: &Stmt,
    nodes: &DcList<Node>,
    found: &mut LeastFinding,
) -> Result<(), NoMemory>
    ensures { OnOk result (found.new ≡ least_with_all found.old
        (block_findings (within (standing_of standing.now) (statement head.now))
        (items_from (map item nodes.now)))) }
{
    match head {
        Stmt::Concurrent { spec, indexes, .. } => {
            let names = indexes_inside(alloc, standing, spec, indexes.as_slice())?;
            let inner = with_indexes(&*standing, names.as_slice());
            note_nodes(alloc, &inner, nodes, found)
        }
        _ => note_nodes(alloc, standing, nodes, found),
    }
}

/// Notes what the statements of a block break.
#[cycle(walk)]
#[tactic(auto, using(dc_tree::proofs::Views::statement_views, dc_tree::proofs::Findings::notes))]
pub(crate) fn note_nodes(
    alloc: Global,
    standing: &Standing,
    nodes: &DcList<Node>,
    found: &mut LeastFinding,
) -> Result<(), NoMemory>
    ensures { OnOk result (found.new ≡ least_with_all found.old
        (block_findings (standing_of standing.now) (items_from (map item nodes.now)))) }
{
    for node in nodes.as_slice() {
        note_node(alloc, standing, node, found)?;
    }
    Ok(())
}

/// Notes what the arms of an IF construct break.
#[cycle(walk)]
#[tactic(auto, using(dc_tree::proofs::Views::statement_views, dc_tree::proofs::Findings::notes))]
fn note_arms(
    alloc: Global,
    standing: &Standing,
    arms: &DcList<Part>,
    found: &mut LeastFinding,
) -> Result<(), NoMemory>
    ensures { OnOk result (found.new ≡ least_with_all found.old
        (arms_findings (standing_of standing.now) (arms_from (map part_items arms.now)))) }
{
    for arm in arms.as_slice() {
        note_line(alloc, standing, &arm.head, found)?;
        note_nodes(alloc, standing, &arm.body.nodes, found)?;
    }
    Ok(())
}

/// Notes what the arms of a SELECT CASE construct break.
#[cycle(walk)]
#[tactic(auto, using(dc_tree::proofs::Views::statement_views, dc_tree::proofs::Findings::notes))]
fn note_select(
    alloc: Global,
    standing: &Standing,
    arms: &DcList<Part>,
    found: &mut LeastFinding,
) -> Result<(), NoMemory>
    ensures { OnOk result (found.new ≡ least_with_all found.old
        (select_findings (standing_of standing.now) case_specs.no_cases
        (arms_from (map part_items arms.now)))) }
{
    let mut so_far = no_cases(alloc);
    for arm in arms.as_slice() {
        note_case(
            alloc,
            standing,
            arm.head.line,
            &arm.head.stmt,
            &mut so_far,
            found,
        )?;
        note_nodes(alloc, standing, &arm.body.nodes, found)?;
    }
    Ok(())
}
