//! Blocks.

ghost use Rattle.std.specs.Prelude.{◌≡◌, map, option_map, OnOk};
ghost use Rattle.dc_tree.specs.Blocks.{arms_from, item, items, part_items};
ghost use Rattle.dc_tree.specs.Findings.{least_with_all};
ghost use Rattle.dc_tree.specs.Statements.{counted_ranging, index_ranging, statement, type_form};
ghost use Rattle.dc_sorts.specs.Standing.{standing_of};
ghost use Rattle.dc_types.specs.Loops.{in_concurrent, in_counted, inside};
ghost use Rattle.dc_types.specs.Types.{arm_findings, item_findings, items_findings};

use crate::inner::in_concurrent;
use crate::naming::with_counted;
use crate::statements::{note_head, note_statement, selector_form};
use dc_sorts::{Form, Standing};
use dc_text::NoMemory;
use dc_tree::{Block, Counted, Index, LeastFinding, Local, Node, Part, Stmt, TypeSpec};
use std::alloc::Global;

/// Notes what the block of a DO breaks, with limits or without.
#[cycle(block)]
#[tactic(auto, using(dc_tree::proofs::Views::statement_views, dc_tree::proofs::Findings::notes))]
fn note_counted_block(
    alloc: Global,
    standing: &Standing,
    body: &Block,
    counted: &Option<Counted>,
    found: &mut LeastFinding,
) -> Result<(), NoMemory>
    ensures { OnOk result (found.new ≡ least_with_all found.old
        (items_findings (in_counted (standing_of standing.now)
        (option_map counted_ranging counted.now)) (items body.now))) }
{
    match counted {
        Some(counted) => {
            let names = with_counted(alloc, &counted.name, standing.counted)?;
            let inside = Standing {
                symbols: standing.symbols,
                unit: standing.unit,
                indexes: standing.indexes,
                counted: names.as_slice(),
                callees: standing.callees,
            };
            note_block(alloc, &inside, body, found)
        }
        None => note_block(alloc, standing, body, found),
    }
}

/// Notes what the block of a DO CONCURRENT breaks.
#[cycle(block)]
#[tactic(auto, using(dc_tree::proofs::Views::statement_views, dc_tree::proofs::Findings::notes))]
fn note_concurrent_block(
    alloc: Global,
    standing: &Standing,
    body: &Block,
    spec: &Option<TypeSpec>,
    names: &[Index],
    locality: &[Local],
    found: &mut LeastFinding,
) -> Result<(), NoMemory>
    ensures { OnOk result (found.new ≡ least_with_all found.old
        (items_findings (in_concurrent (standing_of standing.now)
        (option_map type_form spec.now) (map index_ranging names.now) locality.now)
        (items body.now))) }
{
    let inner = in_concurrent(alloc, standing, spec, names, locality)?;
    let inside = inner.within(standing.symbols, standing.unit, standing.callees);
    note_block(alloc, &inside, body, found)
}

/// Notes what the block of a loop breaks.
#[cycle(block)]
#[tactic(auto, using(dc_tree::proofs::Views::statement_views, dc_tree::proofs::Findings::notes))]
fn note_inside(
    alloc: Global,
    standing: &Standing,
    body: &Block,
    head: &Stmt,
    found: &mut LeastFinding,
) -> Result<(), NoMemory>
    ensures { OnOk result (found.new ≡ least_with_all found.old
        (items_findings (inside (standing_of standing.now) (statement head.now))
        (items body.now))) }
{
    match head {
        Stmt::Do { counted, .. } => note_counted_block(alloc, standing, body, counted, found),
        Stmt::Concurrent {
            spec,
            indexes,
            locality,
            ..
        } => note_concurrent_block(
            alloc,
            standing,
            body,
            spec,
            indexes.as_slice(),
            locality.as_slice(),
            found,
        ),
        _ => note_block(alloc, standing, body, found),
    }
}

#[cycle(block)]
#[tactic(auto, using(dc_tree::proofs::Views::statement_views, dc_tree::proofs::Findings::notes))]
fn note_arms(
    alloc: Global,
    standing: &Standing,
    selector: Option<Form>,
    arms: &[Part],
    found: &mut LeastFinding,
) -> Result<(), NoMemory>
    ensures { OnOk result (found.new ≡ least_with_all found.old
        (arm_findings (standing_of standing.now) selector
        (arms_from (map part_items arms.now)))) }
{
    for arm in arms {
        let head = &arm.head;
        note_head(alloc, standing, selector, head.line, &head.stmt, found)?;
        note_block(alloc, standing, &arm.body, found)?;
    }
    Ok(())
}

#[cycle(block)]
#[tactic(auto, using(dc_tree::proofs::Views::statement_views, dc_tree::proofs::Findings::notes))]
fn note_node(
    alloc: Global,
    standing: &Standing,
    node: &Node,
    found: &mut LeastFinding,
) -> Result<(), NoMemory>
    ensures { OnOk result (found.new ≡ least_with_all found.old
        (item_findings (standing_of standing.now) (item node.now))) }
{
    match node {
        Node::Plain(lined) => note_statement(alloc, standing, lined.line, &lined.stmt, found),
        Node::If { arms, .. } => note_arms(alloc, standing, None, arms.as_slice(), found),
        Node::Select { head, arms, .. } => {
            note_statement(alloc, standing, head.line, &head.stmt, found)?;
            let selector = selector_form(alloc, standing, &head.stmt)?;
            note_arms(alloc, standing, selector, arms.as_slice(), found)
        }
        Node::Loop { head, body, .. } => {
            note_statement(alloc, standing, head.line, &head.stmt, found)?;
            note_inside(alloc, standing, body, &head.stmt, found)
        }
    }
}

/// Notes what the statements of a block break.
#[cycle(block)]
#[tactic(auto, using(dc_tree::proofs::Views::statement_views, dc_tree::proofs::Findings::notes))]
pub(crate) fn note_block(
    alloc: Global,
    standing: &Standing,
    block: &Block,
    found: &mut LeastFinding,
) -> Result<(), NoMemory>
    ensures { OnOk result (found.new ≡ least_with_all found.old
        (items_findings (standing_of standing.now) (items block.now))) }
{
    for node in block.nodes.as_slice() {
        note_node(alloc, standing, node, found)?;
    }
    Ok(())
}
