//! How many DO CONCURRENT loops a block has.

ghost use Rattle.std.specs.Prelude.{◌≡◌, ◌+◌, map, IfOk, if◌then◌else◌};
ghost use Rattle.dc_tree.specs.Blocks.{arms_from, item, items, part_items};
ghost use Rattle.dc_tree.specs.Statements.{statement};
ghost use Rattle.dc_meaning.specs.Execution.{is_concurrent, loops_in, loops_in_all, loops_in_arms};

use crate::sizes::sum;
use dc_text::NoMemory;
use dc_tree::{Block, Node, Part, Stmt};

/// 1 for a DO CONCURRENT, and 0 for any other statement.
fn head_loops(stmt: &Stmt) -> u32
    ensures { result ≡ (if is_concurrent (statement stmt.now) then 1 else 0) }
{
    match stmt {
        Stmt::Concurrent { .. } => 1,
        _ => 0,
    }
}

#[cycle(counts)]
#[tactic(auto, using(dc_tree::proofs::Views::statement_views))]
fn arms_loops(arms: &[Part]) -> Result<u32, NoMemory>
    ensures { IfOk result (λ count. count ≡ loops_in_arms (arms_from (map part_items arms.now))) }
{
    let mut count = 0;
    for arm in arms {
        count = sum(count, block_loops(&arm.body)?)?;
    }
    Ok(count)
}

#[cycle(counts)]
#[tactic(auto, using(dc_tree::proofs::Views::statement_views))]
fn node_loops(node: &Node) -> Result<u32, NoMemory>
    ensures { IfOk result (λ count. count ≡ loops_in (item node.now)) }
{
    match node {
        Node::Plain(_) => Ok(0),
        Node::If { arms, .. } => arms_loops(arms.as_slice()),
        Node::Select { arms, .. } => arms_loops(arms.as_slice()),
        Node::Loop { head, body, .. } => sum(head_loops(&head.stmt), block_loops(body)?),
    }
}

/// The DO CONCURRENT loops of a block, at any depth.
#[cycle(counts)]
#[tactic(auto, using(dc_tree::proofs::Views::statement_views))]
pub(crate) fn block_loops(block: &Block) -> Result<u32, NoMemory>
    ensures { IfOk result (λ count. count ≡ loops_in_all (items block.now)) }
{
    let mut count = 0;
    for node in block.nodes.as_slice() {
        count = sum(count, node_loops(node)?)?;
    }
    Ok(count)
}
