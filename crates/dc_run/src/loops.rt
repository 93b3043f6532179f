//! The loops of a main program.

ghost use Rattle.std.specs.Prelude.{◌≡◌, ◌<◌, length, map, slice_get, Some, IfOk};
ghost use Rattle.dc_tree.specs.Blocks.{item, items, items_from, line_of};
ghost use Rattle.dc_meaning.specs.Looping.{nth_loop};
ghost use Rattle.dc_run.specs.LoopPlaces.{is_loop, loop_places};

use crate::standing::{Found, Task};
use dc_text::{DcList, NoMemory};
use dc_tree::Node;
use std::alloc::Global;

fn is_loop(node: &Node) -> bool
    ensures { result ≡ is_loop (item node.now) }
{
    match node {
        Node::Loop { .. } => true,
        Node::Plain(_) => false,
        Node::If { .. } => false,
        Node::Select { .. } => false,
    }
}

/// Where the loops stand among these statements, in their order.
pub(crate) fn loop_places(alloc: Global, nodes: &[Node]) -> Result<DcList<usize>, NoMemory>
    ensures { IfOk result (λ places. places ≡ loop_places 0 (map item nodes.now)) }
{
    let mut places = DcList::new(alloc);
    for (place, node) in nodes.iter().enumerate() {
        if is_loop(node) {
            places.push(place)?;
        }
    }
    Ok(places)
}

/// The loop of a number.
pub(crate) fn find_loop<'a>(task: Task<'a>, number: u32) -> Found<'a>
    requires places { task.loops.now ≡ loop_places 0 (map item task.nodes.now) }
    requires there { number < length task.loops.now }
    ensures number { result.number ≡ number }
    ensures found { nth_loop number (items_from (map item task.entry.nodes.now))
        ≡ Some (line_of result.head.now, items result.body.now) }
{
    let place = task.loops[number as usize];
    let node = node_at(task.nodes, place);
    match node {
        Node::Loop { head, body, .. } => Found { number, head, body },
        Node::Plain(_) => unreachable!(),
        Node::If { .. } => unreachable!(),
        Node::Select { .. } => unreachable!(),
    }
}

fn node_at(nodes: &[Node], place: usize) -> &Node
    requires { place < length nodes.now }
    ensures { slice_get nodes.entry.now place ≡ Some result.now }
{
    &nodes[place]
}
