//! The loop of a number, and one iteration of it.

ghost use Rattle.std.specs.Prelude.{◌≡◌, ℕ, ◌≤◌, IsTrue, Some, [], ◌∷◌, length, map, option_map};
ghost use Rattle.dc_entities.specs.Found.{IsNamed};
ghost use Rattle.dc_sorts.specs.Standing.{standing_of, scope_at};
ghost use Rattle.dc_tree.specs.Blocks.{item, items, items_from};
ghost use Rattle.dc_meaning.specs.Looping.{nth_loop};
ghost use Rattle.dc_meaning.specs.Execution.{exec_all};
ghost use Rattle.dc_walk.specs.Looped.{looped_of};
ghost use Rattle.dc_meaning.specs.WalkScope.{index_names};
ghost use Rattle.dc_walk.specs.Flows.{Finishes};
ghost use Rattle.dc_walk.specs.Walked.{is_walked_block};

use crate::block::perform_all;
use crate::looped::Looped;
use crate::task::Task;
use dc_meaning::{Stop, Walk};
use dc_plain::Ledger;
use dc_tree::Node;
use std::alloc::Global;

/// The loop of a number, counted from 0.
pub(crate) fn nth_loop(nodes: &[Node], number: u32) -> Option<Looped<'_>>
    ensures { option_map looped_of result ≡ nth_loop number (items_from (map item nodes.now)) }
{
    let mut left = number;
    for node in nodes {
        if let Node::Loop { head, body, .. } = node {
            if left == 0 {
                return Some(Looped { head, body });
            }
            left -= 1;
        }
    }
    None
}

/// Carries out the block of a loop for one value of its index.
pub(crate) fn perform_iteration(
    alloc: Global,
    task: Task<'_>,
    value: i64,
    ledger: &mut Ledger,
) -> Result<(), Stop>
    requires named { IsNamed task.standing task.numbering.now }
    requires walked { IsTrue (is_walked_block (scope_at (standing_of task.standing))
        (index_names task.standing) (items task.body.now)) }
    ensures { (number : ℕ) → Finishes ((Some value ∷ []) ∷ []) task.entry.turns ledger.old
        (λ call. exec_all (scope_at (standing_of task.entry.standing)) call number
        (items task.entry.body.now))
        ledger.new result }
{
    let walk = Walk {
        standing: task.standing,
        numbering: task.numbering,
        values: &[value],
    };
    let mut turns = task.turns;
    perform_all(alloc, &walk, ledger, &mut turns, task.body.nodes.as_slice())?;
    Ok(())
}
