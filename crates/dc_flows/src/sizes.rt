//! How many instructions statements have, by which the jumps over them are placed.

ghost use Rattle.std.specs.Prelude.{◌≡◌, ◌+◌, length, map, IfOk, IsTrue};
ghost use Rattle.std.specs.List.{list_all};
ghost use Rattle.dc_form.specs.BuiltPrograms.{is_held};
ghost use Rattle.dc_tree.specs.Blocks.{arms_from, item, items, part_items};
ghost use Rattle.dc_tree.specs.Statements.{case_range, statement};
ghost use Rattle.dc_tree.specs.Syntax.{tree};
ghost use Rattle.dc_sorts.specs.Forms.{sort_of_form};
ghost use Rattle.dc_actions.specs.Expressions.{value_code};
ghost use Rattle.dc_actions.specs.Naming.{scope_of, AreNamed};
ghost use Rattle.dc_flows.specs.Flows.{
  arms_size,
  block_size,
  cases_size,
  item_size,
  loop_size,
  ranges_code,
  rounds_of,
  says_size,
  selected,
  selector_code,
  selector_sort,
};
ghost use Rattle.dc_flows.specs.FlowsHeld.{
  arms_have_code,
  block_has_code,
  cases_have_code,
  head_has_code,
  inside_has_code,
  is_held_range,
  is_held_selector,
  item_has_code,
  says_has_code,
};

use crate::cases::{ranges, selector};
use crate::heads::{ranges_of, selector_of, test_of};
use crate::lowering::Lowering;
use crate::rounds::rounds_of;
use dc_actions::{Names, held, value};
use dc_sorts::Form;
use dc_text::{DcList, NoMemory};
use dc_tree::{Block, Expr, Node, Part, Range, Stmt};
use std::alloc::Global;

/// The sum of two sizes.
pub(crate) fn sum(first: u32, second: u32) -> Result<u32, NoMemory>
    ensures { IfOk result (λ size. size ≡ first + second) }
{
    held(first as usize + second as usize)
}

/// The size of an expression.
pub(crate) fn value_size(alloc: Global, names: &Names<'_>, expr: &Expr) -> Result<u32, NoMemory>
    requires names { AreNamed names.now }
    requires held { IsTrue (is_held (tree expr.now)) }
    ensures { IfOk result (λ size.
        size ≡ length (value_code (scope_of names.now) (tree expr.now))) }
{
    let mut whats = DcList::new(alloc);
    value(alloc, names, &mut whats, expr)?;
    held(whats.len())
}

/// The size of a statement or an IF statement.
fn says_size(alloc: Global, names: &Names<'_>, stmt: &Stmt) -> Result<u32, NoMemory>
    requires names { AreNamed names.now }
    requires held { IsTrue (says_has_code (scope_of names.now) (statement stmt.now)) }
    ensures { IfOk result (λ size. size ≡ says_size (scope_of names.now) (statement stmt.now)) }
{
    let mut apart = Lowering::new(alloc, 0, DcList::new(alloc));
    let whats = apart.whats(alloc, names, &[], stmt)?;
    held(whats.len())
}

/// The size of the test of ranges.
fn ranges_size(
    alloc: Global,
    names: &Names<'_>,
    form: Form,
    asked: &[Range],
) -> Result<u32, NoMemory>
    requires names { AreNamed names.now }
    requires held { IsTrue (list_all is_held_range (map case_range asked.now)) }
    ensures { IfOk result (λ size. size ≡ length (ranges_code (scope_of names.now) 0
        (sort_of_form form) (map case_range asked.now))) }
{
    let mut whats = DcList::new(alloc);
    ranges(alloc, names, &mut whats, 0, form, asked)?;
    held(whats.len())
}

/// The size of the arms of IF.
#[cycle(sizes)]
#[tactic(auto, using(dc_tree::proofs::Views::statement_views))]
pub(crate) fn arms_size(alloc: Global, names: &Names<'_>, arms: &[Part]) -> Result<u32, NoMemory>
    requires names { AreNamed names.now }
    requires held { IsTrue (arms_have_code (scope_of names.now)
        (arms_from (map part_items arms.now))) }
    ensures { IfOk result (λ size. size
        ≡ arms_size (scope_of names.now) (arms_from (map part_items arms.now))) }
{
    let mut size = 0;
    for arm in arms {
        let body = block_size(alloc, names, &arm.body)?;
        match test_of(&arm.head.stmt) {
            Some(test) => {
                let test = value_size(alloc, names, test)?;
                size = sum(size, sum(sum(test, 1)?, sum(body, 1)?)?)?;
            }
            None => return sum(size, body),
        }
    }
    Ok(size)
}

/// The size of a loop.
#[cycle(sizes)]
fn loop_size(alloc: Global, names: &Names<'_>, head: &Stmt, body: &Block) -> Result<u32, NoMemory>
    requires names { AreNamed names.now }
    requires head { IsTrue (head_has_code (scope_of names.now) (statement head.now)) }
    requires body { IsTrue (inside_has_code
        (rounds_of (scope_of names.now) 0 (statement head.now))
        (block_has_code (scope_of names.now) (items body.now))) }
    ensures { IfOk result (λ size. size ≡ loop_size
        (rounds_of (scope_of names.now) 0 (statement head.now))
        (block_size (scope_of names.now) (items body.now))) }
{
    match rounds_of(alloc, names, 0, head)? {
        Some(rounds) => {
            let inside = block_size(alloc, names, body)?;
            let test = sum(held(rounds.test.len())?, 2)?;
            let front = sum(held(rounds.head.len())?, test)?;
            let behind = sum(held(rounds.step.len())?, test)?;
            sum(front, sum(inside, behind)?)
        }
        None => Ok(1),
    }
}

/// The size of a statement or a construct.
#[cycle(sizes)]
#[tactic(auto, using(dc_tree::proofs::Views::statement_views))]
fn node_size(alloc: Global, names: &Names<'_>, node: &Node) -> Result<u32, NoMemory>
    requires names { AreNamed names.now }
    requires held { IsTrue (item_has_code (scope_of names.now) (item node.now)) }
    ensures { IfOk result (λ size. size ≡ item_size (scope_of names.now) (item node.now)) }
{
    match node {
        Node::Plain(lined) => says_size(alloc, names, &lined.stmt),
        Node::If { arms, .. } => arms_size(alloc, names, arms.as_slice()),
        Node::Select { head, arms, .. } => {
            select_size(alloc, names, &head.stmt, arms.as_slice())
        }
        Node::Loop { head, body, .. } => loop_size(alloc, names, &head.stmt, body),
    }
}

/// The size of a block.
#[cycle(sizes)]
#[tactic(auto, using(dc_tree::proofs::Views::statement_views))]
pub(crate) fn block_size(alloc: Global, names: &Names<'_>, block: &Block) -> Result<u32, NoMemory>
    requires names { AreNamed names.now }
    requires held { IsTrue (block_has_code (scope_of names.now) (items block.now)) }
    ensures { IfOk result (λ size. size ≡ block_size (scope_of names.now) (items block.now)) }
{
    let mut size = 0;
    for node in block.nodes.as_slice() {
        size = sum(size, node_size(alloc, names, node)?)?;
    }
    Ok(size)
}

/// The size of the arms of SELECT CASE, whose selector has this form.
#[cycle(sizes)]
#[tactic(auto, using(dc_tree::proofs::Views::statement_views))]
pub(crate) fn cases_size(
    alloc: Global,
    names: &Names<'_>,
    form: Form,
    arms: &[Part],
) -> Result<u32, NoMemory>
    requires names { AreNamed names.now }
    requires held { IsTrue (cases_have_code (scope_of names.now)
        (arms_from (map part_items arms.now))) }
    ensures { IfOk result (λ size. size ≡ cases_size (scope_of names.now) (sort_of_form form)
        (arms_from (map part_items arms.now)) 0) }
{
    let mut size = 0;
    let mut otherwise = 0;
    for arm in arms {
        let body = block_size(alloc, names, &arm.body)?;
        match ranges_of(&arm.head.stmt) {
            Some(asked) => {
                let test = ranges_size(alloc, names, form, asked)?;
                size = sum(size, sum(sum(test, 1)?, sum(body, 1)?)?)?;
            }
            None => otherwise = body,
        }
    }
    sum(size, otherwise)
}

/// The size of SELECT CASE.
#[cycle(sizes)]
fn select_size(
    alloc: Global,
    names: &Names<'_>,
    head: &Stmt,
    arms: &[Part],
) -> Result<u32, NoMemory>
    requires names { AreNamed names.now }
    requires head { IsTrue (is_held_selector (selected (statement head.now))) }
    requires arms { IsTrue (cases_have_code (scope_of names.now)
        (arms_from (map part_items arms.now))) }
    ensures { IfOk result (λ size. size
        ≡ length (selector_code (scope_of names.now) 0 (selected (statement head.now)))
        + cases_size (scope_of names.now)
        (selector_sort (scope_of names.now) (selected (statement head.now)))
        (arms_from (map part_items arms.now)) 0) }
{
    let Some(expr) = selector_of(head) else {
        unreachable!()
    };
    let mut whats = DcList::new(alloc);
    let form = selector(alloc, names, &mut whats, 0, expr)?;
    sum(held(whats.len())?, cases_size(alloc, names, form, arms)?)
}
