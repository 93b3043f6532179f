//! The statements and constructs of a loop's block.

ghost use Rattle.std.specs.Prelude.{◌≡◌, ℕ, IsTrue, map, option_map};
ghost use Rattle.std.specs.Option.{option_copied};
ghost use Rattle.dc_tree.specs.Blocks.{arms_from, item, items, items_from, line_of, part_items};
ghost use Rattle.dc_tree.specs.Entities.{entity};
ghost use Rattle.dc_tree.specs.Statements.{counted_ranging, statement};
ghost use Rattle.dc_tree.specs.Syntax.{tree};
ghost use Rattle.dc_code.specs.declared.frame.Place.{Place};
ghost use Rattle.dc_code.specs.Combinations.{value_count};
ghost use Rattle.dc_int.specs.Sorts.{whole};
ghost use Rattle.dc_meaning.specs.Acts.{just};
ghost use Rattle.dc_meaning.specs.Actions.{on};
ghost use Rattle.dc_meaning.specs.Execution as execution;
ghost use Rattle.dc_meaning.specs.Execution.{exec, exec_all, exec_arms, exec_cases, stepped, counted_rounds, counted_do, while_do};
ghost use Rattle.dc_meaning.specs.WalkScope.{scope_of, own_of, index_names, IsWalk};
ghost use Rattle.dc_walk.specs.Counting.{scalar_element, span_with, IsMoving};
ghost use Rattle.dc_walk.specs.Flows.{Spends};
ghost use Rattle.dc_walk.specs.Rounds.{test_value};
ghost use Rattle.dc_walk.specs.Walked.{is_held_or_absent, is_walked, is_walked_ranging, is_walked_loop, is_walked_block, are_walked_arms};

use crate::cases::{chosen, selector};
use crate::counting::{Scalar, Steps, begin, count, scalar_named, step, steps_of};
use crate::flow::{Flow, leaving};
use crate::lines::perform_line;
use crate::testing::{holds, test_of};
use crate::turns::{most_tests, spend};
use dc_meaning::{Stop, Walk};
use dc_plain::Ledger;
use dc_text::DcText;
use dc_tree::{Block, Counted, Expr, Lined, Node, Part, Stmt};
use std::alloc::Global;

/// Spends round while a test holds, or until the loop is left where there is none.
#[cycle(blocks)]
#[tactic(auto, using(dc_tree::proofs::Views::statement_views))]
fn perform_while<'a>(
    alloc: Global,
    walk: &Walk<'_>,
    ledger: &mut Ledger,
    turns: &mut u64,
    body: &'a Block,
    line: u32,
    label: &Option<DcText>,
    test: Option<&Expr>,
) -> Result<Flow<'a>, Stop>
    requires walk { IsWalk walk.now }
    requires held { IsTrue (is_held_or_absent (option_map tree (option_copied test))) }
    requires walked { IsTrue (is_walked_block (scope_of walk.now)
        (index_names (walk.now).standing) (items body.now)) }
    ensures { (number : ℕ) → Spends (own_of walk.now) turns.old ledger.old
        (λ call. while_do line label.now
        (test_value (scope_of walk.now) call line (option_map tree (option_copied test.entry)))
        (exec_all (scope_of walk.now) call number (items body.now)))
        turns.new ledger.new result }
{
    for _ in 0..most_tests(*turns) {
        if !holds(alloc, walk, ledger, line, test)? {
            return Ok(Flow::On);
        }
        spend(turns, line)?;
        let flow = perform_all(alloc, walk, ledger, turns, body.nodes.as_slice())?;
        if let Some(flow) = leaving(label, flow) {
            return Ok(flow);
        }
    }
    Ok(Flow::On)
}

/// Spends round once for each value of the variable of a counted DO, which has its first value.
#[cycle(blocks)]
#[tactic(auto, using(dc_tree::proofs::Views::statement_views))]
fn perform_rounds<'a>(
    alloc: Global,
    walk: &Walk<'_>,
    ledger: &mut Ledger,
    turns: &mut u64,
    body: &'a Block,
    line: u32,
    label: &Option<DcText>,
    scalar: Scalar,
    steps: Steps,
) -> Result<Flow<'a>, Stop>
    requires walk { IsWalk walk.now }
    requires moving { IsMoving steps }
    requires walked { IsTrue (is_walked_block (scope_of walk.now)
        (index_names (walk.now).standing) (items body.now)) }
    ensures { (number : ℕ) → Spends (own_of walk.now) turns.old ledger.old
        (λ call. counted_rounds line label.now
        (stepped line (Place.Outer (scalar_element scalar)) (whole scalar.kind) steps.step)
        (exec_all (scope_of walk.now) call number (items body.now)) (value_count (span_with steps)))
        turns.new ledger.new result }
{
    for _ in 0..count(steps) {
        spend(turns, line)?;
        let flow = perform_all(alloc, walk, ledger, turns, body.nodes.as_slice())?;
        if let Some(flow) = leaving(label, flow) {
            return Ok(flow);
        }
        step(ledger, line, scalar, steps.step)?;
    }
    Ok(Flow::On)
}

/// Carries out a counted DO.
#[cycle(blocks)]
#[tactic(auto, using(dc_tree::proofs::Views::statement_views))]
fn perform_counted<'a>(
    alloc: Global,
    walk: &Walk<'_>,
    ledger: &mut Ledger,
    turns: &mut u64,
    body: &'a Block,
    line: u32,
    label: &Option<DcText>,
    counted: &Counted,
) -> Result<Flow<'a>, Stop>
    requires walk { IsWalk walk.now }
    requires ranging { IsTrue (is_walked_ranging (scope_of walk.now)
        (counted_ranging counted.now)) }
    requires walked { IsTrue (is_walked_block (scope_of walk.now)
        (index_names (walk.now).standing) (items body.now)) }
    ensures { (number : ℕ) → Spends (own_of walk.now) turns.old ledger.old
        (λ call. counted_do (scope_of walk.now) call line label.now (counted_ranging counted.now)
        (entity (scope_of walk.now) (counted.now).name)
        (exec_all (scope_of walk.now) call number (items body.now)))
        turns.new ledger.new result }
{
    let scalar = scalar_named(walk, counted.name.as_bytes());
    let steps = steps_of(alloc, walk, ledger, line, scalar.kind, counted)?;
    begin(ledger, line, scalar, steps.first)?;
    perform_rounds(alloc, walk, ledger, turns, body, line, label, scalar, steps)
}

/// Carries out a loop, which begins with this line.
#[cycle(blocks)]
#[tactic(auto, using(dc_tree::proofs::Views::statement_views))]
fn perform_loop<'a>(
    alloc: Global,
    walk: &Walk<'_>,
    ledger: &mut Ledger,
    turns: &mut u64,
    body: &'a Block,
    head: &Lined,
) -> Result<Flow<'a>, Stop>
    requires walk { IsWalk walk.now }
    requires head { IsTrue (is_walked_loop (scope_of walk.now) (statement (head.now).stmt)) }
    requires walked { IsTrue (is_walked_block (scope_of walk.now)
        (index_names (walk.now).standing) (items body.now)) }
    ensures { (number : ℕ) → Spends (own_of walk.now) turns.old ledger.old
        (λ call. execution.loop_of (scope_of walk.now) call number (line_of head.now)
        (exec_all (scope_of walk.now) call number (items body.now))) turns.new ledger.new result }
{
    match &head.stmt {
        Stmt::Do { label, counted } => match counted {
            Some(counted) => {
                perform_counted(alloc, walk, ledger, turns, body, head.line, label, counted)
            }
            None => perform_while(alloc, walk, ledger, turns, body, head.line, label, None),
        },
        Stmt::DoWhile { label, test } => {
            perform_while(
                alloc,
                walk,
                ledger,
                turns,
                body,
                head.line,
                label,
                Some(test),
            )
        }
        _ => unreachable!(),
    }
}

/// Carries out the first arm of IF whose test holds.
#[cycle(blocks)]
#[tactic(auto, using(dc_tree::proofs::Views::statement_views))]
fn perform_arms<'a>(
    alloc: Global,
    walk: &Walk<'_>,
    ledger: &mut Ledger,
    turns: &mut u64,
    arms: &'a [Part],
) -> Result<Flow<'a>, Stop>
    requires walk { IsWalk walk.now }
    requires walked { IsTrue (are_walked_arms (scope_of walk.now)
        (index_names (walk.now).standing) (arms_from (map part_items arms.now))) }
    ensures { (number : ℕ) → Spends (own_of walk.now) turns.old ledger.old
        (λ call. exec_arms (scope_of walk.now) call number (arms_from (map part_items arms.now)))
        turns.new ledger.new result }
{
    for arm in arms {
        if holds(alloc, walk, ledger, arm.head.line, test_of(&arm.head.stmt))? {
            return perform_all(alloc, walk, ledger, turns, arm.body.nodes.as_slice());
        }
    }
    Ok(Flow::On)
}

/// Carries out the arm of SELECT CASE that fits a value, or else the default.
#[cycle(blocks)]
#[tactic(auto, using(dc_tree::proofs::Views::statement_views))]
fn perform_cases<'a>(
    alloc: Global,
    walk: &Walk<'_>,
    ledger: &mut Ledger,
    turns: &mut u64,
    arms: &'a [Part],
    given: i64,
) -> Result<Flow<'a>, Stop>
    requires walk { IsWalk walk.now }
    requires walked { IsTrue (are_walked_arms (scope_of walk.now)
        (index_names (walk.now).standing) (arms_from (map part_items arms.now))) }
    ensures { (number : ℕ) → Spends (own_of walk.now) turns.old ledger.old
        (λ call. exec_cases (scope_of walk.now) call number given
        (arms_from (map part_items arms.now)) (just on))
        turns.new ledger.new result }
{
    match chosen(alloc, &walk.standing, given, arms)? {
        Some(place) => {
            let arm = &arms[place];
            perform_all(alloc, walk, ledger, turns, arm.body.nodes.as_slice())
        }
        None => Ok(Flow::On),
    }
}

/// Carries out a statement or a construct.
#[cycle(blocks)]
#[tactic(auto, using(dc_tree::proofs::Views::statement_views))]
fn perform_node<'a>(
    alloc: Global,
    walk: &Walk<'_>,
    ledger: &mut Ledger,
    turns: &mut u64,
    node: &'a Node,
) -> Result<Flow<'a>, Stop>
    requires walk { IsWalk walk.now }
    requires walked { IsTrue (is_walked (scope_of walk.now)
        (index_names (walk.now).standing) (item node.now)) }
    ensures { (number : ℕ) → Spends (own_of walk.now) turns.old ledger.old
        (λ call. exec (scope_of walk.now) call number (item node.now))
        turns.new ledger.new result }
{
    match node {
        Node::Plain(lined) => perform_line(alloc, walk, ledger, lined),
        Node::If { arms, .. } => perform_arms(alloc, walk, ledger, turns, arms.as_slice()),
        Node::Select { head, arms, .. } => {
            let given = selector(alloc, walk, ledger, head)?;
            perform_cases(alloc, walk, ledger, turns, arms.as_slice(), given)
        }
        Node::Loop { head, body, .. } => perform_loop(alloc, walk, ledger, turns, body, head),
    }
}

/// Carries out the statements and constructs of a block in their order, and tells where it goes on.
#[cycle(blocks)]
#[tactic(auto, using(dc_tree::proofs::Views::statement_views))]
pub(crate) fn perform_all<'a>(
    alloc: Global,
    walk: &Walk<'_>,
    ledger: &mut Ledger,
    turns: &mut u64,
    nodes: &'a [Node],
) -> Result<Flow<'a>, Stop>
    requires walk { IsWalk walk.now }
    requires walked { IsTrue (is_walked_block (scope_of walk.now)
        (index_names (walk.now).standing) (items_from (map item nodes.now))) }
    ensures { (number : ℕ) → Spends (own_of walk.now) turns.old ledger.old
        (λ call. exec_all (scope_of walk.now) call number (items_from (map item nodes.now)))
        turns.new ledger.new result }
{
    for node in nodes {
        match perform_node(alloc, walk, ledger, turns, node)? {
            Flow::On => {}
            flow => return Ok(flow),
        }
    }
    Ok(Flow::On)
}
