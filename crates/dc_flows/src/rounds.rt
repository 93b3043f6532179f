//! What a loop does before its rounds, before each and behind each.

ghost use Rattle.std.specs.Prelude.{
  ◌≡◌,
  ◌++◌,
  ◌+◌,
  [],
  ◌∷◌,
  IfOk,
  OnOk,
  IsTrue,
  Some,
  None,
  pos,
  true,
  option_map,
};
ghost use Rattle.dc_code.specs.declared.instr.Relation.{Relation};
ghost use Rattle.dc_code.specs.declared.instr.What.{What};
ghost use Rattle.dc_int.specs.declared.kind.Kind.{Kind};
ghost use Rattle.dc_int.specs.declared.operation.Op.{Op};
ghost use Rattle.dc_form.specs.BuiltPrograms.{is_held};
ghost use Rattle.dc_tree.specs.Statements.{counted_ranging, statement};
ghost use Rattle.dc_tree.specs.Syntax.{tree};
ghost use Rattle.dc_entities.specs.Found.{entity_of};
ghost use Rattle.dc_actions.specs.Expressions.{entity_code, value_code};
ghost use Rattle.dc_actions.specs.Limits.{is_held_step, is_held_index, step_code};
ghost use Rattle.dc_actions.specs.Printing.{is_outside};
ghost use Rattle.dc_actions.specs.Naming.{scope_of, AreNamed};
ghost use Rattle.dc_int.specs.Sorts.{whole};
ghost use Rattle.dc_flows.specs.FlowsHeld.{is_held_test, counted_has_code, head_has_code};
ghost use Rattle.dc_flows.specs.RoundsSeen.{rounds_seen, round_test_code};
ghost use Rattle.dc_flows.specs.Flows.{
  scalar_group,
  while_rounds,
  counted_rounds,
  rounds_of,
  keep_code,
  fetch_code,
  store_code,
  start_code,
  down_code,
  behind_first_code,
  counted_head,
  counted_step,
};

use crate::scalars::{fetch, keep, scalar_group};
use dc_actions::{Names, held, value};
use dc_code::{Group, Relation, What};
use dc_entities::{Found, find};
use dc_int::{Kind, Op};
use dc_meaning::form_of;
use dc_sorts::{Form, kind_of};
use dc_text::{DcList, DcText, NoMemory};
use dc_tree::{Counted, Expr, Stmt};
use std::alloc::Global;

/// The groups that a counted DO adds: they keep its first value, its step, and how many rounds are left.
#[derive(Clone, Copy)]
pub(crate) struct Counters {
    pub first: u32,
    pub step: u32,
    pub left: u32,
}

/// The counters of a counted DO, from a group on.
pub(crate) fn counters_from(group: u32) -> Result<Counters, NoMemory>
    ensures { IfOk result (λ made. made
        ≡ record { first = group; step = group + 1; left = group + 2 }) }
{
    Ok(Counters {
        first: group,
        step: held(group as usize + 1)?,
        left: held(group as usize + 2)?,
    })
}

/// Adds how a value on top of the stack is stored in a scalar of the main program.
#[tactic(auto, using(dc_sorts::proofs::Knowing::gathering))]
fn store(whats: &mut DcList<What>, found: Found<'_>) -> Result<(), NoMemory>
    ensures { OnOk result
        (whats.new ≡ whats.old ++ store_code (entity_of found.entry)) }
{
    match found {
        Found::Variable { number, .. } => {
            whats.push(What::Subscript { v: number })?;
            whats.push(What::Store { v: number })
        }
        _ => Ok(()),
    }
}

/// Adds how the value of a scalar of the main program is pushed.
#[tactic(auto, using(dc_sorts::proofs::Knowing::gathering))]
fn load(whats: &mut DcList<What>, found: Found<'_>) -> Result<(), NoMemory>
    requires { IsTrue (is_outside (entity_of found)) }
    ensures { OnOk result (whats.new ≡ whats.old ++ entity_code (entity_of found.entry)) }
{
    match found {
        Found::Variable { number, .. } => {
            whats.push(What::Subscript { v: number })?;
            whats.push(What::Load { v: number })
        }
        _ => unreachable!(),
    }
}

/// Adds a limit, wrapped to the kind of the variable.
#[tactic(auto, using(dc_sorts::proofs::Knowing::gathering))]
fn limit(
    alloc: Global,
    names: &Names<'_>,
    whats: &mut DcList<What>,
    kind: Kind,
    expr: &Expr,
) -> Result<(), NoMemory>
    requires names { AreNamed names.now }
    requires held { IsTrue (is_held (tree expr.now)) }
    ensures { OnOk result (whats.new
        ≡ whats.old ++ value_code (scope_of names.now) (tree expr.now) ++ What.Wrap kind ∷ []) }
{
    value(alloc, names, whats, expr)?;
    whats.push(What::Wrap { k: kind })
}

/// Adds a step, which is 1 where none is written.
fn step(
    alloc: Global,
    names: &Names<'_>,
    whats: &mut DcList<What>,
    kind: Kind,
    expr: Option<&Expr>,
) -> Result<(), NoMemory>
    requires names { AreNamed names.now }
    requires held { IsTrue (is_held_step (option_map (λ step. tree step.now) expr)) }
    ensures { OnOk result (whats.new ≡ whats.old ++ step_code (scope_of names.now) kind
        (option_map (λ step. tree step.now) expr.entry)) }
{
    match expr {
        None => whats.push(What::Const { k: kind, n: 1 }),
        Some(step) => limit(alloc, names, whats, kind, step),
    }
}

/// Adds how a value on top of the stack is kept in a group and pushed again.
#[tactic(auto, using(dc_sorts::proofs::Knowing::gathering))]
fn keep_on(whats: &mut DcList<What>, group: u32) -> Result<(), NoMemory>
    ensures { OnOk result (whats.new ≡ whats.old ++ keep_code group ++ fetch_code group) }
{
    keep(whats, group)?;
    fetch(whats, group)
}

/// Adds how the number of rounds is counted and kept.
#[tactic(auto, using(dc_sorts::proofs::Knowing::gathering))]
fn count(whats: &mut DcList<What>, kind: Kind, left: u32) -> Result<(), NoMemory>
    ensures { OnOk result (whats.new ≡ whats.old ++ (What.Count kind ∷ keep_code left)) }
{
    whats.push(What::Count { k: kind })?;
    keep(whats, left)
}

/// Adds how the variable takes its first value.
#[tactic(auto, using(dc_sorts::proofs::Knowing::gathering))]
fn take_first(whats: &mut DcList<What>, first: u32, found: Found<'_>) -> Result<(), NoMemory>
    ensures { OnOk result
        (whats.new ≡ whats.old ++ fetch_code first ++ store_code (entity_of found.entry)) }
{
    fetch(whats, first)?;
    store(whats, found)
}

/// Adds a comparison of the number on top of the stack with zero.
#[tactic(auto, using(dc_sorts::proofs::Knowing::gathering))]
fn positive(whats: &mut DcList<What>) -> Result<(), NoMemory>
    ensures { OnOk result (whats.new
        ≡ whats.old ++ (What.Const Kind.K8 (pos 0) ∷ What.Compare Relation.Gt ∷ [])) }
{
    whats.push(What::Const { k: Kind::K8, n: 0 })?;
    whats.push(What::Compare { r: Relation::Gt })
}

/// Adds the test of a counted DO, whether a round is left.
#[tactic(auto, using(dc_sorts::proofs::Knowing::gathering))]
pub(crate) fn counted_test(whats: &mut DcList<What>, left: u32) -> Result<(), NoMemory>
    ensures { OnOk result (whats.new ≡ whats.old ++ (fetch_code left
        ++ What.Const Kind.K8 (pos 0) ∷ What.Compare Relation.Gt ∷ [])) }
{
    fetch(whats, left)?;
    positive(whats)
}

/// Adds a step, which is kept.
#[tactic(auto, using(dc_sorts::proofs::Knowing::gathering))]
fn kept_step(
    alloc: Global,
    names: &Names<'_>,
    whats: &mut DcList<What>,
    kind: Kind,
    group: u32,
    expr: Option<&Expr>,
) -> Result<(), NoMemory>
    requires names { AreNamed names.now }
    requires held { IsTrue (is_held_step (option_map (λ step. tree step.now) expr)) }
    ensures { OnOk result (whats.new ≡ whats.old ++ step_code (scope_of names.now) kind
        (option_map (λ step. tree step.now) expr.entry) ++ (keep_code group ++ fetch_code group)) }
{
    step(alloc, names, whats, kind, expr)?;
    keep_on(whats, group)
}

/// Adds how the rounds are counted, and the variable takes its first value.
#[tactic(auto, using(dc_sorts::proofs::Knowing::gathering))]
fn start(
    whats: &mut DcList<What>,
    kind: Kind,
    counters: Counters,
    found: Found<'_>,
) -> Result<(), NoMemory>
    ensures { OnOk result (whats.new ≡ whats.old
        ++ start_code kind (counters.first) (counters.left) (entity_of found.entry)) }
{
    count(whats, kind, counters.left)?;
    take_first(whats, counters.first, found)
}

/// Adds how the variable takes its next value.
#[tactic(auto, using(dc_sorts::proofs::Knowing::gathering))]
fn next_value(whats: &mut DcList<What>, kind: Kind, found: Found<'_>) -> Result<(), NoMemory>
    ensures { OnOk result (whats.new
        ≡ whats.old ++ (What.Arith Op.Add kind ∷ store_code (entity_of found.entry))) }
{
    whats.push(What::Arith {
        op: Op::Add,
        k: kind,
    })?;
    store(whats, found)
}

/// Adds how a round fewer is left.
#[tactic(auto, using(dc_sorts::proofs::Knowing::gathering))]
fn round_fewer(whats: &mut DcList<What>) -> Result<(), NoMemory>
    ensures { OnOk result (whats.new
        ≡ whats.old ++ (What.Const Kind.K8 (pos 1) ∷ What.Arith Op.Sub Kind.K8 ∷ [])) }
{
    whats.push(What::Const { k: Kind::K8, n: 1 })?;
    whats.push(What::Arith {
        op: Op::Sub,
        k: Kind::K8,
    })
}

/// Adds how the number of rounds that are left goes down.
#[tactic(auto, using(dc_sorts::proofs::Knowing::gathering))]
fn count_down(whats: &mut DcList<What>, left: u32) -> Result<(), NoMemory>
    ensures { OnOk result (whats.new ≡ whats.old ++ down_code left) }
{
    fetch(whats, left)?;
    round_fewer(whats)?;
    keep(whats, left)
}

/// Adds the last limit and the step, and how the rounds begin.
#[tactic(auto, using(dc_sorts::proofs::Knowing::gathering))]
fn behind_first(
    alloc: Global,
    names: &Names<'_>,
    whats: &mut DcList<What>,
    kind: Kind,
    counters: Counters,
    found: Found<'_>,
    counted: &Counted,
) -> Result<(), NoMemory>
    requires names { AreNamed names.now }
    requires held { IsTrue (is_held_index (counted_ranging counted.now)) }
    ensures { OnOk result (whats.new ≡ whats.old ++ behind_first_code (scope_of names.now) kind
        counters.first counters.step counters.left (entity_of found.entry)
        (counted_ranging counted.now)) }
{
    limit(alloc, names, whats, kind, &counted.last)?;
    kept_step(
        alloc,
        names,
        whats,
        kind,
        counters.step,
        counted.step.as_ref(),
    )?;
    start(whats, kind, counters, found)
}

/// Adds what a counted DO does before its first round.
#[tactic(auto, using(dc_sorts::proofs::Knowing::gathering))]
fn counted_head(
    alloc: Global,
    names: &Names<'_>,
    whats: &mut DcList<What>,
    kind: Kind,
    counters: Counters,
    found: Found<'_>,
    counted: &Counted,
) -> Result<(), NoMemory>
    requires names { AreNamed names.now }
    requires held { IsTrue (is_held_index (counted_ranging counted.now)) }
    requires step { counters.step ≡ counters.first + 1 }
    requires left { counters.left ≡ counters.first + 2 }
    ensures { OnOk result (whats.new ≡ whats.old ++ counted_head (scope_of names.now)
        counters.first kind (entity_of found.entry) (counted_ranging counted.now)) }
{
    limit(alloc, names, whats, kind, &counted.first)?;
    keep_on(whats, counters.first)?;
    behind_first(alloc, names, whats, kind, counters, found, counted)
}

/// Adds what a counted DO does behind a round.
#[tactic(auto, using(dc_sorts::proofs::Knowing::gathering))]
fn counted_step(
    whats: &mut DcList<What>,
    kind: Kind,
    counters: Counters,
    found: Found<'_>,
) -> Result<(), NoMemory>
    requires outside { IsTrue (is_outside (entity_of found)) }
    requires step { counters.step ≡ counters.first + 1 }
    requires left { counters.left ≡ counters.first + 2 }
    ensures { OnOk result (whats.new
        ≡ whats.old ++ counted_step counters.first kind (entity_of found.entry)) }
{
    load(whats, found)?;
    fetch(whats, counters.step)?;
    next_value(whats, kind, found)?;
    count_down(whats, counters.left)
}

/// What a loop does before its rounds, before each and behind each, and the groups that are added for it.
#[derive(Drop)]
pub(crate) struct Rounds<'a> {
    pub label: Option<&'a DcText>,
    pub head: DcList<What>,
    pub test: DcList<What>,
    pub step: DcList<What>,
    pub groups: DcList<Group>,
}

/// The rounds of a loop that goes round while a test holds, which may be left out.
fn while_rounds<'a>(
    alloc: Global,
    names: &Names<'_>,
    label: Option<&'a DcText>,
    test: Option<&Expr>,
) -> Result<Rounds<'a>, NoMemory>
    requires names { AreNamed names.now }
    requires held { IsTrue (is_held_test (option_map (λ test. tree test.now) test)) }
    ensures { IfOk result (λ rounds. rounds_seen rounds
        ≡ while_rounds (option_map (λ name. name.now) label.entry)
        (round_test_code (scope_of names.now) (option_map (λ test. tree test.now) test.entry))) }
{
    let mut whats = DcList::new(alloc);
    match test {
        Some(test) => {
            value(alloc, names, &mut whats, test)?;
        }
        None => whats.push(What::Truth { n: true })?,
    }
    Ok(Rounds {
        label,
        head: DcList::new(alloc),
        test: whats,
        step: DcList::new(alloc),
        groups: DcList::new(alloc),
    })
}

/// The groups of a counted DO with a variable of this kind.
#[tactic(auto, using(dc_sorts::proofs::Knowing::gathering))]
fn counted_groups(alloc: Global, kind: Kind) -> Result<DcList<Group>, NoMemory>
    ensures { IfOk result (λ groups. groups ≡ scalar_group (whole kind)
        ∷ (scalar_group (whole kind) ∷ (scalar_group (whole Kind.K8) ∷ []))) }
{
    let mut groups = DcList::new(alloc);
    groups.push(scalar_group(alloc, Form::Whole(kind)))?;
    groups.push(scalar_group(alloc, Form::Whole(kind)))?;
    groups.push(scalar_group(alloc, Form::Whole(Kind::K8)))?;
    Ok(groups)
}

/// The rounds of a counted DO, whose groups are those from a number on.
fn counted_rounds<'a>(
    alloc: Global,
    names: &Names<'_>,
    group: u32,
    label: Option<&'a DcText>,
    counted: &Counted,
) -> Result<Rounds<'a>, NoMemory>
    requires names { AreNamed names.now }
    requires held { IsTrue (counted_has_code (scope_of names.now) (counted_ranging counted.now)) }
    ensures { IfOk result (λ rounds. rounds_seen rounds ≡ counted_rounds (scope_of names.now) group
        (option_map (λ name. name.now) label.entry) (counted_ranging counted.now)) }
{
    let found = find(&names.standing, names.numbering, counted.name.as_bytes());
    let kind = kind_of(form_of(found));
    let counters = counters_from(group)?;
    let mut head = DcList::new(alloc);
    counted_head(alloc, names, &mut head, kind, counters, found, counted)?;
    let mut test = DcList::new(alloc);
    counted_test(&mut test, counters.left)?;
    let mut step = DcList::new(alloc);
    counted_step(&mut step, kind, counters, found)?;
    Ok(Rounds {
        label,
        head,
        test,
        step,
        groups: counted_groups(alloc, kind)?,
    })
}

/// What a loop by this statement does in rounds, whose groups are those from a number on. None for a DO
/// CONCURRENT.
#[tactic(auto, using(dc_tree::proofs::Views::statement_views))]
pub(crate) fn rounds_of<'a>(
    alloc: Global,
    names: &Names<'_>,
    group: u32,
    stmt: &'a Stmt,
) -> Result<Option<Rounds<'a>>, NoMemory>
    requires names { AreNamed names.now }
    requires held { IsTrue (head_has_code (scope_of names.now) (statement stmt.now)) }
    ensures { IfOk result (λ rounds. option_map rounds_seen rounds
        ≡ rounds_of (scope_of names.now) group (statement stmt.entry.now)) }
{
    match stmt {
        Stmt::Do {
            label,
            counted: Some(counted),
        } => {
            let label = label.as_ref();
            Ok(Some(counted_rounds(alloc, names, group, label, counted)?))
        }
        Stmt::Do { label, .. } => Ok(Some(while_rounds(alloc, names, label.as_ref(), None)?)),
        Stmt::DoWhile { label, test } => {
            Ok(Some(while_rounds(alloc, names, label.as_ref(), Some(test))?))
        }
        _ => Ok(None),
    }
}
