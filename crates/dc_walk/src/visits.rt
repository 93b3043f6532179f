//! A loop of the main program whose limits are known, judged by the plain judge.

ghost use Rattle.std.specs.Prelude.{◌≡◌, IfOk};
ghost use Rattle.dc_code.specs.Loops.{Loop};
ghost use Rattle.dc_entities.specs.Numbering.{numbers_of};
ghost use Rattle.dc_tree.specs.Blocks.{items};
ghost use Rattle.dc_tree.specs.Statements.{statement};
ghost use Rattle.dc_walk.specs.Judging.{IsTask};
ghost use Rattle.dc_walk.specs.Visiting.{IsVisitable, IsVisitBetween, span_with};

use crate::header::Limits;
use crate::judge::judge;
use crate::task::Task;
use dc_code::Verdict;
use dc_entities::{Numbering, are_too_many, values};
use dc_int::{FaultKind, Why};
use dc_meaning::{block_standing, first_index, index_kind, index_list};
use dc_plain::Ledger;
use dc_text::NoMemory;
use dc_tree::{Block, Lined, Symbols};
use std::alloc::Global;

/// Judges the iterations between the limits.
fn visit_between(
    alloc: Global,
    task: Task<'_>,
    line: u32,
    limits: Limits,
    ledger: &mut Ledger,
) -> Result<Verdict, NoMemory>
    ghost parts: { Loop }
    requires { IsTask parts task }
    ensures { IfOk result (λ said. IsVisitBetween parts line (span_with limits)
        (ledger.old).store (ledger.new).store said) }
{
    if are_too_many(limits.first, limits.last) {
        return Ok(Verdict::HeaderFault {
            why: Why::Fault(FaultKind::TooManyIterations),
            line,
            mask: None,
        });
    }
    let active = values(alloc, limits.first, limits.last)?;
    let said = judge(alloc, task, ledger, active.as_slice())?;
    Ok(said)
}

/// Judges a loop whose header comes to these limits, and leaves the elements as it does: with the
/// closing values where it goes on, and else unchanged. `head` is its header, `body` its block, and
/// each iteration has so many turns.
pub fn visit<'a>(
    alloc: Global,
    symbols: &'a Symbols,
    numbering: &'a Numbering,
    head: &'a Lined,
    body: &'a Block,
    limits: Limits,
    turns: u64,
    ledger: &mut Ledger,
) -> Result<Verdict, NoMemory>
    ghost parts: { Loop }
    requires visitable { IsVisitable parts symbols.now turns (head.now).line
        (statement (head.now).stmt) (items body.now) }
    requires numbers { numbering.now ≡ numbers_of symbols.now }
    ensures { IfOk result (λ said. IsVisitBetween parts (head.now).line (span_with limits)
        (ledger.old).store (ledger.new).store said) }
{
    ledger.forget_accesses();
    let index = first_index(&head.stmt);
    let kind = index_kind(symbols, numbering, index.name.as_bytes());
    let indexes = index_list(alloc, &index.name, kind)?;
    let task = Task {
        standing: block_standing(symbols, indexes.as_slice()),
        numbering,
        body,
        turns,
    };
    let said = visit_between(alloc, task, head.line, limits, ledger)?;
    Ok(said)
}
