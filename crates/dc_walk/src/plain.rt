//! A loop of a program, judged by itself over given states.

ghost use Rattle.std.specs.Prelude.{◌≡◌, ◌≤◌, ℕ, List, length, slice_get, is_some, None, true, IfOk};
ghost use Rattle.dc_code.specs.Loops.{Loop};
ghost use Rattle.dc_tree.specs.declared.symbols.Symbol.{Symbol};
ghost use Rattle.dc_tree.specs.Blocks.{source_of};
ghost use Rattle.dc_form.specs.BuiltPrograms.{is_built};
ghost use Rattle.dc_walk.specs.Judging.{IsTask, bad_of, runs_of};
ghost use Rattle.dc_plain.specs.Marks.{blank_marks, marked_runs};
ghost use Rattle.dc_plain.specs.MarkViews.{marks_of, FitStore};
ghost use Rattle.dc_walk.specs.PlainVerdicts.{IsJudgeable, IsSaid};
ghost use Rattle.dc_meaning.specs.Programs.{program_loops};
ghost use Rattle.dc_plain.specs.Views.{store_with};
ghost use Rattle.dc_walk.specs.Visiting.{loop_parts};

use crate::judge::{go_on, mark_alone, race_among};
use crate::loops::nth_loop;
use crate::task::Task;
use dc_code::Race;
use dc_entities::Numbering;
use dc_int::Why;
use dc_meaning::{block_standing, first_index, index_kind, index_list};
use dc_plain::{Ledger, Mark};
use dc_text::{DcList, NoMemory};
use dc_tree::{Program, Symbols};
use std::alloc::Global;

/// What the plain judge says of a loop.
#[derive(Drop)]
pub enum PlainVerdict {
    /// It goes on, and leaves all elements in these states, in store order.
    GoOn { closing: DcList<Option<i64>> },
    /// The least iteration that, alone, doesn't end well, counted from 0, and the line of its end.
    Bad { iteration: u32, why: Why, line: u32 },
    /// Two iterations break the restriction of an element.
    Race(Race),
}

/// Tells of a loop whose iterations, alone, end well, by the marks of what each does.
fn told_by_marks(
    alloc: Global,
    task: Task<'_>,
    ledger: &mut Ledger,
    active: &[i64],
    rows: &[Vec<Mark>],
) -> Result<PlainVerdict, NoMemory>
    ghost parts: { Loop }
    requires task { IsTask parts task }
    requires few { length active.now ≤ 4194304 }
    requires fit { FitStore rows.now }
    requires marks { marks_of rows.now ≡ marked_runs 0
        (runs_of parts (ledger.old).store active.now) (blank_marks (ledger.old).store) }
    requires well { bad_of parts (ledger.old).store active.now ≡ None }
    ensures { IfOk result (λ said. IsSaid parts (ledger.old).store active.now said) }
{
    match race_among(alloc, task, ledger, active, rows)? {
        Some(told) => Ok(PlainVerdict::Race(told.race)),
        None => {
            go_on(alloc, task, ledger, active)?;
            let closing = ledger.states(alloc)?;
            Ok(PlainVerdict::GoOn { closing })
        }
    }
}

/// Which loop is asked for, and the turns of each of its iterations.
#[derive(Clone, Copy)]
pub(crate) struct Asked<'a> {
    pub program: &'a Program,
    pub construct: u32,
    pub turns: u64,
}

/// Tells of a loop with these iterations over the ledger. `_asked` says of which loop the task is.
fn told_of_loop(
    alloc: Global,
    _asked: Asked<'_>,
    task: Task<'_>,
    ledger: &mut Ledger,
    active: &[i64],
) -> Result<PlainVerdict, NoMemory>
    ghost parts: { Loop }
    requires task { IsTask parts task }
    requires few { length active.now ≤ 4194304 }
    ensures { IfOk result (λ said. IsSaid parts (ledger.old).store active.now said) }
{
    let mut rows = ledger.blank_marks(alloc)?;
    match mark_alone(alloc, task, ledger, active, &mut rows)? {
        Some(bad) => Ok(PlainVerdict::Bad {
            iteration: bad.iteration,
            why: bad.why,
            line: bad.line,
        }),
        None => {
            let said = told_by_marks(alloc, task, ledger, active, rows.as_slice())?;
            Ok(said)
        }
    }
}

/// Whether a program that can be run today has a loop of this number, counted from 0 in the order of
/// the text.
pub fn has_loop(program: &Program, construct: u32) -> bool
    ensures { (symbols : List Symbol) (turns : ℕ) → is_built symbols (source_of program.now) ≡ true
        → result ≡ is_some (slice_get (program_loops symbols (source_of program.now) turns)
        construct) }
{
    nth_loop(program.body.nodes.as_slice(), construct).is_some()
}

/// Judges a loop of a program over a store of these states, by what each of its iterations does alone
/// with so many turns.
///
/// `construct` numbers the loops in the order of the text, from 0; `width` is the number of indexes,
/// which is 1; `active` has the value of the index in each iteration, up to 4,194,304 of them; and
/// `opening` has the states of all elements in store order.
pub fn plain_verdict<'a>(
    alloc: Global,
    program: &'a Program,
    symbols: &'a Symbols,
    construct: u32,
    width: u32,
    active: &[i64],
    opening: &[Option<i64>],
    turns: u64,
) -> Result<PlainVerdict, NoMemory>
    requires { IsJudgeable program.now symbols.now construct width active.now }
    ensures { IfOk result (IsSaid
        (loop_parts symbols.now (source_of program.now) turns construct)
        (store_with symbols.now opening.now) active.now) }
{
    let numbering = Numbering::new(alloc, symbols)?;
    let mut ledger = Ledger::new(alloc, symbols, opening)?;
    match nth_loop(program.body.nodes.as_slice(), construct) {
        Some(found) => {
            let index = first_index(&found.head.stmt);
            let kind = index_kind(symbols, &numbering, index.name.as_bytes());
            let indexes = index_list(alloc, &index.name, kind)?;
            let task = Task {
                standing: block_standing(symbols, indexes.as_slice()),
                numbering: &numbering,
                body: found.body,
                turns,
            };
            let asked = Asked {
                program,
                construct,
                turns,
            };
            let said = told_of_loop(alloc, asked, task, &mut ledger, active)?;
            Ok(said)
        }
        None => Err(NoMemory),
    }
}
