//! `alone`: an iteration of a loop over the store that it opens with.

ghost use Rattle.std.specs.Prelude.{◌≡◌, ℕ, [], ◌∷◌, length, IfOk, IsTrue};
ghost use Rattle.dc_entities.specs.Numbering.{numbers_of};
ghost use Rattle.dc_tree.specs.Blocks.{items, source_of};
ghost use Rattle.dc_form.specs.BuiltPrograms.{are_built_symbols, is_built, is_built_loop};
ghost use Rattle.dc_tree.specs.Entities.{main_scope};
ghost use Rattle.dc_tree.specs.Statements.{statement};
ghost use Rattle.dc_walk.specs.Alone.{IsAsked, Tells, iteration_alone, block_alone, Ends};
ghost use Rattle.dc_meaning.specs.Looping.{index_name};
ghost use Rattle.dc_meaning.specs.Execution.{exec_all};
ghost use Rattle.dc_walk.specs.Flows.{Finishes};
ghost use Rattle.dc_walk.specs.Telling.{IsTold};
ghost use Rattle.dc_meaning.specs.WalkScope.{index_scope};

use crate::alone_out::AloneOut;
use crate::loops::{nth_loop, perform_iteration};
use crate::task::Task;
use dc_entities::Numbering;
use dc_meaning::{Stop, block_standing, first_index, index_kind, index_list};
use dc_plain::Ledger;
use dc_text::NoMemory;
use dc_tree::{Block, Program, Stmt, Symbols};
use std::alloc::Global;

/// Carries out an iteration of a loop, for a value of its index.
fn perform_one<'a>(
    alloc: Global,
    symbols: &'a Symbols,
    numbering: &'a Numbering,
    head: &'a Stmt,
    body: &'a Block,
    value: i64,
    turns: u64,
    ledger: &mut Ledger,
) -> Result<(), Stop>
    requires symbols { IsTrue (are_built_symbols symbols.now) }
    requires numbers { numbering.now ≡ numbers_of symbols.now }
    requires built { IsTrue (is_built_loop (main_scope symbols.now) (statement head.now)
        (items body.now)) }
    ensures { (number : ℕ) → Finishes ((Some value ∷ []) ∷ []) turns ledger.old
        (λ call. exec_all (index_scope symbols.now (index_name (statement head.now))) call number
        (items body.now))
        ledger.new result }
{
    let index = first_index(head);
    let kind = index_kind(symbols, numbering, index.name.as_bytes());
    let indexes = index_list(alloc, &index.name, kind)?;
    let task = Task {
        standing: block_standing(symbols, indexes.as_slice()),
        numbering,
        body,
        turns,
    };
    perform_iteration(alloc, task, value, ledger)
}

fn perform_loop(
    alloc: Global,
    program: &Program,
    symbols: &Symbols,
    construct: u32,
    value: i64,
    turns: u64,
    ledger: &mut Ledger,
) -> Result<(), Stop>
    requires { IsTrue (is_built symbols.now (source_of program.now)) }
    ensures { Ends ledger.old
        (block_alone symbols.now (source_of program.now) construct (value ∷ []) turns)
        ledger.new result }
{
    let numbering = Numbering::new(alloc, symbols)?;
    match nth_loop(program.body.nodes.as_slice(), construct) {
        Some(found) => perform_one(
            alloc,
            symbols,
            &numbering,
            &found.head.stmt,
            found.body,
            value,
            turns,
            ledger,
        ),
        None => Ok(()),
    }
}

fn told(alloc: Global, ledger: &Ledger, ended: Result<(), Stop>) -> Result<AloneOut, NoMemory>
    ensures { IfOk result (λ out. IsTold (ledger.now).entries ended out) }
{
    let ending = match ended {
        Ok(()) => None,
        Err(Stop::Failed { why, line }) => Some((why, line)),
        Err(Stop::NoMemory) => return Err(NoMemory),
    };
    let accesses = ledger.accesses(alloc)?;
    let touches = ledger.touches(alloc)?;
    let contributions = ledger.contributions(alloc);
    Ok(AloneOut {
        ending,
        accesses,
        touches,
        contributions,
    })
}

fn only(combination: &[i64]) -> i64
    requires { length combination.now ≡ 1 }
    ensures { combination.now ≡ result ∷ [] }
{
    combination[0]
}

/// Takes an iteration of a loop alone, over a store of these states, with so many turns.
///
/// `construct` numbers the loops in the order of the text, from 0, `combination` has the value of
/// the index, and `opening` the states of all elements in store order.
pub fn alone(
    alloc: Global,
    program: &Program,
    symbols: &Symbols,
    construct: u32,
    combination: &[i64],
    opening: &[Option<i64>],
    turns: u64,
) -> Result<AloneOut, NoMemory>
    requires { IsAsked program.now symbols.now combination.now }
    ensures { IfOk result (Tells (iteration_alone program.now symbols.now construct
        combination.now opening.now turns)) }
{
    let value = only(combination);
    let mut ledger = Ledger::new(alloc, symbols, opening)?;
    let ended = perform_loop(
        alloc,
        program,
        symbols,
        construct,
        value,
        turns,
        &mut ledger,
    );
    told(alloc, &ledger, ended)
}
