//! The run of a main program by its code, from one pause of the machine to the next.

ghost use Rattle.std.specs.Prelude.{◌≡◌, ◌≤◌, ◌<◌, IsTrue, IfOk, OnOk, List, [], false, length, slice_get, Some, ℕ};
ghost use Rattle.dc_code.specs.declared.instr.What.{What};
ghost use Rattle.dc_code.specs.Codes.{CodeLists};
ghost use Rattle.dc_code.specs.Frames.{with_line};
ghost use Rattle.dc_code.specs.Inner.{Forms};
ghost use Rattle.dc_code.specs.Loops.{Loop};
ghost use Rattle.dc_tree.specs.declared.symbols.Symbol.{Symbol};
ghost use Rattle.dc_tree.specs.Blocks.{items, line_of, source_of};
ghost use Rattle.dc_entities.specs.Numbering.{numbers_of};
ghost use Rattle.dc_form.specs.BuiltPrograms.{are_built_symbols};
ghost use Rattle.dc_run.specs.declared.ending.Ending.{Ending};
ghost use Rattle.dc_run.specs.declared.standing.Step.{Step};
ghost use Rattle.dc_run.specs.Answered.{IsRunOf, NamesOwn};
ghost use Rattle.dc_run.specs.Playing.{Looping, greatest_output};
ghost use Rattle.dc_run.specs.Resuming.{IsUsual, Attends, IsReachable};
ghost use Rattle.dc_run.specs.Running.{stopped_by, step_behind, looping_in, IsVisitWith};
ghost use Rattle.dc_run.specs.Variables.{Held, held_by};
ghost use Rattle.dc_steps.specs.Ready.{AreReady};
ghost use Rattle.dc_run.specs.Tasks.{IsTask, IsPause, Advances, EndsSo, beginning};

use crate::ending::Ending;
use crate::loops::find_loop;
use crate::opening::{Opened, open};
use crate::standing::{Found, Judged, Standing, Step, Task};
use crate::variables::Variables;
use crate::writing::write_line;
use dc_code::{Code, Verdict, What};
use dc_entities::Numbering;
use dc_frame::Frame;
use dc_int::Why;
use dc_plain::Ledger;
use dc_steps::Ended;
use dc_text::{DcList, DcText, NoMemory};
use dc_tree::Symbols;
use dc_walk::visit;
use std::alloc::Global;

/// The end of a run by what is said of a loop, unless the loop goes on.
fn stopped(said: Verdict) -> Option<Ending>
    ensures { result ≡ stopped_by said }
{
    match said {
        Verdict::GoOn => None,
        verdict => Some(Ending::Stopped(verdict)),
    }
}

/// The run goes on behind a place with so many turns, unless it ends there.
fn step_behind(at: u32, turns: u64, met: Option<Ending>) -> Step
    requires { at < 4294967295 }
    ensures { result ≡ step_behind at turns met }
{
    match met {
        Some(ending) => Step::Over(ending),
        None => Step::On { at: at + 1, turns },
    }
}

/// Opens a loop that is reached with so many turns, and judges it.
fn judge_loop(
    alloc: Global,
    task: Task<'_>,
    found: Found<'_>,
    turns: u64,
    variables: &mut Variables,
) -> Result<Judged, NoMemory>
    ghost parts: { Loop }
    requires numbers { task.numbering.now ≡ numbers_of task.symbols.now }
    requires reachable { IsReachable parts task.symbols.now task.code.now task.turns found.number
        (line_of found.head.now) (items found.body.now) }
    requires few { length task.code.now.instructions < 4294967296 }
    requires ready { AreReady task.code.now (λ (held : Held). held.shapes)
        (λ (held : Held). held.store) (held_by variables.old) }
    ensures said { IfOk result (λ judged. IsVisitWith parts turns judged.turns
        (variables.old).ledger.store (variables.new).ledger.store judged.said) }
    ensures shapes { OnOk result ((variables.new).shapes ≡ (variables.old).shapes) }
{
    match open(alloc, task, found, turns, variables)? {
        Opened::Between { limits, turns } => {
            let ledger = &mut variables.ledger;
            let said = visit(
                alloc,
                task.symbols,
                task.numbering,
                found.head,
                found.body,
                limits,
                task.turns,
                ledger,
            )?;
            Ok(Judged { said, turns })
        }
        Opened::Bad { why, line } => Ok(Judged {
            said: Verdict::HeaderFault {
                why,
                line,
                mask: None,
            },
            turns,
        }),
    }
}

/// Judges the loop of a number, and goes on behind a place with what it leaves.
fn enter(
    alloc: Global,
    task: Task<'_>,
    number: u32,
    at: u32,
    turns: u64,
    standing: &mut Standing,
) -> Result<Step, NoMemory>
    ghost forms: { Forms }
    requires task { IsTask forms task }
    requires there { number < length task.loops.now }
    requires place { at < 4294967295 }
    requires usual { IsUsual task.symbols.now task.code.now standing.old }
    ensures attends { IfOk result (λ step. (line : ℕ)
        → slice_get task.entry.code.now.instructions at
        ≡ Some (record { line = line; what = What.Enter number })
        → Attends (looping_in forms) task.entry.symbols.now task.entry.code.now at turns
        standing.old standing.new step) }
    ensures usual { IfOk result (λ step.
        IsUsual task.entry.symbols.now task.entry.code.now standing.new) }
    ensures frame { (standing.new).frame ≡ (standing.old).frame }
{
    let found = find_loop(task, number);
    let judged = judge_loop(alloc, task, found, turns, &mut standing.variables)?;
    Ok(step_behind(at, judged.turns.min(turns), stopped(judged.said)))
}

/// Writes the line that the machine holds, and goes on behind a place.
fn put_line(line: u32, at: u32, turns: u64, standing: &mut Standing) -> Result<Step, NoMemory>
    requires place { at < 4294967295 }
    requires room { length (standing.old).output ≤ greatest_output }
    ensures attends { (looping : Looping) (symbols : List Symbol) (code : CodeLists)
        → slice_get code.instructions at ≡ Some (record { line = line; what = What.PutEnd })
        → IfOk result (λ step. Attends looping symbols code at turns
        standing.old standing.new step) }
    ensures usual { (symbols : List Symbol) (code : CodeLists) → IsUsual symbols code standing.old
        → IfOk result (λ step. IsUsual symbols code standing.new) }
    ensures frame { OnOk result
        ((standing.new).frame ≡ with_line [] false (standing.old).frame) }
{
    let met = write_line(line, standing.frame.line(), &mut standing.output)?;
    standing.frame.clear_line();
    Ok(step_behind(at, turns, met))
}

/// Does what the pause at a place asks for, where so many turns are left.
fn attend(
    alloc: Global,
    task: Task<'_>,
    at: u32,
    turns: u64,
    standing: &mut Standing,
) -> Result<Step, NoMemory>
    ghost forms: { Forms }
    requires task { IsTask forms task }
    requires paused { IsPause task.code.now at }
    requires usual { IsUsual task.symbols.now task.code.now standing.old }
    ensures attends { IfOk result (λ step.
        Attends (looping_in forms) task.entry.symbols.now task.entry.code.now at turns
        standing.old standing.new step) }
    ensures usual { IfOk result (λ step.
        IsUsual task.entry.symbols.now task.entry.code.now standing.new) }
    ensures units { OnOk result
        ((standing.new).frame.units ≡ (standing.old).frame.units) }
{
    let instr = task.code.instructions()[at as usize];
    match instr.what {
        What::PutEnd => put_line(instr.line, at, turns, standing),
        What::Enter { c } => enter(alloc, task, c, at, turns, standing),
        _ => unreachable!(),
    }
}

/// Runs on from a place up to the next pause, and does what that asks for.
fn advance(
    alloc: Global,
    task: Task<'_>,
    at: u32,
    turns: u64,
    standing: &mut Standing,
) -> Result<Step, NoMemory>
    ghost forms: { Forms }
    requires task { IsTask forms task }
    requires usual { IsUsual task.symbols.now task.code.now standing.old }
    ensures advances { IfOk result (λ step.
        Advances (looping_in forms) task.entry.symbols.now task.entry.code.now at turns
        standing.old standing.new step) }
    ensures usual { IfOk result (λ step.
        IsUsual task.entry.symbols.now task.entry.code.now standing.new) }
{
    let ended = dc_vm::run(
        alloc,
        task.code,
        at,
        &mut standing.frame,
        &mut standing.variables,
        turns,
    );
    match ended {
        Ended::Done { .. } => Ok(Step::Over(Ending::Done)),
        Ended::Fault { why, line } => Ok(bad(Why::Fault(why), line)),
        Ended::Spent { line } => Ok(bad(Why::Spent, line)),
        Ended::NoMemory => Err(NoMemory),
        Ended::Paused { at, turns } => attend(alloc, task, at, turns, standing),
    }
}

/// The end of a run by a statement that isn't carried out.
fn bad(why: Why, line: u32) -> Step
    ensures { result ≡ Step.Over (Ending.Bad why line) }
{
    Step::Over(Ending::Bad { why, line })
}

/// Runs from the beginning of a code to the end of the run.
pub(crate) fn run_code(
    alloc: Global,
    task: Task<'_>,
    turns: u64,
    standing: &mut Standing,
) -> Result<Ending, NoMemory>
    ghost forms: { Forms }
    requires task { IsTask forms task }
    requires usual { IsUsual task.symbols.now task.code.now standing.old }
    ensures { IfOk result (λ ending.
        EndsSo (looping_in forms) task.entry.symbols.now task.entry.code.now turns
        standing.old standing.new ending) }
{
    let mut at = 0;
    let mut left = turns;
    loop {
        match advance(alloc, task, at, left, standing)? {
            Step::On { at: next, turns } => {
                at = next;
                left = turns;
            }
            Step::Over(ending) => return Ok(ending),
        }
    }
}

/// Where a run of a code begins.
pub(crate) fn begin(alloc: Global, symbols: &Symbols, code: &Code) -> Result<Standing, NoMemory>
    requires names { IsTrue (are_built_symbols symbols.now) }
    ensures { IfOk result (λ standing. standing ≡ beginning symbols.now code.now) }
{
    let ledger = Ledger::initial(alloc, symbols)?;
    let shapes = DcList::from_vec(Vec::from_slice(alloc, code.shapes())?);
    Ok(Standing {
        variables: Variables { ledger, shapes },
        frame: Frame::new(alloc, code, 0)?,
        output: DcText::new(alloc),
    })
}
