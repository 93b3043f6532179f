//! A program whose loop is opened and iterated by hand.

ghost use Rattle.std.specs.Prelude.{◌≡◌, slice_get, OnOk};
ghost use Rattle.machine_rows.specs.Ready.{IsReady};

use crate::calls::{TURNS, go, small_store};
use dc_code::{Code, What};
use dc_front::{Accepted, accept};
use dc_int::{ElementId, Shape};
use dc_lists::put_value;
use dc_lower::lower;
use dc_store::{Cells, WholeStore};
use dc_text::{DcText, NoMemory};
use dc_tree::Fail as Refused;
use dc_vm::{Ended, Frame};
use std::alloc::Global;
use std::test::Fail;

const SQUARES: &[u8] =
    b"program p\ninteger :: a(4), i\ndo concurrent (i = 1:4)\n  a(i) = i*i\nend do\nprint *, a\nend program p\n";

/// The line of its last statement but one.
const PRINTED: u32 = 6;

/// The place of the instruction behind that of the loop, which is the first.
const BEHIND_LOOP: u32 = 1;

const INDEXES: [i64; 4] = [1, 2, 3, 4];

const DONE: Ended = Ended::Done { turns: TURNS };

fn lowered(alloc: Global, accepted: &Accepted) -> Result<Code, NoMemory> {
    let symbols = accepted.symbols();
    // The slice is taken for what it says of the names: each value that is declared is of its sort.
    let _sound = symbols.as_slice();
    lower(alloc, accepted.program(), symbols)
}

/// The code of the source.
fn code_of(alloc: Global) -> Result<Code, Refused> {
    let accepted = accept(alloc, SQUARES)?;
    let code = lowered(alloc, &accepted)?;
    Ok(code)
}

/// The first and the last value of an index and its step, as a header leaves them.
fn limits(
    alloc: Global,
    code: &Code,
    header: u32,
    cells: &mut WholeStore<'_>,
) -> Result<Option<(i64, i64, i64)>, NoMemory>
    requires { IsReady code.now cells.old }
    ensures { OnOk result (IsReady code.now cells.new) }
{
    let mut frame = Frame::new(alloc, code, header)?;
    let ended = go(alloc, code, header, &mut frame, cells)?;
    let step = frame.take_value();
    let last = frame.take_value();
    let first = frame.take_value();
    match (ended, first, last, step) {
        (DONE, Some(first), Some(last), Some(step)) => Ok(Some((first, last, step))),
        _ => Ok(None),
    }
}

/// Runs the block of a loop for one value of its index.
fn iterate(
    alloc: Global,
    code: &Code,
    body: u32,
    index: i64,
    frame: &mut Frame,
    cells: &mut WholeStore<'_>,
) -> Result<Ended, NoMemory>
    requires { IsReady code.now cells.old }
    ensures { OnOk result (IsReady code.now cells.new) }
{
    frame.reset();
    frame.set_slot(0, Some(index));
    go(alloc, code, body, frame, cells)
}

/// Runs it for each value, and says whether each time it came to its end.
fn iterate_all(
    alloc: Global,
    code: &Code,
    body: u32,
    cells: &mut WholeStore<'_>,
) -> Result<bool, NoMemory>
    requires { IsReady code.now cells.old }
    ensures { OnOk result (IsReady code.now cells.new) }
{
    let mut frame = Frame::new(alloc, code, body)?;
    for index in &INDEXES {
        if iterate(alloc, code, body, *index, &mut frame, cells)? != DONE {
            return Ok(false);
        }
    }
    Ok(true)
}

fn first_shape(code: &Code) -> Option<Shape>
    ensures { result ≡ slice_get (code.now).shapes 0 }
{
    code.shapes().first().copied()
}

/// What the elements of the first variable write, one after the other.
fn written(alloc: Global, code: &Code, cells: &mut WholeStore<'_>) -> Result<DcText, NoMemory>
    requires { IsReady code.now cells.old }
    ensures { OnOk result (IsReady code.now cells.new) }
{
    let mut line = DcText::new(alloc);
    let Some(shape) = first_shape(code) else {
        return Ok(line);
    };
    for position in 0..shape.elements {
        let element = ElementId {
            variable: 0,
            position,
        };
        if let Some(value) = cells.get(alloc, element, PRINTED)? {
            put_value(&mut line, position == 0, shape.logical, value)?;
        }
    }
    Ok(line)
}

/// What the calls answered, each with an answer other than want of memory.
#[derive(Drop)]
struct Seen {
    entered: Ended,
    entering: Option<What>,
    limits: Option<(i64, i64, i64)>,
    iterated: bool,
    elements: DcText,
    put: Ended,
    line: DcText,
}

/// Runs the main program up to its loop, opens that, runs its block, and goes on behind it.
fn run_by_hand(
    alloc: Global,
    code: &Code,
    header: u32,
    body: u32,
    cells: &mut WholeStore<'_>,
) -> Result<Seen, NoMemory>
    requires { IsReady code.now cells.old }
{
    let mut frame = Frame::new(alloc, code, 0)?;
    let entered = go(alloc, code, 0, &mut frame, cells)?;
    let limits = limits(alloc, code, header, cells)?;
    let iterated = iterate_all(alloc, code, body, cells)?;
    let elements = written(alloc, code, cells)?;
    let put = go(alloc, code, BEHIND_LOOP, &mut frame, cells)?;
    Ok(Seen {
        entered,
        entering: code.instructions().first().map(|instr| instr.what),
        limits,
        iterated,
        elements,
        put,
        line: DcText::from_bytes(alloc, frame.line())?,
    })
}

/// `None` is a code that isn't small or has no loop.
fn squares(alloc: Global) -> Result<Option<Seen>, Fail> {
    let code = code_of(alloc)?;
    let Some(mut store) = small_store(alloc, &code)? else {
        return Ok(None);
    };
    let mut cells = WholeStore::new(&mut store);
    let Some(construct) = code.constructs().first() else {
        return Ok(None);
    };
    let seen = run_by_hand(alloc, &code, construct.header, construct.body, &mut cells)?;
    Ok(Some(seen))
}

#[test]
fn squares_by_hand(rt: HostRuntime) -> Result<(), Fail> {
    let seen = squares(rt.alloc())?;
    assert!(rt; seen.is_some());
    if let Some(seen) = seen {
        assert_eq!(rt;
            seen.entered,
            Ended::Paused {
                at: 0,
                turns: TURNS
            }
        );
        assert_eq!(rt; seen.entering, Some(What::Enter { c: 0 }));
        assert_eq!(rt; seen.limits, Some((1, 4, 1)));
        assert!(rt; seen.iterated);
        assert_eq!(rt; seen.elements.as_bytes(), b"1 4 9 16".as_slice());
        assert_eq!(rt;
            seen.put,
            Ended::Paused {
                at: 2,
                turns: TURNS
            }
        );
        assert_eq!(rt; seen.line.as_bytes(), b"1 4 9 16\n".as_slice());
    }
    Ok(())
}
