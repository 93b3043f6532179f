//! The run of a code over the cells of a store.

ghost use Rattle.std.specs.Prelude.{◌≤◌, IfOk, IfSome, IsTrue, OnOk};
ghost use Rattle.dc_store.specs.Shaped.{elements_together};
ghost use Rattle.machine_rows.specs.Ready.{IsFreshStore, IsReady};

use dc_code::Code;
use dc_int::Shape;
use dc_store::{Store, WholeStore};
use dc_text::NoMemory;
use dc_vm::{Ended, Frame, run};
use std::alloc::Global;

/// The turns of each run.
pub const TURNS: u64 = 10;

/// Whether there are one or two variables of few elements.
fn are_few(shapes: &[Shape]) -> bool
    ensures { IsTrue result → elements_together shapes.now ≤ 4194304 }
{
    match shapes {
        [one] => one.elements < 10,
        [one, other] => one.elements < 10 && other.elements < 10,
        _ => false,
    }
}

/// A store for a short code with few elements. `None` is another code.
pub fn small_store(alloc: Global, code: &Code) -> Result<Option<Store>, NoMemory>
    ensures { IfOk result (λ found. IfSome found (λ store. IsFreshStore code.now store)) }
{
    if code.instructions().len() > 100 || !are_few(code.shapes()) {
        return Ok(None);
    }
    let store = Store::new(alloc, code.shapes())?;
    Ok(Some(store))
}

/// Runs a code from a place.
pub fn go(
    alloc: Global,
    code: &Code,
    at: u32,
    frame: &mut Frame,
    cells: &mut WholeStore<'_>,
) -> Result<Ended, NoMemory>
    requires { IsReady code.now cells.old }
    ensures { OnOk result (IsReady code.now cells.new) }
{
    match run(alloc, code, at, frame, cells, TURNS) {
        Ended::NoMemory => Err(NoMemory),
        ended => Ok(ended),
    }
}
