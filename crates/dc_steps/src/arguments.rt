//! The arguments of a call.

ghost use Rattle.std.specs.Prelude.{◌≡◌, ℕ};
ghost use Rattle.dc_code.specs.Codes.{plan_numbered};
ghost use Rattle.dc_code.specs.Instructions.{passed_as, passed_to};
ghost use Rattle.dc_code.specs.Operands.{items_off};
ghost use Rattle.dc_steps.specs.Calling.{arguments_off};
ghost use Rattle.dc_steps.specs.Halting.{Gives};

use crate::halt::{Halt, STUCK};
use crate::places::plan_numbered;
use dc_code::{Code, DummyPlan, Item, Passed, Passing};
use dc_frame::Frame;
use dc_text::DcList;
use std::alloc::Global;

/// Takes items off, and gives them in the order in which they were pushed.
fn items_off(alloc: Global, frame: &mut Frame, count: u32) -> Result<DcList<Item>, Halt>
    ensures { (line : ℕ)
        → Gives line result (λ items. (items, frame.new)) (items_off line count frame.old) }
{
    let mut items = DcList::new(alloc);
    let mut left = count;
    while left > 0 {
        left -= 1;
        let Some(item) = frame.take() else {
            return Err(STUCK);
        };
        items.push(item)?;
    }
    items.reverse();
    Ok(items)
}

/// An item as a dummy takes it.
fn passed_as(passing: Passing, item: Item) -> Result<Passed, Halt>
    ensures { (line : ℕ)
        → Gives line result (λ passed. passed) (passed_as line passing item) }
{
    match (passing, item) {
        (Passing::Value, Item::Value(value)) => Ok(Passed::ByValue(value)),
        (Passing::Place | Passing::OutPlace, Item::Place(place)) => Ok(Passed::AtPlace(place)),
        _ => Err(STUCK),
    }
}

/// Items as dummies take them, of which there are as many.
fn passed_to(alloc: Global, dummies: &[DummyPlan], items: &[Item]) -> Result<DcList<Passed>, Halt>
    ensures { (line : ℕ)
        → Gives line result (λ passed. passed) (passed_to line dummies.now items.now) }
{
    let mut passed = DcList::new(alloc);
    if dummies.len() != items.len() {
        return Err(STUCK);
    }
    for at in 0..dummies.len() {
        match passed_as(dummies[at].passing, items[at]) {
            Ok(given) => passed.push(given)?,
            Err(halt) => return Err(halt),
        }
    }
    Ok(passed)
}

/// The dummies of a procedure.
pub(crate) fn dummies_of(code: &Code, procedure: u32) -> &[DummyPlan]
    ensures { result.now ≡ (plan_numbered code.now procedure).dummies }
{
    match plan_numbered(code, procedure) {
        Some(plan) => plan.dummies.as_slice(),
        None => &[],
    }
}

/// Takes the arguments of a call off, as the dummies of the procedure take them.
pub fn arguments_off(
    alloc: Global,
    code: &Code,
    frame: &mut Frame,
    procedure: u32,
    count: u32,
) -> Result<DcList<Passed>, Halt>
    ensures { (line : ℕ) → Gives line result (λ passed. (passed, frame.new))
        (arguments_off line (plan_numbered code.now procedure).dummies count frame.old) }
{
    let items = items_off(alloc, frame, count)?;
    passed_to(alloc, dummies_of(code, procedure), items.as_slice())
}
