//! References to variables, their elements and constants.

ghost use Rattle.std.specs.Prelude.{◌≡◌, ◌≤◌, []};
ghost use Rattle.dc_code.specs.declared.frame.Place.{Place};
ghost use Rattle.dc_code.specs.Troubles.{Slots};
ghost use Rattle.dc_entities.specs.Found.{entity_of, bounds_found};
ghost use Rattle.dc_int.specs.Sorts.{Sort, whole};
ghost use Rattle.dc_int.specs.Store.{elements_in};
ghost use Rattle.dc_plain.specs.Views.{View};
ghost use Rattle.dc_tree.specs.Entities.{outside, slots, nothing};
ghost use Rattle.dc_meaning.specs.Acts as acts;
ghost use Rattle.dc_meaning.specs.Places as places;
ghost use Rattle.dc_meaning.specs.Walking.{Stays};
ghost use Rattle.dc_meaning.specs.WalkScope.{own_of};

use crate::settling::{fault, required};
use crate::stop::Stop;
use crate::walk::Walk;
use dc_entities::{Found, position};
use dc_int::{ElementId, FaultKind, Kind};
use dc_plain::Ledger;

/// The element of an outside variable with these subscripts.
pub(crate) fn element_of(
    line: u32,
    variable: u32,
    bounds: &[(i64, i64)],
    subscripts: &[i64],
) -> Result<ElementId, Stop>
    requires { elements_in bounds.now ≤ 4194304 }
    ensures { (own : Slots) (view : View) (sort : Sort) → Stays Place.Outer own view
        (λ call. places.element_at line (outside variable sort bounds.now) subscripts.now) view result }
{
    match position(bounds, subscripts) {
        Some(position) => Ok(ElementId { variable, position }),
        None => Err(fault(FaultKind::Subscript, line)),
    }
}

/// A reference to an element, which has to be defined.
pub fn read(ledger: &mut Ledger, line: u32, element: ElementId) -> Result<i64, Stop>
    ensures { (own : Slots) → Stays (λ z. z) own ledger.old
        (λ call. acts.refer_to line (Place.Outer element)) ledger.new result }
{
    let state = ledger.get(element, line)?;
    required(line, state)
}

/// A reference to an element of an outside variable, by its subscripts.
fn read_at(
    ledger: &mut Ledger,
    line: u32,
    variable: u32,
    bounds: &[(i64, i64)],
    subscripts: &[i64],
) -> Result<i64, Stop>
    requires { elements_in bounds.now ≤ 4194304 }
    ensures { (own : Slots) (sort : Sort) → Stays (λ z. z) own ledger.old
        (λ call. places.value_at_entity line (outside variable sort bounds.now) subscripts.now)
        ledger.new result }
{
    let element = element_of(line, variable, bounds, subscripts)?;
    read(ledger, line, element)
}

/// The value of the index. It has no subscripts.
pub(crate) fn read_index(
    walk: &Walk<'_>,
    line: u32,
    kind: Kind,
    subscripts: &[i64],
) -> Result<i64, Stop>
    ensures { (view : View) → Stays (λ z. z) (own_of walk.now) view
        (λ call. places.value_at_entity line (slots 0 (whole kind) []) subscripts.now) view result }
{
    let _kind = kind;
    match subscripts {
        [] => required(line, walk.values.first().copied()),
        [_, ..] => Err(fault(FaultKind::Subscript, line)),
    }
}

/// A reference to nothing, which no accepted program has.
fn read_nothing(line: u32, subscripts: &[i64]) -> Result<i64, Stop>
    ensures { (own : Slots) (view : View) → Stays (λ z. z) own view
        (λ call. places.value_at_entity line nothing subscripts.now) view result }
{
    match subscripts {
        [] => Err(fault(FaultKind::Undefined, line)),
        [_, ..] => Err(fault(FaultKind::Subscript, line)),
    }
}

/// A reference to what a name stands for, with these subscripts.
pub(crate) fn value_at(
    walk: &Walk<'_>,
    ledger: &mut Ledger,
    line: u32,
    found: Found<'_>,
    subscripts: &[i64],
) -> Result<i64, Stop>
    requires { elements_in (bounds_found found) ≤ 4194304 }
    ensures { Stays (λ z. z) (own_of walk.now) ledger.old
        (λ call. places.value_at_entity line (entity_of found.entry) subscripts.now) ledger.new result }
{
    match found {
        Found::Index(kind) => read_index(walk, line, kind, subscripts),
        Found::Variable { number, bounds, .. } => {
            read_at(ledger, line, number, bounds, subscripts)
        }
        Found::Constant { value, .. } => Ok(value),
        Found::Nothing => read_nothing(line, subscripts),
    }
}
