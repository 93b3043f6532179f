//! References to all elements of a variable.

ghost use Rattle.std.specs.Prelude.{◌≡◌, ◌≤◌, []};
ghost use Rattle.dc_code.specs.Troubles.{Slots};
ghost use Rattle.dc_entities.specs.Found.{entity_of, bounds_found};
ghost use Rattle.dc_int.specs.Sorts.{whole};
ghost use Rattle.dc_int.specs.Store.{elements_in};
ghost use Rattle.dc_plain.specs.Views.{View};
ghost use Rattle.dc_tree.specs.Entities.{slots};
ghost use Rattle.dc_meaning.specs.Acts.{refer_to};
ghost use Rattle.dc_meaning.specs.Gathering.{gathered, places_from};
ghost use Rattle.dc_meaning.specs.Places as places;
ghost use Rattle.dc_meaning.specs.Walking.{Stays};
ghost use Rattle.dc_meaning.specs.WalkScope.{own_of};

use crate::reading::{read, read_index};
use crate::settling::fault;
use crate::stop::Stop;
use crate::walk::Walk;
use dc_entities::{Found, elements};
use dc_int::{ElementId, FaultKind, Kind};
use dc_plain::Ledger;
use dc_text::DcList;
use std::alloc::Global;

/// The values of so many elements of a variable.
fn read_elements(
    alloc: Global,
    ledger: &mut Ledger,
    line: u32,
    variable: u32,
    count: u32,
) -> Result<DcList<i64>, Stop>
    ensures { (own : Slots) → Stays (λ zs. zs) own ledger.old
        (λ call. gathered (refer_to line) [] (places_from variable count 0)) ledger.new result }
{
    let mut values = DcList::new(alloc);
    for position in 0..count {
        values.push(read(ledger, line, ElementId { variable, position })?)?;
    }
    Ok(values)
}

/// The value of the index, as a list.
fn read_one(alloc: Global, walk: &Walk<'_>, line: u32, kind: Kind) -> Result<DcList<i64>, Stop>
    ensures { (view : View) → Stays (λ zs. zs) (own_of walk.now) view
        (λ call. places.whole_values line (slots 0 (whole kind) [])) view result }
{
    let mut values = DcList::new(alloc);
    values.push(read_index(walk, line, kind, &[])?)?;
    Ok(values)
}

/// References to all elements of a variable, in array element order.
pub(crate) fn whole_values(
    alloc: Global,
    walk: &Walk<'_>,
    ledger: &mut Ledger,
    line: u32,
    found: Found<'_>,
) -> Result<DcList<i64>, Stop>
    requires { elements_in (bounds_found found) ≤ 4194304 }
    ensures { Stays (λ zs. zs) (own_of walk.now) ledger.old
        (λ call. places.whole_values line (entity_of found.entry)) ledger.new result }
{
    match found {
        Found::Variable { number, bounds, .. } => {
            read_elements(alloc, ledger, line, number, elements(bounds))
        }
        Found::Index(kind) => read_one(alloc, walk, line, kind),
        Found::Constant { .. } | Found::Nothing => Err(fault(FaultKind::Undefined, line)),
    }
}
