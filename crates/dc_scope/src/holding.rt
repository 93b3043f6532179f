//! How many elements arrays have.

ghost use Rattle.std.specs.Prelude.{◌≡◌, ◌*◌, min};
ghost use Rattle.std.specs.Option.{option_copied};
ghost use Rattle.dc_int.specs.Store as stores;
ghost use Rattle.dc_sorts.specs.Meanings.{symbol_seen};
ghost use Rattle.dc_sorts.specs.Standing.{standing_of};
ghost use Rattle.dc_scope.specs.Deeds as deeds;

use dc_sorts::Standing;
use dc_tree::{Role, Symbol};

fn bounds_of_role(role: &Role) -> &[(i64, i64)]
    ensures { result.now ≡ deeds.bounds_of_role role.now }
{
    match role {
        Role::Variable { bounds, .. } => bounds.as_slice(),
        _ => &[],
    }
}

/// The symbol of a name in a unit.
fn symbol_seen<'a>(standing: &Standing<'a>, text: &[u8]) -> Option<&'a Symbol>
    ensures { option_copied result
        ≡ symbol_seen (standing_of standing.now).symbols (standing_of standing.now).unit text.now }
{
    let own = standing.symbols.lookup(standing.unit, text);
    match own {
        Some(symbol) => Some(symbol),
        None => standing.symbols.lookup(0, text),
    }
}

/// The declared bounds of the variable that a name stands for.
pub(crate) fn bounds_at<'a>(standing: &Standing<'a>, text: &[u8]) -> &'a [(i64, i64)]
    ensures { result.now ≡ deeds.bounds_at (standing_of standing.now) text.now }
{
    match symbol_seen(standing, text) {
        Some(symbol) => bounds_of_role(&symbol.role),
        None => &[],
    }
}

fn extent(dimension: (i64, i64)) -> u128
    ensures { result ≡ stores.extent (dimension.0, dimension.1) }
{
    let (low, high) = dimension;
    if high < low {
        0
    } else {
        (i128::from(high) - i128::from(low) + 1) as u128
    }
}

/// A number that is more than any list can have items.
const MANY: u128 = 18_446_744_073_709_551_616;

/// A product, or `MANY` where it is greater.
fn capped(a: u128, b: u128) -> u128
    ensures { result ≡ min (a * b) MANY }
{
    a.saturating_mul(b).min(MANY)
}

/// Whether there are so many elements within bounds.
pub(crate) fn holds(bounds: &[(i64, i64)], count: usize) -> bool
    ensures { result ≡ deeds.holds bounds.now count }
{
    let mut elements: u128 = 1;
    for dimension in bounds {
        elements = capped(elements, extent(*dimension));
    }
    elements == count as u128
}
