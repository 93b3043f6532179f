//! How many elements the variables of a unit have.

ghost use Rattle.std.specs.Prelude.{◌≡◌, ◌≤◌, ◌+◌, ◌*◌, ℕ};
ghost use Rattle.dc_int.specs.Store.{extent};
ghost use Rattle.dc_declare.specs.Totals.{capped, size_of, total_with, is_over};

/// The most elements that the variables of the main program may have.
const MOST_OUTSIDE: u32 = 4_194_304;

/// The most elements that the variables of a procedure may have.
const MOST_LOCAL: u32 = 4_096;

/// Numbers from here on are not told apart.
const CAP: u64 = 4_194_305;

fn capped(number: u64) -> u64
    ensures equal { result ≡ capped number }
    ensures bound { result ≤ 4194305 }
{
    if number < CAP { number } else { CAP }
}

/// How many subscripts a dimension has.
fn extent(low: i64, high: i64) -> u64
    ensures equal { result ≡ capped (extent (low, high)) }
    ensures bound { result ≤ 4194305 }
{
    if high < low {
        return 0;
    }
    capped(high.abs_diff(low).saturating_add(1))
}

fn extent_of(dimension: &(i64, i64)) -> u64
    ensures equal { result ≡ capped (extent dimension.now) }
    ensures bound { result ≤ 4194305 }
{
    let (low, high) = dimension;
    extent(*low, *high)
}

/// How many elements there are within bounds.
pub(crate) fn size_of(bounds: &[(i64, i64)]) -> u32
    ensures { result ≡ size_of bounds.now }
{
    let mut size: u64 = 1;
    for dimension in bounds {
        let one = extent_of(dimension);
        size = capped(size * one);
    }
    size as u32
}

pub(crate) fn total_with(elements: u32, size: u32) -> u32
    ensures { result ≡ total_with elements size }
{
    capped(u64::from(elements) + u64::from(size)) as u32
}

pub(crate) fn is_over(unit: u32, total: u32) -> bool
    ensures { result ≡ is_over unit total }
{
    let limit = if unit == 0 { MOST_OUTSIDE } else { MOST_LOCAL };
    total > limit
}

/// Capping at each step is capping at the end.
pub fn sizes_can_be_capped_early()
    ensures product { (m n : ℕ) → capped (capped m * capped n) ≡ capped (m * n) }
    ensures sum { (m n : ℕ) → capped (capped m + capped n) ≡ capped (m + n) }
{}
