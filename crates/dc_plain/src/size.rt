//! How many elements a variable has.

ghost use Rattle.std.specs.Prelude.{◌≡◌, ◌≤◌, ◌-◌, ◌^◌, min};
ghost use Rattle.dc_int.specs.Store.{extent, elements_in};

/// How many subscripts a dimension has, up to the greatest number.
fn extent_of(dimension: &(i64, i64)) -> u64
    ensures { result ≡ min (extent dimension.now) (2 ^ 64 - 1) }
{
    let (low, high) = dimension;
    if high < low {
        return 0;
    }
    high.abs_diff(*low).saturating_add(1)
}

/// How many elements there are within bounds. A dimension without subscripts leaves none, however
/// many the others have.
pub(crate) fn size_of(bounds: &[(i64, i64)]) -> usize
    requires { elements_in bounds.now ≤ 4194304 }
    ensures { result ≡ elements_in bounds.now }
{
    let mut size: u64 = 1;
    for dimension in bounds {
        size = size.saturating_mul(extent_of(dimension));
    }
    size as usize
}
