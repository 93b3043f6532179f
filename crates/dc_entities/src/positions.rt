//! How many elements there are within bounds, and their positions.

ghost use Rattle.std.specs.Prelude.{◌≡◌, ◌≤◌, ◌+◌, ◌*◌, Some, pos, MatchBool};
ghost use Rattle.dc_int.specs.Store.{extent, elements_in, offset_in, joined_position, position_in};

/// How many subscripts a dimension has.
pub fn extent(dimension: (i64, i64)) -> i128
    ensures { result ≡ pos (extent dimension) }
{
    let (low, high) = dimension;
    if high < low {
        0
    } else {
        i128::from(high) - i128::from(low) + 1
    }
}

fn is_empty(dimension: (i64, i64)) -> bool
    ensures { MatchBool result (extent dimension ≡ 0) (1 ≤ extent dimension) }
{
    let (low, high) = dimension;
    high < low
}

/// Whether there are elements within bounds.
fn has_elements(bounds: &[(i64, i64)]) -> bool
    ensures { MatchBool result (1 ≤ elements_in bounds.now) (elements_in bounds.now ≡ 0) }
{
    for dimension in bounds {
        if is_empty(*dimension) {
            return false;
        }
    }
    true
}

/// How many elements there are within bounds.
pub fn elements(bounds: &[(i64, i64)]) -> u32
    requires { elements_in bounds.now ≤ 4194304 }
    ensures { result ≡ elements_in bounds.now }
{
    if !has_elements(bounds) {
        return 0;
    }
    let mut size: u32 = 1;
    for dimension in bounds {
        size *= extent(*dimension) as u32;
    }
    size
}

/// How far a subscript is above the least one, where it is within the dimension.
fn offset(dimension: (i64, i64), subscript: i64) -> Option<u64>
    ensures { result ≡ offset_in dimension subscript }
{
    let (low, high) = dimension;
    if low <= subscript && subscript <= high {
        Some(subscript.abs_diff(low))
    } else {
        None
    }
}

/// The position by a subscript and the position by the later ones.
fn joined(dimension: (i64, i64), subscript: i64, others: u32) -> Option<u32>
    requires { extent dimension * (others + 1) ≤ 4194304 }
    ensures { result
        ≡ joined_position (extent dimension) (offset_in dimension subscript) (Some others) }
{
    let offset = offset(dimension, subscript)? as u32;
    Some(offset + extent(dimension) as u32 * others)
}

/// The position of the element with these subscripts, if there is such an element.
pub fn position(bounds: &[(i64, i64)], subscripts: &[i64]) -> Option<u32>
    requires { elements_in bounds.now ≤ 4194304 }
    ensures { result ≡ position_in bounds.now subscripts.now }
{
    if bounds.len() != subscripts.len() {
        return None;
    }
    if !has_elements(bounds) {
        return None;
    }
    let mut position: u32 = 0;
    let mut rank = bounds.len();
    while rank > 0 {
        rank -= 1;
        position = joined(bounds[rank], subscripts[rank], position)?;
    }
    Some(position)
}
