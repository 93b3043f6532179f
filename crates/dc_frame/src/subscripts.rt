//! Subscripts, and the positions of elements by them.

ghost use Rattle.std.specs.Prelude.{◌≡◌, ◌≤◌, ◌+◌, ◌*◌, Some, None, IsTrue, MatchBool};
ghost use Rattle.std.specs.Option.{ForSome};
ghost use Rattle.dc_int.specs.Store.{extent, elements_in, offset_in, joined_position};
ghost use Rattle.dc_code.specs.Codes.{is_small};

/// What the subscripts that are taken off a stack name: the position of an element, none that is within the
/// bounds, or nothing, where a subscript is missing.
#[derive(Clone, Copy, Debug, PartialEq, Eq)]
pub enum Subscripted {
    At(u32),
    Out,
    Missing,
}

/// Whether there are elements within bounds.
pub(crate) fn has_elements(bounds: &[(i64, i64)]) -> bool
    ensures { MatchBool result (1 ≤ elements_in bounds.now) (elements_in bounds.now ≡ 0) }
{
    for (low, high) in bounds {
        if *high < *low {
            return false;
        }
    }
    true
}

/// How many subscripts a dimension has.
fn extent(dimension: (i64, i64)) -> u32
    requires some { 1 ≤ extent dimension }
    requires few { extent dimension ≤ 4194304 }
    ensures { result ≡ extent dimension }
{
    let (low, high) = dimension;
    high.abs_diff(low) as u32 + 1
}

/// How many elements there are within bounds.
pub(crate) fn elements(bounds: &[(i64, i64)]) -> u32
    requires { IsTrue (is_small bounds.now) }
    ensures { result ≡ elements_in bounds.now }
{
    if !has_elements(bounds) {
        return 0;
    }
    let mut size: u32 = 1;
    for dimension in bounds {
        size *= extent(*dimension);
    }
    size
}

/// The position by no subscripts, if there are elements.
pub(crate) fn first_position(bounds: &[(i64, i64)]) -> Option<u32>
    ensures some { 1 ≤ elements_in bounds.now → result ≡ Some 0 }
    ensures none { elements_in bounds.now ≡ 0 → result ≡ None }
{
    if has_elements(bounds) { Some(0) } else { None }
}

/// How far a subscript is above the least one, where it is within the dimension.
fn offset(dimension: (i64, i64), subscript: i64) -> Option<u64>
    ensures { result ≡ offset_in dimension subscript }
{
    let (low, high) = dimension;
    if low <= subscript && subscript <= high {
        Some(subscript.abs_diff(low))
    } else {
        None
    }
}

/// The position by a subscript and the position by the later ones.
pub(crate) fn joined(dimension: (i64, i64), subscript: i64, others: Option<u32>) -> Option<u32>
    requires { ForSome others (λ others. extent dimension * (others + 1) ≤ 4194304) }
    ensures { result
        ≡ joined_position (extent dimension) (offset_in dimension subscript) others }
{
    let others = others?;
    let offset = offset(dimension, subscript)? as u32;
    Some(offset + extent(dimension) * others)
}
