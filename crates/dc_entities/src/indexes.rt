//! The values of an index with step 1.

ghost use Rattle.std.specs.Prelude.{◌≡◌, ◌≤◌, [], ◌∷◌, false, length, pos, IfOk};
ghost use Rattle.dc_code.specs.Combinations.{value_count, values_of};
ghost use Rattle.dc_code.specs.Loops.{are_too_many};

use dc_text::{DcList, NoMemory};
use std::alloc::Global;

/// The most iterations of a loop.
const MOST: u64 = 4_194_304;

/// Whether there are too many numbers from one to another.
pub fn are_too_many(first: i64, last: i64) -> bool
    ensures { result ≡ are_too_many (record { first = first; last = last; step = pos 1 } ∷ []) }
{
    first <= last && MOST <= last.abs_diff(first)
}

/// How many numbers there are from one to another.
fn count(first: i64, last: i64) -> u32
    requires { are_too_many (record { first = first; last = last; step = pos 1 } ∷ []) ≡ false }
    ensures count { result ≡ value_count (record { first = first; last = last; step = pos 1 }) }
    ensures few { result ≤ 4194304 }
{
    if last < first {
        0
    } else {
        (last.abs_diff(first) + 1) as u32
    }
}

/// The numbers from one to another.
pub fn values(alloc: Global, first: i64, last: i64) -> Result<DcList<i64>, NoMemory>
    requires { are_too_many (record { first = first; last = last; step = pos 1 } ∷ []) ≡ false }
    ensures { IfOk result (λ made.
        (made ≡ values_of (record { first = first; last = last; step = pos 1 }))
        × (length made ≤ 4194304)) }
{
    let mut made = DcList::new(alloc);
    for offset in 0..count(first, last) {
        made.push(first + i64::from(offset))?;
    }
    Ok(made)
}
