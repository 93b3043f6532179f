//! Numbers that are counted no further than the comparisons need.

ghost use Rattle.std.specs.Prelude.{◌≡◌, ◌≤◌, ◌+◌, ◌*◌, ◌-◌};
ghost use Rattle.dc_int.specs.Store.{extent};
ghost use Rattle.dc_tree.specs.Literals.{number_of};
ghost use Rattle.dc_form.specs.Capped.{capped, size_of};

/// Numbers from here on are not told apart.
const CAP: u128 = 1 << 63;

pub(crate) fn capped(number: u128) -> u64
    ensures equal { result ≡ capped number }
    ensures bound { result ≤ 9223372036854775808 }
{
    number.min(CAP) as u64
}

/// One more digit behind a number that is capped.
fn with_digit(number: u64, digit: u8) -> u64
    ensures { result ≡ capped (number * 10 + (digit - 48)) }
{
    capped(u128::from(number) * 10 + u128::from(digit.saturating_sub(b'0')))
}

/// The number that digits write.
#[tactic(auto, using(crate::proofs::Capped::capped_digits))]
pub(crate) fn number_of(digits: &[u8]) -> u64
    ensures { result ≡ capped (number_of digits.now) }
{
    let mut number: u64 = 0;
    for digit in digits {
        number = with_digit(number, *digit);
    }
    number
}

/// How many subscripts a dimension has.
fn extent(dimension: &(i64, i64)) -> u64
    ensures equal { result ≡ capped (extent dimension.now) }
    ensures bound { result ≤ 9223372036854775808 }
{
    let (low, high) = *dimension;
    if high < low {
        return 0;
    }
    capped(u128::from(high.abs_diff(low)) + 1)
}

fn product(left: u64, right: u64) -> u64
    ensures equal { result ≡ capped (left * right) }
    ensures bound { result ≤ 9223372036854775808 }
{
    capped(u128::from(left) * u128::from(right))
}

/// How many elements there are within bounds.
pub(crate) fn size_of(bounds: &[(i64, i64)]) -> u64
    ensures equal { result ≡ size_of bounds.now }
    ensures bound { result ≤ 9223372036854775808 }
{
    let mut size: u64 = 1;
    for dimension in bounds {
        size = product(size, extent(dimension));
    }
    size
}
