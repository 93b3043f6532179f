//! The operations on bits, exact, by the patterns of their operands: the numbers that the bits write without
//! a sign.
ghost use Rattle.std.specs.Prelude.{◌≡◌, ◌-◌, ◌^◌, ◌<◌, ◌≤◌, IfOk};
ghost use Rattle.dc_int.specs.Kinds.{bits_of};
ghost use Rattle.dc_int.specs.Operations.{pattern, bits_and, bits_or, bits_xor, bits_not, count_of_ones};
ghost use Rattle.dc_int.specs.Operations.{places, position, left_by, right_by, right_signed_by, shifted};
ghost use Rattle.dc_int.specs.Operations.{at_place, bit_set, bit_cleared};

use crate::kind::Kind;
use crate::operation::OpFault;

fn pattern(kind: Kind, a: i64) -> u64
    ensures { result ≡ pattern kind a }
{
    if a < 0 {
        all_ones(kind).saturating_sub(a.unsigned_abs() - 1)
    } else {
        a.unsigned_abs()
    }
}

/// The pattern whose bits are all one.
fn all_ones(kind: Kind) -> u64
    ensures { result ≡ 2 ^ bits_of kind - 1 }
{
    match kind {
        Kind::K1 => u64::from(u8::MAX),
        Kind::K2 => u64::from(u16::MAX),
        Kind::K4 => u64::from(u32::MAX),
        Kind::K8 => u64::MAX,
    }
}

pub(crate) fn bits_and(kind: Kind, a: i64, b: i64) -> i128
    ensures { result ≡ bits_and kind a b }
{
    i128::from(pattern(kind, a) & pattern(kind, b))
}

pub(crate) fn bits_or(kind: Kind, a: i64, b: i64) -> i128
    ensures { result ≡ bits_or kind a b }
{
    i128::from(pattern(kind, a) | pattern(kind, b))
}

pub(crate) fn bits_xor(kind: Kind, a: i64, b: i64) -> i128
    ensures { result ≡ bits_xor kind a b }
{
    i128::from(pattern(kind, a) ^ pattern(kind, b))
}

pub(crate) fn bits_not(kind: Kind, a: i64) -> i128
    ensures { result ≡ bits_not kind a }
{
    i128::from(all_ones(kind).saturating_sub(pattern(kind, a)))
}

pub(crate) fn count_of_ones(kind: Kind, a: i64) -> i128
    ensures { result ≡ count_of_ones kind a }
{
    let lowest = pattern(kind, a) & all_ones(kind);
    i128::from(lowest.count_ones())
}

fn places(kind: Kind, b: i128) -> Result<u32, OpFault>
    ensures value { result ≡ places kind b }
    ensures few { IfOk result (λ n. n ≤ 64) }
{
    if b < 0 || b > i128::from(kind.bits()) {
        return Err(OpFault::Shift);
    }
    Ok(b as u32)
}

fn position(kind: Kind, b: i64) -> Result<u32, OpFault>
    ensures value { result ≡ position kind b }
    ensures few { IfOk result (λ n. n < bits_of kind) }
{
    if b < 0 || b >= i64::from(kind.bits()) {
        return Err(OpFault::Shift);
    }
    Ok(b as u32)
}

fn left_by(a: i64, places: u32) -> i128
    requires { places ≤ 64 }
    ensures { result ≡ left_by a places }
{
    let factor: i128 = 1 << places;
    i128::from(a) * factor
}

fn right_by(kind: Kind, a: i64, places: u32) -> i128
    requires { places ≤ 64 }
    ensures { result ≡ right_by kind a places }
{
    i128::from(pattern(kind, a)) >> places
}

/// To the left, or to the right with zeros by a negative number of places.
pub(crate) fn shifted(kind: Kind, a: i64, b: i64) -> Result<i128, OpFault>
    ensures { result ≡ shifted kind a b }
{
    let by = i128::from(b);
    if by < 0 {
        Ok(right_by(kind, a, places(kind, -by)?))
    } else {
        Ok(left_by(a, places(kind, by)?))
    }
}

pub(crate) fn shifted_left(kind: Kind, a: i64, b: i64) -> Result<i128, OpFault>
    ensures { result ≡ at_place (left_by a) (places kind b) }
{
    Ok(left_by(a, places(kind, i128::from(b))?))
}

/// To the right, with zeros.
pub(crate) fn shifted_right(kind: Kind, a: i64, b: i64) -> Result<i128, OpFault>
    ensures { result ≡ at_place (right_by kind a) (places kind b) }
{
    Ok(right_by(kind, a, places(kind, i128::from(b))?))
}

/// To the right, with the bit of the sign.
pub(crate) fn shifted_right_signed(kind: Kind, a: i64, b: i64) -> Result<i128, OpFault>
    ensures { result ≡ at_place (right_signed_by a) (places kind b) }
{
    let places = places(kind, i128::from(b))?;
    Ok(i128::from(a) >> places)
}

pub(crate) fn with_bit_set(kind: Kind, a: i64, b: i64) -> Result<i128, OpFault>
    ensures { result ≡ at_place (bit_set kind a) (position kind b) }
{
    let bit: u64 = 1 << position(kind, b)?;
    Ok(i128::from(pattern(kind, a) | bit))
}

pub(crate) fn with_bit_cleared(kind: Kind, a: i64, b: i64) -> Result<i128, OpFault>
    ensures { result ≡ at_place (bit_cleared kind a) (position kind b) }
{
    let bit: u64 = 1 << position(kind, b)?;
    Ok(i128::from(pattern(kind, a) & (all_ones(kind) - bit)))
}
