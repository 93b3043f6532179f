//! The operations on numbers, exact: numbers of every kind fit 64 bits, and what these make of them 128. A
//! power alone is wrapped to 64 bits at once.
ghost use Rattle.std.specs.Prelude.{◌≡◌, pos, ◌-ℤ◌, int_div, int_rem};
ghost use Rattle.std.specs.Int.{int_max};
ghost use Rattle.dc_int.specs.declared.kind.Kind.{Kind};
ghost use Rattle.dc_int.specs.Kinds.{wrapped};
ghost use Rattle.dc_int.specs.Operations.{by_divisor, modulo, power, raised, with_sign, wrapped_outcome};

use crate::operation::OpFault;

pub(crate) fn quotient(a: i64, b: i64) -> Result<i128, OpFault>
    ensures { result ≡ by_divisor b (int_div a b) }
{
    if b == 0 {
        return Err(OpFault::Zero);
    }
    Ok(i128::from(a) / i128::from(b))
}

pub(crate) fn remainder(a: i64, b: i64) -> Result<i128, OpFault>
    ensures { result ≡ by_divisor b (int_rem a b) }
{
    if b == 0 {
        return Err(OpFault::Zero);
    }
    Ok(i128::from(a) % i128::from(b))
}

pub(crate) fn modulo(a: i64, b: i64) -> Result<i128, OpFault>
    ensures { result ≡ by_divisor b (modulo a b) }
{
    if b == 0 {
        return Err(OpFault::Zero);
    }
    let (a, b) = (i128::from(a), i128::from(b));
    if b < 0 {
        Ok(-(-a).rem_euclid(-b))
    } else {
        Ok(a.rem_euclid(b))
    }
}

/// The power, by squaring.
fn power(base: i64, exponent: u64) -> i64
    ensures { result ≡ wrapped Kind.K8 (power base exponent) }
{
    if exponent == 0 {
        return 1;
    }
    let rest = power(base.wrapping_mul(base), exponent / 2);
    if exponent % 2 == 1 {
        rest.wrapping_mul(base)
    } else {
        rest
    }
}

/// A number that wraps to the power at every kind.
pub(crate) fn raised(a: i64, b: i64) -> Result<i128, OpFault>
    ensures { (kind : Kind) → wrapped_outcome kind result ≡ wrapped_outcome kind (raised a b) }
{
    if b >= 0 {
        return Ok(i128::from(power(a, b.unsigned_abs())));
    }
    match a {
        0 => Err(OpFault::Zero),
        1 => Ok(1),
        -1 => Ok(if b % 2 == 0 { 1 } else { -1 }),
        _ => Ok(0),
    }
}

pub(crate) fn with_sign(a: i64, b: i64) -> i128
    ensures { result ≡ with_sign a b }
{
    let magnitude = i128::from(a.unsigned_abs());
    if b < 0 { -magnitude } else { magnitude }
}

pub(crate) fn positive_difference(a: i64, b: i64) -> i128
    ensures { result ≡ int_max (a -ℤ b) (pos 0) }
{
    (i128::from(a) - i128::from(b)).max(0)
}
