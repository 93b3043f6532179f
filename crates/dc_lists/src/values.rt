//! The values of texts.

ghost use Rattle.std.specs.Prelude.{◌≡◌};
ghost use Rattle.dc_int.specs.declared.kind.Kind.{Kind};
ghost use Rattle.dc_int.specs.Sorts.{whole, logical};
ghost use Rattle.dc_lists.specs.Input.{signed_in, of_kind, past_period, truth_from, value_of};

use dc_int::{FaultKind, Kind};
use std::str;

/// A number of the widest kind.
fn widest_in(text: &[u8]) -> Result<i64, FaultKind>
    ensures { result ≡ of_kind Kind.K8 (signed_in text.now) }
{
    let Ok(text) = str::from_utf8(text) else {
        return Err(FaultKind::BadInput);
    };
    match text.parse() {
        Ok(number) => Ok(number),
        Err(_) => Err(FaultKind::BadInput),
    }
}

pub(crate) fn number_in(text: &[u8], kind: Kind) -> Result<i64, FaultKind>
    ensures { result ≡ value_of (whole kind) text.now }
{
    let number = widest_in(text)?;
    if kind.contains(number) {
        Ok(number)
    } else {
        Err(FaultKind::BadInput)
    }
}

fn past_period(text: &[u8]) -> &[u8]
    ensures { result.now ≡ past_period text.now }
{
    match text {
        [b'.', behind @ ..] => behind,
        _ => text,
    }
}

pub(crate) fn truth_in(text: &[u8]) -> Result<i64, FaultKind>
    ensures { result ≡ value_of logical text.now }
{
    match past_period(text) {
        [b'T' | b't', ..] => Ok(1),
        [b'F' | b'f', ..] => Ok(0),
        _ => Err(FaultKind::BadInput),
    }
}
