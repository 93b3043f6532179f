//! The values of a range.

ghost use Rattle.std.specs.Prelude.{◌≡◌};
ghost use Rattle.dc_scope.specs.Cases as cases;

use dc_int::Kind;
use dc_sorts::Form;
use dc_uses::Constant;

/// The values of one range, which are LOGICAL or INTEGER. It is empty where `low` is above `high`.
#[derive(Clone, Copy, Debug, PartialEq, Eq)]
pub(crate) struct Interval {
    pub logical: bool,
    pub low: i64,
    pub high: i64,
}

fn is_logical(constant: Constant) -> bool
    ensures { result ≡ cases.is_logical constant }
{
    matches!(constant.form, Form::Logical)
}

pub(crate) fn is_logical_value(value: Option<Constant>) -> bool
    ensures { result ≡ cases.is_logical_value value }
{
    match value {
        Some(constant) => is_logical(constant),
        None => false,
    }
}

/// One value.
pub(crate) fn single(value: Option<Constant>) -> Option<Interval>
    ensures { result ≡ cases.single value }
{
    let constant = value?;
    Some(Interval {
        logical: is_logical(constant),
        low: constant.value,
        high: constant.value,
    })
}

/// A value and all above it.
pub(crate) fn upward(low: Option<Constant>) -> Option<Interval>
    ensures { result ≡ cases.upward low }
{
    let constant = low?;
    Some(Interval {
        logical: is_logical(constant),
        low: constant.value,
        high: Kind::K8.greatest(),
    })
}

/// A value and all below it.
pub(crate) fn downward(high: Option<Constant>) -> Option<Interval>
    ensures { result ≡ cases.downward high }
{
    let constant = high?;
    Some(Interval {
        logical: is_logical(constant),
        low: Kind::K8.least(),
        high: constant.value,
    })
}

/// The values between two, and these.
pub(crate) fn spanned(low: Option<Constant>, high: Option<Constant>) -> Option<Interval>
    ensures { result ≡ cases.spanned low high }
{
    let first = low?;
    let last = high?;
    Some(Interval {
        logical: is_logical(first),
        low: first.value,
        high: last.value,
    })
}
