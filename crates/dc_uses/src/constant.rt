//! Constant expressions, and the kinds that they name.

ghost use Rattle.std.specs.Prelude.{◌≡◌, ◌+◌, ◌-◌, ◌*◌, ◌≤◌, min, pos, option_and_then};
ghost use Rattle.dc_tree.specs.Findings.{least_with_all};
ghost use Rattle.dc_tree.specs.Literals.{number_of};
ghost use Rattle.dc_tree.specs.Syntax.{name};
ghost use Rattle.dc_sorts.specs.Standing.{standing_of};
ghost use Rattle.dc_uses.specs.Constants.{constant_known, whole_value, whole_constant, is_kind, kind_value_findings, kind_findings};

use dc_sorts::{Form, Known, Standing, known_name};
use dc_tree::LeastFinding;

/// The value of a constant expression with its form. A truth is 1 or 0.
#[derive(Clone, Copy, Debug, PartialEq, Eq)]
pub struct Constant {
    pub form: Form,
    pub value: i64,
}

pub(crate) fn constant_known(known: Known) -> Option<Constant>
    ensures { result ≡ constant_known known }
{
    if known.constant {
        let value = known.value?;
        Some(Constant {
            form: known.form,
            value,
        })
    } else {
        None
    }
}

pub(crate) fn whole_value(constant: Option<Constant>) -> Option<i64>
    ensures { result ≡ option_and_then whole_value constant }
{
    let Some(Constant { form, value }) = constant else {
        return None;
    };
    match form {
        Form::Whole(_) => Some(value),
        Form::Logical => None,
    }
}

/// The value of a named constant of type INTEGER.
fn whole_named(standing: &Standing, text: &[u8]) -> Option<i64>
    ensures { result ≡ whole_constant (standing_of standing.now) (name text.now) }
{
    whole_value(constant_known(known_name(standing, text)))
}

/// Whether there is a kind of this number.
pub fn is_kind(value: i64) -> bool
    ensures { result ≡ is_kind value }
{
    value == 1 || value == 2 || value == 4 || value == 8
}

pub(crate) fn note_kind_value(line: u32, value: Option<i64>, found: &mut LeastFinding)
    ensures { found.new ≡ least_with_all found.old (kind_value_findings line value) }
{
    match value {
        Some(value) => found.note_if(!is_kind(value), 22, line),
        None => found.note(23, line),
    }
}

/// Notes what a name breaks as the kind of something.
pub(crate) fn note_kind_named(standing: &Standing, line: u32, text: &[u8], found: &mut LeastFinding)
    ensures { found.new
        ≡ least_with_all found.old (kind_findings (standing_of standing.now) line (name text.now)) }
{
    note_kind_value(line, whole_named(standing, text), found);
}

/// The least number that is greater than each kind.
const PAST_KINDS: u32 = 9;

/// The number with one digit more, or `PAST_KINDS` where it is greater.
fn with_digit(number: u32, digit: u8) -> u32
    requires { number ≤ 9 }
    ensures kept { result ≡ min (number * 10 + (digit - 48)) 9 }
    ensures low { result ≤ 9 }
{
    (number * 10 + u32::from(digit.saturating_sub(b'0'))).min(PAST_KINDS)
}

/// Whether digits write the number of a kind. However many there are, no more is kept of their
/// number than that it is past all kinds.
pub(crate) fn write_kind(digits: &[u8]) -> bool
    ensures { result ≡ is_kind (pos (number_of digits.now)) }
{
    let mut number = 0;
    for digit in digits {
        number = with_digit(number, *digit);
    }
    is_kind(i64::from(number))
}
