//! What is known of names and numbers.

ghost use Rattle.std.specs.Prelude.{◌≡◌, ◌+◌, ◌*◌, ◌-◌, pos};
ghost use Rattle.dc_tree.specs.Entities.{entity};
ghost use Rattle.dc_tree.specs.Literals as literals;
ghost use Rattle.dc_tree.specs.Syntax.{name, number};
ghost use Rattle.dc_tree.specs.Typing as typing;
ghost use Rattle.dc_sorts.specs.Knowing.{known_of};
ghost use Rattle.dc_sorts.specs.Meanings as meanings;
ghost use Rattle.dc_sorts.specs.Naming as naming;
ghost use Rattle.dc_sorts.specs.Standing.{standing_of, scope_at};

use crate::form::Form;
use crate::known::Known;
use crate::meaning::Meaning;
use crate::standing::Standing;
use dc_int::Kind;
use dc_tree::Suffix;

/// The form of what a name stands for; LOGICAL of what has none.
pub(crate) fn form_of_meaning(meaning: Meaning) -> Form
    ensures { result ≡ meanings.form_of_meaning meaning }
{
    match meaning {
        Meaning::Index(kind) => Form::Whole(kind),
        Meaning::Variable { form, .. }
        | Meaning::Result(form)
        | Meaning::Dummy { form, .. }
        | Meaning::Constant { form, .. }
        | Meaning::Procedure {
            result: Some(form),
            ..
        } => form,
        Meaning::Procedure { result: None, .. } | Meaning::Nothing => Form::Logical,
    }
}

pub(crate) fn constant_of_meaning(meaning: Meaning) -> Option<i64>
    ensures { result ≡ meanings.constant_of_meaning meaning }
{
    match meaning {
        Meaning::Constant { value, .. } => Some(value),
        _ => None,
    }
}

fn name_known(meaning: Meaning) -> Known
    ensures { result ≡ naming.name_known meaning }
{
    let value = constant_of_meaning(meaning);
    Known {
        form: form_of_meaning(meaning),
        constant: value.is_some(),
        value,
    }
}

/// What is known of a name alone.
pub fn known_name(standing: &Standing, text: &[u8]) -> Known
    ensures { result ≡ known_of (scope_at (standing_of standing.now)) (name text.now) }
{
    name_known(standing.meaning(text))
}

/// The value of the constant that a name stands for.
fn constant_named(standing: &Standing, text: &[u8]) -> Option<i64>
    ensures { result
        ≡ typing.constant_of_entity (entity (scope_at (standing_of standing.now)) text.now) }
{
    constant_of_meaning(standing.meaning(text))
}

/// The kind that a number names; 4 of a number that names none.
pub(crate) fn kind_numbered(value: i64) -> Kind
    ensures { result ≡ literals.kind_numbered value }
{
    match value {
        1 => Kind::K1,
        2 => Kind::K2,
        8 => Kind::K8,
        _ => Kind::K4,
    }
}

/// The number that digits write, or the least one over every kind where it is as great as that.
#[tactic(auto, using(crate::proofs::Capping::capped_digits))]
pub fn capped_number(digits: &[u8]) -> u64
    ensures { result ≡ naming.capped (literals.number_of digits.now) }
{
    let mut number: u64 = 0;
    for digit in digits {
        number = with_digit(number, *digit);
    }
    number
}

/// One more digit behind a number that is capped.
fn with_digit(number: u64, digit: u8) -> u64
    ensures { result ≡ naming.capped (number * 10 + (digit - 48)) }
{
    let next = u128::from(number) * 10 + u128::from(digit.saturating_sub(b'0'));
    next.min(1 << 63) as u64
}

/// The kind that digits name, as a suffix of a number.
#[tactic(auto, using(crate::proofs::Capping::capping))]
fn digits_kind(digits: &[u8]) -> Kind
    ensures { result ≡ literals.kind_numbered (pos (literals.number_of digits.now)) }
{
    match capped_number(digits) {
        1 => Kind::K1,
        2 => Kind::K2,
        8 => Kind::K8,
        _ => Kind::K4,
    }
}

fn literal_value(kind: Kind, number: u64) -> Option<i64>
    ensures { result ≡ typing.literal_value kind number }
{
    if number <= kind.greatest() as u64 {
        Some(number as i64)
    } else {
        None
    }
}

/// The value of digits as a number of a kind, where it is in the range of that.
#[tactic(auto, using(crate::proofs::Capping::capping))]
fn literal(kind: Kind, digits: &[u8]) -> Option<i64>
    ensures { result ≡ typing.literal_value kind (literals.number_of digits.now) }
{
    literal_value(kind, capped_number(digits))
}

/// The kind that a suffix names: none where its name is no constant.
fn suffix_kind(standing: &Standing, suffix: &Suffix) -> Option<Kind>
    ensures { result ≡ naming.suffix_kind (scope_at (standing_of standing.now)) suffix.now }
{
    match suffix {
        Suffix::Absent => Some(Kind::K4),
        Suffix::Digits(digits) => Some(digits_kind(digits.as_bytes())),
        Suffix::Named(text) => {
            let value = constant_named(standing, text.as_bytes())?;
            Some(kind_numbered(value))
        }
    }
}

fn number_known(digits: &[u8], kind: Option<Kind>) -> Known
    ensures { result ≡ naming.number_known digits.now kind }
{
    match kind {
        Some(kind) => Known {
            form: Form::Whole(kind),
            constant: true,
            value: literal(kind, digits),
        },
        None => Known {
            form: Form::Whole(Kind::K4),
            constant: false,
            value: None,
        },
    }
}

/// What is known of a number.
#[tactic(auto, using(crate::proofs::Capping::numbers_known))]
pub fn known_number(standing: &Standing, digits: &[u8], suffix: &Suffix) -> Known
    ensures { result
        ≡ known_of (scope_at (standing_of standing.now)) (number digits.now suffix.now) }
{
    number_known(digits, suffix_kind(standing, suffix))
}
