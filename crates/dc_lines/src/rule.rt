//! The rules of the source form, as far as one line breaks them.

ghost use Rattle.std.specs.Prelude.{◌≡◌};
ghost use Rattle.dc_lines.specs.Rules.{is_long, is_allowed, has_foreign_from, has_foreign, has_open_literal, is_lone, number_of};
ghost use Rattle.std.specs.List.{list_all};
ghost use Rattle.dc_lines.specs.Line.{is_blank};

use crate::line::{
    Context, Joint, behind, behind_first, context_behind, context_of, is_blank, is_continued,
    is_outside, without_comment,
};

/// The longest line.
const MOST_BYTES: usize = 10_000;

/// What a source may break, from the least rule to the greatest.
#[derive(Clone, Copy)]
pub(crate) enum Rule {
    LongLine,
    LongStatement,
    ForeignByte,
    OpenLiteral,
    Unfinished,
    LoneAmpersand,
}

/// The number that a refusal names.
pub(crate) fn number_of(rule: Rule) -> u8
    ensures { result ≡ number_of rule }
{
    match rule {
        Rule::LongLine => 2,
        Rule::LongStatement => 3,
        Rule::ForeignByte => 4,
        Rule::OpenLiteral => 5,
        Rule::Unfinished => 6,
        Rule::LoneAmpersand => 7,
    }
}

pub(crate) fn is_long(line: &[u8]) -> bool
    ensures { result ≡ is_long line.now }
{
    line.len() > MOST_BYTES
}

fn is_allowed(byte: u8) -> bool
    ensures { result ≡ is_allowed byte }
{
    byte == b'\t' || (b' ' <= byte && byte <= b'~')
}

fn has_foreign_from(mut context: Context, line: &[u8]) -> bool
    ensures { result ≡ has_foreign_from context line.now }
{
    for byte in line {
        if is_outside(context) && !is_allowed(*byte) {
            return true;
        }
        context = behind(context, *byte);
    }
    false
}

pub(crate) fn has_foreign(joint: Joint, line: &[u8]) -> bool
    ensures { result ≡ has_foreign joint line.now }
{
    has_foreign_from(context_of(joint), without_comment(joint, line))
}

pub(crate) fn has_open_literal(joint: Joint, line: &[u8]) -> bool
    ensures { result ≡ has_open_literal joint line.now }
{
    (!is_outside(context_behind(joint, line)) && !is_continued(joint, line))
        || (!is_outside(context_of(joint)) && behind_first(line).is_none())
}

fn is_all_blank(line: &[u8]) -> bool
    ensures { result ≡ list_all is_blank line.now }
{
    line.iter().all(|c| is_blank(*c))
}

/// Whether `&` is the only character that isn't blank.
pub(crate) fn is_lone(joint: Joint, line: &[u8]) -> bool
    ensures { result ≡ is_lone joint line.now }
{
    match behind_first(without_comment(joint, line)) {
        Some(rest) => is_all_blank(rest),
        None => false,
    }
}
