//! The bytes of lexemes.

ghost use Rattle.std.specs.Prelude.{◌≡◌, ◌≤◌, length, drop, IfOk};
ghost use Rattle.dc_lexer.specs.Bytes.{is_letter, is_digit, is_word_byte, is_quote, small, span, past_blanks};

use dc_text::{DcText, NoMemory};
use std::alloc::Global;

#[tactic(auto, unfolding(crate::specs::Bytes::is_letter))]
pub(crate) fn is_letter(byte: u8) -> bool
    ensures { result ≡ is_letter byte }
{
    byte.is_ascii_alphabetic()
}

#[tactic(auto, unfolding(crate::specs::Bytes::is_digit))]
pub(crate) fn is_digit(byte: u8) -> bool
    ensures { result ≡ is_digit byte }
{
    byte.is_ascii_digit()
}

#[tactic(auto, unfolding(crate::specs::Bytes::is_word_byte))]
pub(crate) fn is_word_byte(byte: u8) -> bool
    ensures { result ≡ is_word_byte byte }
{
    is_letter(byte) || is_digit(byte) || byte == b'_'
}

#[tactic(auto, unfolding(crate::specs::Bytes::is_quote))]
pub(crate) fn is_quote(byte: u8) -> bool
    ensures { result ≡ is_quote byte }
{
    byte == b'\'' || byte == b'"'
}

/// How many bytes at the front are of a word.
pub(crate) fn word_length(bytes: &[u8]) -> usize
    ensures value { result ≡ span is_word_byte bytes.now }
    ensures within { result ≤ length bytes.now }
{
    let mut count = 0;
    for byte in bytes {
        if !is_word_byte(*byte) {
            break;
        }
        count += 1;
    }
    count
}

/// How many bytes at the front are digits.
pub(crate) fn digits_length(bytes: &[u8]) -> usize
    ensures value { result ≡ span is_digit bytes.now }
    ensures within { result ≤ length bytes.now }
{
    let mut count = 0;
    for byte in bytes {
        if !is_digit(*byte) {
            break;
        }
        count += 1;
    }
    count
}

pub(crate) fn past_blanks(bytes: &[u8]) -> &[u8]
    ensures { result.now ≡ past_blanks bytes.now }
{
    let mut rest = bytes;
    while let [b' ', tail @ ..] = rest {
        rest = tail;
    }
    rest
}

/// The bytes from a place on.
pub(crate) fn from(bytes: &[u8], at: usize) -> &[u8]
    requires { at ≤ length bytes.now }
    ensures { result.now ≡ drop at bytes.now }
{
    &bytes[at..]
}

/// The bytes with capitals made small.
pub(crate) fn small(alloc: Global, bytes: &[u8]) -> Result<DcText, NoMemory>
    ensures { IfOk result (λ text. text ≡ small bytes.now) }
{
    let mut text = DcText::new(alloc);
    for byte in bytes {
        text.push(byte.to_ascii_lowercase())?;
    }
    Ok(text)
}
