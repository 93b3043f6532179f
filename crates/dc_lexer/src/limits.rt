//! How long a word and how large a number may be.

ghost use Rattle.std.specs.Prelude.{◌≡◌, ◌<◌, length, nat_lt};
ghost use Rattle.dc_tree.specs.Literals.{number_of};
ghost use Rattle.dc_lexer.specs.Tokens.{is_large, is_long};

use dc_text::DcText;
use dc_tree::{Suffix, Token};

const MOST_CHARACTERS: usize = 63;

/// The greatest number of the widest kind.
const GREATEST: u128 = 9_223_372_036_854_775_807;

fn is_long_word(word: &DcText) -> bool
    ensures { result ≡ nat_lt 63 (length word.now) }
{
    word.len() > MOST_CHARACTERS
}

/// Whether a lexeme has a word that is too long: itself, or as the kind of a number.
pub(crate) fn is_long(lexeme: &Token) -> bool
    ensures { result ≡ is_long lexeme.now }
{
    match lexeme {
        Token::Word(word) => is_long_word(word),
        Token::Number { digits: _, suffix } => match suffix {
            Suffix::Absent => false,
            Suffix::Digits(_) => false,
            Suffix::Named(word) => is_long_word(word),
        },
        Token::Chars(_) => false,
        Token::Mark(_) => false,
    }
}

fn is_large_number(digits: &[u8]) -> bool
    ensures { result ≡ nat_lt 9223372036854775807 (number_of digits.now) }
{
    let mut number: u128 = 0;
    for digit in digits {
        number = number * 10 + u128::from(digit.saturating_sub(b'0'));
        if number > GREATEST {
            return true;
        }
    }
    false
}

/// Whether a lexeme is a number that is too large.
pub(crate) fn is_large(lexeme: &Token) -> bool
    ensures { result ≡ is_large lexeme.now }
{
    match lexeme {
        Token::Word(_) => false,
        Token::Number { digits, suffix: _ } => is_large_number(digits.as_bytes()),
        Token::Chars(_) => false,
        Token::Mark(_) => false,
    }
}
