//! The lexeme at the front of a text.

ghost use Rattle.std.specs.Prelude.{◌≡◌, IfOk};
ghost use Rattle.dc_lexer.specs.Scan.{scan, scan_word, Finds};

use crate::bytes::{is_digit, is_letter, is_quote, small, word_length};
use crate::found::Scanned;
use crate::literals::scan_literal;
use crate::marks::scan_mark;
use crate::numbers::scan_number;
use dc_text::NoMemory;
use dc_tree::Token;
use std::alloc::Global;

fn scan_word(alloc: Global, bytes: &[u8]) -> Result<Scanned, NoMemory>
    ensures { IfOk result (λ found. found ≡ scan_word bytes.now) }
{
    let length = word_length(bytes);
    let word = small(alloc, &bytes[..length])?;
    Ok(Scanned {
        length,
        lexeme: Token::Word(word),
    })
}

fn scan(alloc: Global, bytes: &[u8]) -> Result<Option<Scanned>, NoMemory>
    ensures { IfOk result (λ found. found ≡ scan bytes.now) }
{
    let [first, rest @ ..] = bytes else {
        return Ok(None);
    };
    if is_letter(*first) {
        return Ok(Some(scan_word(alloc, bytes)?));
    }
    if is_digit(*first) {
        return Ok(Some(scan_number(alloc, bytes)?));
    }
    if is_quote(*first) {
        return scan_literal(alloc, *first, rest);
    }
    Ok(scan_mark(bytes))
}

/// The longest lexeme at the front of a text, if one begins there.
pub(crate) fn lexeme(alloc: Global, bytes: &[u8]) -> Result<Option<Scanned>, NoMemory>
    ensures { IfOk result (λ found. Finds bytes.now found) }
{
    scan(alloc, bytes)
}
