//! Numbers, and the kinds behind them.

ghost use Rattle.std.specs.Prelude.{◌≡◌, ◌≤◌, ◌+◌, length, IfOk};
ghost use Rattle.dc_lexer.specs.Scan.{scan_kind, scan_number, scan_suffix};

use crate::bytes::{digits_length, from, is_digit, is_letter, small, word_length};
use crate::found::{Scanned, Suffixed};
use dc_text::{DcText, NoMemory};
use dc_tree::{Suffix, Token};
use std::alloc::Global;

fn no_suffix() -> Suffixed
    ensures { result ≡ record { length = 0; suffix = Suffix.Absent } }
{
    Suffixed {
        length: 0,
        suffix: Suffix::Absent,
    }
}

fn scan_kind(alloc: Global, bytes: &[u8]) -> Result<Suffixed, NoMemory>
    ensures value { IfOk result (λ found. found ≡ scan_kind bytes.now) }
    ensures within { IfOk result (λ found. found.length ≤ length bytes.now + 1) }
{
    let [first, ..] = bytes else {
        return Ok(no_suffix());
    };
    if is_letter(*first) {
        let count = word_length(bytes);
        let suffix = Suffix::Named(small(alloc, &bytes[..count])?);
        return Ok(Suffixed {
            length: count + 1,
            suffix,
        });
    }
    if is_digit(*first) {
        let count = digits_length(bytes);
        let suffix = Suffix::Digits(DcText::from_bytes(alloc, &bytes[..count])?);
        return Ok(Suffixed {
            length: count + 1,
            suffix,
        });
    }
    Ok(no_suffix())
}

fn scan_suffix(alloc: Global, bytes: &[u8]) -> Result<Suffixed, NoMemory>
    ensures value { IfOk result (λ found. found ≡ scan_suffix bytes.now) }
    ensures within { IfOk result (λ found. found.length ≤ length bytes.now) }
{
    match bytes {
        [b'_', kind @ ..] => scan_kind(alloc, kind),
        _ => Ok(no_suffix()),
    }
}

pub(crate) fn scan_number(alloc: Global, bytes: &[u8]) -> Result<Scanned, NoMemory>
    ensures { IfOk result (λ found. found ≡ scan_number bytes.now) }
{
    let count = digits_length(bytes);
    let digits = DcText::from_bytes(alloc, &bytes[..count])?;
    let Suffixed { length, suffix } = scan_suffix(alloc, from(bytes, count))?;
    Ok(Scanned {
        length: count + length,
        lexeme: Token::Number { digits, suffix },
    })
}
