//! Character literals.

ghost use Rattle.std.specs.Prelude.{◌≡◌, ◌≤◌, length, IfOk, IfSome};
ghost use Rattle.dc_lexer.specs.Scan.{closes, scan_literal, undoubled};

use crate::found::Scanned;
use dc_text::{DcText, NoMemory};
use dc_tree::Token;
use std::alloc::Global;

/// How many bytes there are up to the quote that closes a literal, with it. Where no further quote
/// follows the last doubled one, the literal ends with the first of these two.
fn closes(quote: u8, bytes: &[u8]) -> Option<usize>
    ensures value { result ≡ closes quote bytes.now }
    ensures within { IfSome result (λ n. (1 ≤ n) × (n ≤ length bytes.now)) }
{
    let mut closed = None;
    let mut passed = 0;
    let mut rest = bytes;
    while let [byte, behind @ ..] = rest {
        if *byte != quote {
            passed += 1;
            rest = behind;
        } else {
            match behind {
                [next, tail @ ..] if *next == quote => {
                    closed = Some(passed + 1);
                    passed += 2;
                    rest = tail;
                }
                _ => return Some(passed + 1),
            }
        }
    }
    closed
}

/// The bytes with one quote for each two.
fn undoubled(alloc: Global, quote: u8, bytes: &[u8]) -> Result<DcText, NoMemory>
    ensures { IfOk result (λ text. text ≡ undoubled quote bytes.now) }
{
    let mut text = DcText::new(alloc);
    let mut rest = bytes;
    while let [byte, behind @ ..] = rest {
        text.push(*byte)?;
        rest = match behind {
            [_, tail @ ..] if *byte == quote => tail,
            _ => behind,
        };
    }
    Ok(text)
}

/// The literal at the front of what stands behind the quote that opens it.
pub(crate) fn scan_literal(
    alloc: Global,
    quote: u8,
    bytes: &[u8],
) -> Result<Option<Scanned>, NoMemory>
    ensures { IfOk result (λ found. found ≡ scan_literal quote bytes.now) }
{
    let Some(count) = closes(quote, bytes) else {
        return Ok(None);
    };
    let text = undoubled(alloc, quote, &bytes[..count - 1])?;
    Ok(Some(Scanned {
        length: count + 1,
        lexeme: Token::Chars(text),
    }))
}
