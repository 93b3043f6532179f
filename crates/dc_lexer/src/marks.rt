//! Marks, relations, logical operators and truths.

ghost use Rattle.std.specs.Prelude.{◌≡◌, map};
ghost use Rattle.dc_lexer.specs.Scan.{begins, first_mark, scan_mark};

use crate::found::Scanned;
use dc_tree::{Mark, Token};

/// In small letters, and the longer ones first.
const SPELLINGS: [(&[u8], Mark); 32] = [
    (b".false.", Mark::False),
    (b".neqv.", Mark::Neqv),
    (b".true.", Mark::True),
    (b".not.", Mark::Not),
    (b".and.", Mark::And),
    (b".eqv.", Mark::Eqv),
    (b".or.", Mark::Or),
    (b".eq.", Mark::Eq),
    (b".ne.", Mark::Ne),
    (b".lt.", Mark::Lt),
    (b".le.", Mark::Le),
    (b".gt.", Mark::Gt),
    (b".ge.", Mark::Ge),
    (b"::", Mark::Colons),
    (b"**", Mark::Power),
    (b"==", Mark::Eq),
    (b"/=", Mark::Ne),
    (b"<=", Mark::Le),
    (b">=", Mark::Ge),
    (b"<", Mark::Lt),
    (b">", Mark::Gt),
    (b"(", Mark::Open),
    (b")", Mark::Close),
    (b"[", Mark::OpenList),
    (b"]", Mark::CloseList),
    (b",", Mark::Comma),
    (b":", Mark::Colon),
    (b"=", Mark::Equals),
    (b"+", Mark::Plus),
    (b"-", Mark::Minus),
    (b"*", Mark::Times),
    (b"/", Mark::Slash),
];

/// Whether a text begins with a spelling, whatever the case of its letters.
fn begins(mut spelling: &[u8], mut bytes: &[u8]) -> bool
    ensures { result ≡ begins spelling.entry.now bytes.entry.now }
{
    while let [letter, letters @ ..] = spelling {
        let [byte, rest @ ..] = bytes else {
            return false;
        };
        if byte.to_ascii_lowercase() != *letter {
            return false;
        }
        spelling = letters;
        bytes = rest;
    }
    true
}

fn first_mark(mut table: &[(&[u8], Mark)], bytes: &[u8]) -> Option<Scanned>
    ensures { let entries = map (λ e. record { bytes = e.0.now; mark = e.1 }) table.entry.now in
        result ≡ first_mark entries bytes.now }
{
    while let [entry, rest @ ..] = table {
        if begins(entry.0, bytes) {
            return Some(Scanned {
                length: entry.0.len(),
                lexeme: Token::Mark(entry.1),
            });
        }
        table = rest;
    }
    None
}

#[tactic(auto, unfolding(crate::specs::Scan::scan_mark))]
pub(crate) fn scan_mark(bytes: &[u8]) -> Option<Scanned>
    ensures { result ≡ scan_mark bytes.now }
{
    first_mark(&SPELLINGS, bytes)
}
