//! What PRINT and WRITE put at the end of a line.

ghost use Rattle.std.specs.Prelude.{◌≡◌, ◌++◌, OnOk, OnErr};
ghost use Rattle.std.specs.Fmt.{signed_decimal};
ghost use Rattle.dc_int.specs.declared.kind.Kind.{Kind};
ghost use Rattle.dc_int.specs.Sorts.{logical, sort_with};
ghost use Rattle.dc_lists.specs.Output.{written, behind_blank};

use dc_text::{DcText, NoMemory};
use itoa::Buffer;
use std::alloc::Global;

/// Room for a blank and for a number, of which itoa makes at most 40 bytes.
const ROOM: usize = 41;

fn put_number(line: &mut DcText, first: bool, number: i64) -> Result<(), NoMemory>
    ensures ok { OnOk result (line.new ≡ line.old ++ behind_blank first (signed_decimal number)) }
    ensures err { OnErr result (line.new ≡ line.old) }
{
    let mut buffer = Buffer::new();
    let digits = buffer.format(number).as_bytes();
    if first {
        return line.append(digits);
    }
    let mut piece = [b' '; ROOM];
    let end = 1 + digits.len();
    piece[1..end].copy_from_slice(digits);
    line.append(&piece[..end])
}

fn put_truth(line: &mut DcText, first: bool, value: i64) -> Result<(), NoMemory>
    ensures ok { OnOk result (line.new ≡ line.old ++ behind_blank first (written logical value)) }
    ensures err { OnErr result (line.new ≡ line.old) }
{
    let letter = if value == 0 { b'F' } else { b'T' };
    if first {
        line.push(letter)
    } else {
        line.append(&[b' ', letter])
    }
}

/// Adds what a value writes. A LOGICAL is false where it is 0.
pub fn put_value(line: &mut DcText, first: bool, logical: bool, value: i64) -> Result<(), NoMemory>
    ensures ok { OnOk result ((kind : Kind)
        → line.new ≡ line.old ++ behind_blank first (written (sort_with logical kind) value)) }
    ensures err { OnErr result (line.new ≡ line.old) }
{
    if logical {
        put_truth(line, first, value)
    } else {
        put_number(line, first, value)
    }
}

/// Adds a text as it is.
pub fn put_text(alloc: Global, line: &mut DcText, first: bool, text: &[u8]) -> Result<(), NoMemory>
    ensures ok { OnOk result (line.new ≡ line.old ++ behind_blank first text.now) }
    ensures err { OnErr result (line.new ≡ line.old) }
{
    if first {
        return line.append(text);
    }
    let mut piece = DcText::from_bytes(alloc, b" ")?;
    piece.append(text)?;
    line.append(piece.as_bytes())
}
