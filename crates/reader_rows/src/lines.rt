//! Texts and their statements.

use dc_lines::split;
use dc_text::{DcText, NoMemory};
use dc_tree::{Fail, Refusal};
use std::alloc::Global;
use std::test;

const MOST_BYTES: usize = 1_048_576;

/// The rule and the line by which a text is refused.
fn refusal(alloc: Global, text: &[u8]) -> Option<(u8, u32)> {
    if text.len() > MOST_BYTES {
        return None;
    }
    match split(alloc, text) {
        Err(Fail::Refused(Refusal { rule, line })) => Some((rule, line)),
        _ => None,
    }
}

/// Whether a text has one statement, of this length and on this line.
fn has_one(alloc: Global, text: &[u8], line: u32, bytes: usize) -> bool {
    if text.len() > MOST_BYTES {
        return false;
    }
    let Ok(statements) = split(alloc, text) else {
        return false;
    };
    match statements.as_slice() {
        [only] => only.line == line && only.text.len() == bytes,
        _ => false,
    }
}

const PROGRAM: &[u8] = b"program p ! a name\r
  integer :: a(4), &\r
! and more
     & i
\ta = 1; print *, 'it''s; !&
\t&\ta' ; ; i = &
2

end program p";

#[test]
fn statements_have_their_lines(rt: HostRuntime) -> Result<(), test::Fail> {
    let statements = split(rt.alloc(), PROGRAM)?;
    let expected: [(u32, &[u8]); 6] = [
        (1, b"program p "),
        (2, b"  integer :: a(4),  i"),
        (5, b" a = 1"),
        (5, b" print *, 'it''s; !\ta' "),
        (6, b" i =  2"),
        (9, b"end program p"),
    ];
    assert_eq!(rt; statements.len(), expected.len());
    for (statement, (line, text)) in statements.as_slice().iter().zip(expected.iter()) {
        assert_eq!(rt; statement.line, *line);
        assert_eq!(rt; statement.text.as_bytes(), *text);
    }
    Ok(())
}

#[test]
fn the_first_broken_rule_is_told(rt: HostRuntime) {
    let expected: [(&[u8], u8, u32); 9] = [
        (b"a = 1\nb = \x7f\nc = 'd", 4, 2),
        (b"a = 1\nb = 'c\nd = \x7f", 5, 2),
        (b"a = 'b&\n\n! c\nd' \x07", 4, 4),
        (b"a = 'b&\n\n! c\nd'", 5, 4),
        (b"a = 'b&\n\n! c\n", 6, 3),
        (b"a = &\n & ! b\n! c", 7, 2),
        (b"a = &\n &", 6, 2),
        (b"a = 'b&\n & \n & c'", 7, 2),
        (b"\r\r\n", 4, 1),
    ];
    for (text, rule, line) in expected.iter() {
        assert_eq!(rt; refusal(rt.alloc(), text), Some((*rule, *line)));
    }
}

/// A statement of so many bytes, with 8,000 on each line.
fn long_statement(alloc: Global, bytes: usize) -> Result<DcText, NoMemory> {
    let mut text = DcText::new(alloc);
    for at in 0..bytes {
        if at > 0 && at % 8_000 == 0 {
            text.append(b"&\n&")?;
        }
        text.push(b'a')?;
    }
    Ok(text)
}

#[test]
fn lengths_have_limits(rt: HostRuntime) -> Result<(), test::Fail> {
    let longest = long_statement(rt.alloc(), 1_000_000)?;
    assert!(rt; has_one(rt.alloc(), longest.as_bytes(), 1, 1_000_000));
    let longer = long_statement(rt.alloc(), 1_000_001)?;
    assert_eq!(rt; refusal(rt.alloc(), longer.as_bytes()), Some((3, 126)));
    let mut comment = DcText::from_bytes(rt.alloc(), b"a = 1\n!")?;
    for _ in 1..10_000 {
        comment.push(b'-')?;
    }
    assert!(rt; has_one(rt.alloc(), comment.as_bytes(), 1, 5));
    comment.push(b'-')?;
    assert_eq!(rt; refusal(rt.alloc(), comment.as_bytes()), Some((2, 2)));
    Ok(())
}
