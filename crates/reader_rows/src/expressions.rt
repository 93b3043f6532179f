//! Tokens and their expressions.

use crate::showing::put_expr;
use dc_expr::{Miss, parse_expr, read_expr};
use dc_lexer::tokens;
use dc_text::{DcList, DcText, NoMemory};
use dc_tree::{Fail, Logical, Mark, Refusal, Suffix, Token};
use std::alloc::Global;
use std::test;

/// The expression that a text spells, with brackets round each operation.
fn shown(alloc: Global, text: &[u8]) -> Result<DcText, Fail> {
    let text = DcText::from_bytes(alloc, text)?;
    let list = tokens(alloc, &Logical { line: 7, text })?;
    let expr = parse_expr(alloc, 7, list.as_slice())?;
    let mut out = DcText::new(alloc);
    put_expr(&mut out, &expr)?;
    Ok(out)
}

/// Each mark, and each form of operand.
const READ: [(&[u8], &[u8]); 17] = [
    (b".true.", b"T"),
    (b".false.", b"F"),
    (b"12", b"12"),
    (b"1_8", b"1_#8"),
    (b"1_int8", b"1_int8"),
    (b"a", b"a"),
    (b"f(x, kind = 8)", b"f{x,kind=8,}"),
    (b"(f())", b"(f{})"),
    (b"-2**2", b"[-[2**2]]"),
    (b"2**3**2", b"[2**[3**2]]"),
    (b"a-b+c", b"[[a-b]+c]"),
    (b"+a/b*c", b"[+[[a/b]*c]]"),
    (b"a<b .or. a<=b", b"[[a.lt.b].or.[a.le.b]]"),
    (b"a>b .and. a>=b", b"[[a.gt.b].and.[a.ge.b]]"),
    (b".not. a==b", b"[.not.[a.eq.b]]"),
    (b"a/=b .eqv. c .or. d", b"[[a.ne.b].eqv.[c.or.d]]"),
    (b"a .neqv. b .eqv. c", b"[[a.neqv.b].eqv.c]"),
];

#[test]
fn expressions_are_read(rt: HostRuntime) -> Result<(), test::Fail> {
    for (text, want) in &READ {
        let out = shown(rt.alloc(), text)?;
        assert_eq!(rt; out.as_bytes(), *want);
    }
    Ok(())
}

const REFUSED: [&[u8]; 8] = [
    b"",
    b"a == b == c",
    b"a ** -b",
    b".not. .not. a",
    b"a - end",
    b"f(x,)",
    b"f(kind = kind = 8)",
    b"'a'",
];

#[test]
fn other_tokens_are_refused(rt: HostRuntime) {
    for text in &REFUSED {
        assert!(rt;
            matches!(
                shown(rt.alloc(), text),
                Err(Fail::Refused(Refusal { rule: 11, line: 7 }))
            )
        );
    }
}

/// The number 1 in so many brackets.
fn brackets(alloc: Global, open: usize, close: usize) -> Result<DcList<Token>, NoMemory> {
    let mut list = DcList::new(alloc);
    for _ in 0..open {
        list.push(Token::Mark(Mark::Open))?;
    }
    list.push(Token::Number {
        digits: DcText::from_bytes(alloc, b"1")?,
        suffix: Suffix::Absent,
    })?;
    for _ in 0..close {
        list.push(Token::Mark(Mark::Close))?;
    }
    Ok(list)
}

fn missed(alloc: Global, open: usize, close: usize) -> Option<Miss> {
    let Ok(list) = brackets(alloc, open, close) else {
        return Some(Miss::NoMemory);
    };
    match read_expr(alloc, list.as_slice()) {
        Ok(_) => None,
        Err(miss) => Some(miss),
    }
}

#[test]
fn depth_has_a_limit(rt: HostRuntime) {
    assert_eq!(rt; missed(rt.alloc(), 255, 255), None);
    assert_eq!(rt; missed(rt.alloc(), 256, 256), Some(Miss::Deep));
    assert_eq!(rt; missed(rt.alloc(), 500_000, 500_000), Some(Miss::Deep));
    assert_eq!(rt; missed(rt.alloc(), 500_000, 499_999), Some(Miss::Nothing));
}
