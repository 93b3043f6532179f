//! Statements and their tokens.

use crate::showing::put_token;
use dc_lexer::tokens;
use dc_text::DcText;
use dc_tree::{Fail, Logical, Refusal};
use std::alloc::Global;
use std::test;

/// The tokens of a statement on line 4, each with a blank behind it.
fn shown(alloc: Global, text: &[u8]) -> Result<DcText, Fail> {
    let text = DcText::from_bytes(alloc, text)?;
    let list = tokens(alloc, &Logical { line: 4, text })?;
    let mut out = DcText::new(alloc);
    for token in list.as_slice() {
        put_token(&mut out, token)?;
    }
    Ok(out)
}

/// The rule by which a statement on line 4 is refused.
fn rule_of(alloc: Global, text: &[u8]) -> Option<u8> {
    match shown(alloc, text) {
        Err(Fail::Refused(Refusal { rule, line: 4 })) => Some(rule),
        _ => None,
    }
}

/// Each spelling of a mark, each form of a number, each joined word, and both quotes.
const READ: [(&[u8], &[u8]); 14] = [
    (b"", b""),
    (b"  ", b""),
    (b"( ) [ ] , : :: =", b"( ) [ ] , : :: = "),
    (b"+-*/**", b"+ - * / ** "),
    (b"== /= < <= > >=", b".eq. .ne. .lt. .le. .gt. .ge. "),
    (
        b".eq. .NE. .Lt. .le. .gt. .ge.",
        b".eq. .ne. .lt. .le. .gt. .ge. ",
    ),
    (
        b".not.a.and..OR..eqv..neqv.",
        b".not. a .and. .or. .eqv. .neqv. ",
    ),
    (b".true. .FALSE.", b".true. .false. "),
    (b"12 1_8 1_Int8 007_04", b"12 1_#8 1_int8 007_#04 "),
    (b"A_1 b2c", b"a_1 b2c "),
    (
        b"'it''s' \"it's\" \"a\"\"b\" ''",
        b"'it's' 'it's' 'a\"b' '' ",
    ),
    (
        b"enddo EndIf elseif endprogram",
        b"end do end if else if end program ",
    ),
    (
        b"endfunction endsubroutine selectcase endselect",
        b"end function end subroutine select case end select ",
    ),
    (b"EndDo(A.EQ.1_Int8)", b"end do ( a .eq. 1_int8 ) "),
];

#[test]
fn statements_have_their_tokens(rt: HostRuntime) -> Result<(), test::Fail> {
    for (text, want) in &READ {
        let out = shown(rt.alloc(), text)?;
        assert_eq!(rt; out.as_bytes(), *want);
    }
    Ok(())
}

const REFUSED: [(&[u8], Option<u8>); 8] = [
    (b"i = 9223372036854775807", None),
    (b"i = 9223372036854775808", Some(10)),
    (
        b"a23456789a123456789a123456789a123456789a123456789a123456789a123 = 1",
        None,
    ),
    (
        b"a23456789a123456789a123456789a123456789a123456789a123456789a1234 = 9223372036854775808",
        Some(9),
    ),
    (b"i = 9223372036854775808 ; 1", Some(8)),
    (b"print *, 'it''s", Some(8)),
    (b"i = 1_", Some(8)),
    (b"i = 1.5", Some(8)),
];

#[test]
fn the_least_rule_is_told(rt: HostRuntime) {
    for (text, want) in &REFUSED {
        assert_eq!(rt; rule_of(rt.alloc(), text), *want);
    }
}
