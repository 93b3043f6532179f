//! Texts, lists, stacks, boxes, symbols, and the least of some findings.

use dc_int::Kind;
use dc_text::{DcBox, DcList, DcText, Stack};
use dc_tree::{Fail, LeastFinding, Refusal, Role, Symbol, Symbols, is_name};
use std::test;

#[test]
fn texts_grow(rt: HostRuntime) -> Result<(), test::Fail> {
    let mut text = DcText::from_bytes(rt.alloc(), b"a")?;
    text.push(b'=')?;
    text.put_number(-20)?;
    text.append(b";")?;
    let copy = text.copy(rt.alloc())?;
    assert_eq!(rt; copy.as_bytes(), b"a=-20;".as_slice());
    assert!(rt; copy == text);
    text.clear();
    text.put_number(i64::MIN)?;
    assert_eq!(rt; text.as_bytes(), b"-9223372036854775808".as_slice());
    assert!(rt; copy != text);
    for _ in 0u32..70_000 {
        text.push(b'a')?;
    }
    text.append(b"b")?;
    assert_eq!(rt; text.len(), 70_021);
    assert_eq!(rt; text.get(70_020), Some(b'b'));
    Ok(())
}

#[test]
fn lists_and_stacks_grow(rt: HostRuntime) -> Result<(), test::Fail> {
    let mut list = DcList::new(rt.alloc());
    for item in 0u32..3 {
        list.push(item)?;
    }
    let mut more = DcList::new(rt.alloc());
    more.push(7)?;
    list.append(more)?;
    list.reverse();
    assert_eq!(rt; list.as_slice(), [7, 2, 1, 0].as_slice());
    assert_eq!(rt; list.pop(), Some(0));
    let mut stack = Stack::from_list(list);
    stack.push(9)?;
    assert_eq!(rt; stack.pop(), Some(9));
    assert_eq!(rt; stack.top().copied(), Some(7));
    assert_eq!(rt; stack.len(), 3);
    let boxed = DcBox::new(rt.alloc(), 5u32)?;
    assert_eq!(rt; *boxed.get(), 5);
    Ok(())
}

#[test]
fn symbols_are_found(rt: HostRuntime) -> Result<(), test::Fail> {
    let mut symbols = Symbols::new(rt.alloc());
    let name = DcText::from_bytes(rt.alloc(), b"step")?;
    assert!(rt; is_name(name.as_bytes()));
    let step = Symbol {
        scope: 1,
        name,
        role: Role::Result {
            logical: false,
            kind: Kind::K4,
        },
    };
    symbols.push(rt.alloc(), step)?;
    assert_eq!(rt; symbols.as_slice().len(), 1);
    let found = symbols.lookup(1, b"step");
    assert!(rt;
        matches!(
            found,
            Some(Symbol {
                role: Role::Result {
                    logical: false,
                    kind: Kind::K4,
                },
                ..
            })
        )
    );
    assert!(rt; symbols.lookup(0, b"step").is_none());
    assert!(rt; matches!(symbols.result(1), Some((false, Kind::K4))));
    assert!(rt; symbols.result(0).is_none());
    Ok(())
}

#[test]
fn the_least_finding_is_told(rt: HostRuntime) {
    let mut found = LeastFinding::none();
    assert_eq!(rt; found.pass(), Ok(()));
    for (rule, line) in [(20, 3), (30, 2), (24, 2), (19, 4), (28, 2)] {
        found.note(rule, line);
    }
    found.note_if(false, 1, 1);
    let least = Refusal { rule: 24, line: 2 };
    assert_eq!(rt; found.refusal(), Some(least));
    assert_eq!(rt; found.pass(), Err(Fail::Refused(least)));
}
