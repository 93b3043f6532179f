//! Words, values and failing writes, over files and sinks in memory.
use crate::calls::{Sinks, WELL, call, words};
use dc_outer::{BytesInSure, BytesOutSure, FilesSure};
use dc_text::{DcList, DcText, NoMemory};
use docon::run_sure;
use std::alloc::Global;
use std::test::Fail;

/// The seven lines with this size and this value.
fn form(alloc: Global, size: &str, value: &str) -> Result<DcText, NoMemory> {
    let mut text = DcText::from_bytes(alloc, b"program p\ninteger :: a(")?;
    text.append(size.as_bytes())?;
    text.append(b"), i\ndo concurrent (i = 1:")?;
    text.append(size.as_bytes())?;
    text.append(b")\n  a(i) = ")?;
    text.append(value.as_bytes())?;
    text.append(b"\nend do\nprint *, a\nend program p\n")?;
    Ok(text)
}

#[test]
fn values(rt: HostRuntime) -> Result<(), Fail> {
    let table = [
        ("4", "i", "1 2 3 4\n"),
        ("4", "i*i", "1 4 9 16\n"),
        ("3", "999999999*i", "999999999 1999999998 -1294967299\n"),
        ("3", "7 - i - 2 * i+1*i*i", "5 5 7\n"),
        ("2", "i+i*10", "11 22\n"),
        ("2", "10*i-i-i", "8 16\n"),
        ("2", "000000007", "7 7\n"),
        ("1", "999999999*999999999*999999999", "-1532731905\n"),
        ("2", "I  *\ti", "1 4\n"),
        ("0", "i", "\n"),
        ("04", "-i", "-1 -2 -3 -4\n"),
        ("4", "i/2", "0 1 1 2\n"),
        ("3", "-(i - 2)**2 + mod(i, 2)", "0 0 0\n"),
        ("2", "1234567890", "1234567890 1234567890\n"),
    ];
    for (size, value, out) in table {
        let source = form(rt.alloc(), size, value)?;
        let answer = call(rt.alloc(), source.as_bytes(), &["run", "s.f90"], &WELL)?;
        assert_eq!(rt; answer.out.as_bytes(), out.as_bytes(), "of {value}");
        assert_eq!(rt; (answer.log.len(), answer.status), (0, 0), "of {value}");
    }
    Ok(())
}

#[test]
fn refusals(rt: HostRuntime) -> Result<(), Fail> {
    let no_statement = "refused: line 4: K11\n";
    let table = [
        ("4", "", no_statement),
        ("4", "i*", no_statement),
        ("4", "j", "refused: line 4: K20\n"),
        ("4", "a", "refused: line 4: K21\n"),
        ("4", "a(i, i)", "refused: line 4: K21\n"),
        ("n", "i", "refused: line 2: K20\n"),
        ("4", "2147483648", "refused: line 4: K29\n"),
        ("4", "i == i", "refused: line 4: K28\n"),
    ];
    for (size, value, log) in table {
        let source = form(rt.alloc(), size, value)?;
        let answer = call(rt.alloc(), source.as_bytes(), &["run", "s.f90"], &WELL)?;
        assert_eq!(rt; answer.log.as_bytes(), log.as_bytes(), "of {value}");
        assert_eq!(rt; (answer.out.len(), answer.status), (0, 1), "of {value}");
    }
    Ok(())
}

/// What `check` tells of the same sources: nothing is run.
#[test]
fn checks(rt: HostRuntime) -> Result<(), Fail> {
    let table = [
        ("4", "i*i", "accepted\n", ""),
        ("4", "a(i+1)", "accepted\n", ""),
        ("4", "j", "", "refused: line 4: K20\n"),
        ("4194300", "i/2", "accepted\n", ""),
        ("4194304", "i/2", "", "refused: line 2: K24\n"),
    ];
    for (size, value, out, log) in table {
        let source = form(rt.alloc(), size, value)?;
        let answer = call(rt.alloc(), source.as_bytes(), &["check", "s.f90"], &WELL)?;
        assert_eq!(rt; answer.out.as_bytes(), out.as_bytes(), "of {value}");
        assert_eq!(rt; answer.log.as_bytes(), log.as_bytes(), "of {value}");
    }
    Ok(())
}

/// The code of the seven lines with the size 4 and the value `i*i`.
const LISTING: &str = "0 3 Enter 0
1 6 PutAll 0
2 6 PutEnd
3 7 End
4 3 Const 4 1
5 3 Wrap 4
6 3 Const 4 4
7 3 Wrap 4
8 3 Const 4 1
9 3 End
10 4 SubscriptSlot 0
11 4 LoadSlot 0
12 4 SubscriptSlot 0
13 4 LoadSlot 0
14 4 Arith Mul 4
15 4 SubscriptSlot 0
16 4 LoadSlot 0
17 4 Subscript 0
18 4 Store 0
19 3 End
shape 0 4 F 4
shape 1 4 F 1
bounds 0 1 1 4
bounds 1 0
plan 0 0 0
plan 1 0 0
plan 2 0 1 4 F 0
construct 0 3 1 1 4 4 - 10 2 Plain Plain
";

/// What `code` tells: nothing is run, and a source is refused as for `run`.
#[test]
fn listings(rt: HostRuntime) -> Result<(), Fail> {
    let table = [
        ("4", "i*i", LISTING, "", 0),
        ("4", "j", "", "refused: line 4: K20\n", 1),
        ("4194304", "i/2", "", "refused: line 2: K24\n", 1),
    ];
    for (size, value, out, log, status) in table {
        let source = form(rt.alloc(), size, value)?;
        let answer = call(rt.alloc(), source.as_bytes(), &["code", "s.f90"], &WELL)?;
        assert_eq!(rt; answer.out.as_bytes(), out.as_bytes(), "of {value}");
        assert_eq!(rt; answer.log.as_bytes(), log.as_bytes(), "of {value}");
        assert_eq!(rt; answer.status, status, "of {value}");
    }
    Ok(())
}

/// Texts in the free source form, each with what stands on out and on the log.
#[test]
fn free_form(rt: HostRuntime) -> Result<(), Fail> {
    let table = [
        ("", "", "refused: line 1: K13\n"),
        (
            "program p\ninteger :: i\ndo concurrent (\n",
            "",
            "refused: line 3: K11\n",
        ),
        (
            "program p\ninteger :: a\na = 1\nprint *, a\n",
            "",
            "refused: line 4: K13\n",
        ),
        (
            "program p\ninteger :: i\ndo concurrent (i = 1:3)\nexit\nend do\nend program p\n",
            "",
            "refused: line 4: K17\n",
        ),
        (
            "! a comment\nPROGRAM P; Integer :: a,b\n\na = 4&\n   &2 ! joined\nB = &\n\ta  +1\nprint*,b\nEndProgram p",
            "43\n",
            "",
        ),
    ];
    for (source, out, log) in table {
        let answer = call(rt.alloc(), source.as_bytes(), &["run", "s.f90"], &WELL)?;
        assert_eq!(rt; answer.out.as_bytes(), out.as_bytes(), "of {source}");
        assert_eq!(rt; answer.log.as_bytes(), log.as_bytes(), "of {source}");
    }
    Ok(())
}

/// An expression is at most 256 deep.
#[test]
fn operands(rt: HostRuntime) -> Result<(), Fail> {
    for (count, status) in [(256, 0), (257, 1)] {
        let mut value = String::from_str(rt.alloc(), "i")?;
        for _ in 1..count {
            value.push_str("+i")?;
        }
        let source = form(rt.alloc(), "2", value.as_str())?;
        let answer = call(rt.alloc(), source.as_bytes(), &["run", "s.f90"], &WELL)?;
        let out = if status == 0 {
            b"256 512\n".as_slice()
        } else {
            b"".as_slice()
        };
        assert_eq!(rt; answer.out.as_bytes(), out);
        assert_eq!(rt; answer.status, status);
    }
    Ok(())
}

/// Words that are refused, and files that aren't held: the line of the log and the status.
const REFUSED_WORDS: [(&[&str], &str, u8); 23] = [
    (&["run"], "words: command\n", 5),
    (&[], "words: command\n", 5),
    (&["ruin", "s.f90"], "words: command\n", 5),
    (&["run", "s.f90", "s.f90"], "words: command\n", 5),
    (&["run", "--fast"], "words: command\n", 5),
    (&["run", "--nothing=1", "s.f90"], "words: command\n", 5),
    (
        &["run", "--turns=1", "--turns=2", "s.f90"],
        "words: command\n",
        5,
    ),
    (&["run", "--help"], "words: command\n", 5),
    (&["--help"], "words: command\n", 5),
    (&["run", "--turns=0"], "words: command\n", 5),
    (&["check"], "words: command\n", 5),
    (&["check", "--turns=10", "s.f90"], "words: command\n", 5),
    (&["code"], "words: command\n", 5),
    (&["run", "--turns=0", "s.f90"], "words: turns\n", 5),
    (&["run", "--turns=1000000001", "s.f90"], "words: turns\n", 5),
    (&["run", "--turns=x", "s.f90"], "words: turns\n", 5),
    (&["run", "--turns=", "s.f90"], "words: turns\n", 5),
    (&["run", "--turns=0", "t.f90"], "words: turns\n", 5),
    (&["run", "t.f90"], "read: file\n", 6),
    (&["run", "--", "-t"], "read: file\n", 6),
    (&["check", "t.f90"], "read: file\n", 6),
    (&["code", "t.f90"], "read: file\n", 6),
    (&["run", ""], "read: file\n", 6),
];

#[test]
fn words_and_files(rt: HostRuntime) -> Result<(), Fail> {
    let source = form(rt.alloc(), "4", "i*i")?;
    for (command, log, status) in REFUSED_WORDS {
        let answer = call(rt.alloc(), source.as_bytes(), command, &WELL)?;
        assert_eq!(rt; answer.log.as_bytes(), log.as_bytes());
        assert_eq!(rt; (answer.out.len(), answer.status), (0, status));
    }
    Ok(())
}

/// Turns may stand in front of the file or behind it, in one word or in two.
#[test]
fn turns_in_words(rt: HostRuntime) -> Result<(), Fail> {
    let table: [&[&str]; 4] = [
        &["run", "--turns=10", "s.f90"],
        &["run", "--turns", "10", "s.f90"],
        &["run", "s.f90", "--turns=1"],
        &["run", "--turns=1000000000", "s.f90"],
    ];
    let source = form(rt.alloc(), "4", "i*i")?;
    for command in table {
        let answer = call(rt.alloc(), source.as_bytes(), command, &WELL)?;
        assert_eq!(rt; answer.out.as_bytes(), b"1 4 9 16\n".as_slice());
        assert_eq!(rt; (answer.log.len(), answer.status), (0, 0));
    }
    Ok(())
}

#[test]
fn failing_writes(rt: HostRuntime) -> Result<(), Fail> {
    let source = form(rt.alloc(), "4", "i*i")?;
    let short = Sinks {
        piece: 5,
        failing_out: &[1],
        failing_log: &[],
    };
    let answer = call(rt.alloc(), source.as_bytes(), &["run", "s.f90"], &short)?;
    assert_eq!(rt; answer.out.as_bytes(), b"1 4 9".as_slice());
    assert_eq!(rt; (answer.log.len(), answer.status), (0, 7));
    let no_log = Sinks {
        piece: 5,
        failing_out: &[],
        failing_log: &[2],
    };
    let answer = call(rt.alloc(), source.as_bytes(), &["run", "t.f90"], &no_log)?;
    assert_eq!(rt; answer.log.as_bytes(), b"read: file".as_slice());
    assert_eq!(rt; (answer.out.len(), answer.status), (0, 7));
    Ok(())
}

#[test]
fn sure_sinks(rt: HostRuntime) -> Result<(), Fail> {
    let source = form(rt.alloc(), "4", "i*i")?;
    let table: [(&str, &[u8], &[u8], u8); 2] = [
        ("s.f90", b"1 4 9 16\n", b"", 0),
        ("t.f90", b"", b"refused: line 1: K13\n", 1),
    ];
    for (name, wanted, logged, status) in table {
        let mut pairs = DcList::new(rt.alloc());
        pairs.push((
            DcText::from_bytes(rt.alloc(), b"s.f90")?,
            source.copy(rt.alloc())?,
        ))?;
        let mut files = FilesSure::new(pairs);
        let mut input = BytesInSure::new(DcText::new(rt.alloc()), 64);
        let mut out = BytesOutSure::new(rt.alloc(), 64, 3)?;
        let mut log = BytesOutSure::new(rt.alloc(), 64, 3)?;
        let command = words(rt.alloc(), &["run", name])?;
        let answer = run_sure(
            rt.alloc(),
            command.as_slice(),
            &mut files,
            &mut input,
            &mut out,
            &mut log,
        );
        assert_eq!(rt; out.as_bytes(), wanted);
        assert_eq!(rt; log.as_bytes(), logged);
        assert_eq!(rt; answer, status);
    }
    Ok(())
}
