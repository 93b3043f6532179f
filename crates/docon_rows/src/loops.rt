//! Sources whose loops are judged: what is written, the line of the log, and the status.
use crate::calls::{WELL, call};
use dc_text::{DcText, NoMemory};
use std::alloc::Global;
use std::test::Fail;

/// A program `p` of these lines.
fn program(alloc: Global, lines: &[&str]) -> Result<DcText, NoMemory> {
    let mut text = DcText::from_bytes(alloc, b"program p\n")?;
    for line in lines {
        text.append(line.as_bytes())?;
        text.push(b'\n')?;
    }
    text.append(b"end program p\n")?;
    Ok(text)
}

/// The lines between the first and the last, and what they come to.
struct Row<'a> {
    lines: &'a [&'a str],
    out: &'a str,
    log: &'a str,
    status: u8,
}

const ROWS: [Row<'static>; 21] = [
    Row {
        lines: &[],
        out: "",
        log: "",
        status: 0,
    },
    // what binds first, and values of each kind of operation
    Row {
        lines: &["print *, -2**2, 7/(-2), mod(-7, 3), modulo(-7, 3), 2**(-3), 1 > 2 .or. .true."],
        out: "-4 -3 -1 2 0 T\n",
        log: "",
        status: 0,
    },
    // a continued statement, and a literal with an apostrophe
    Row {
        lines: &[
            "integer :: alpha; alpha = 4&",
            "   &2 ! joined",
            "print *, alpha, &",
            "  'it''s'",
        ],
        out: "42 it's\n",
        log: "",
        status: 0,
    },
    // kinds, bounds, a named constant, and limits that are read
    Row {
        lines: &[
            "integer, parameter :: n = 3",
            "integer(1) :: b(-1:n, 2) = 100, low = -1",
            "logical :: even(n)",
            "integer :: i",
            "do concurrent (i = low:ubound(b, 1))",
            "  b(i, 2) = b(i, 1) + 50*i",
            "end do",
            "even = [.false., .true., .false.]",
            "print *, sum(b), count(even), b(:n)",
        ],
        out: "",
        log: "refused: line 10: K11\n",
        status: 1,
    },
    Row {
        lines: &[
            "integer, parameter :: n = 3",
            "integer(1) :: b(-1:n, 2) = 100, low = -1",
            "logical :: even(n)",
            "integer :: i",
            "do concurrent (i = low:ubound(b, 1))",
            "  b(i, 2) = b(i, 1) + 50*i",
            "end do",
            "even = [.false., .true., .false.]",
            "print *, b, count(even), even",
        ],
        out: "100 100 100 100 100 50 100 -106 -56 -6 1 F T F\n",
        log: "",
        status: 0,
    },
    // a fault in one iteration, although a scalar clashes too
    Row {
        lines: &[
            "integer :: t, i",
            "do concurrent (i = 1:3)",
            "  t = 6/(3-i)",
            "end do",
        ],
        out: "",
        log: "fault: DivideByZero: iteration (3): line 4\n",
        status: 3,
    },
    // too many iterations, a fault of the header
    Row {
        lines: &[
            "integer :: t, i",
            "do concurrent (i = 1:4194305)",
            "  t = i",
            "end do",
        ],
        out: "",
        log: "fault: TooManyIterations: line 3\n",
        status: 3,
    },
    // an iteration reads what the one before defines
    Row {
        lines: &[
            "integer :: a(4), i",
            "a = 0",
            "do concurrent (i = 2:4)",
            "  a(i) = a(i-1) + 1",
            "end do",
            "print *, a",
        ],
        out: "",
        log: "race: a(2): iteration (2) defines at line 5, iteration (3) reads at line 5\n",
        status: 2,
    },
    // the same over an undefined array
    Row {
        lines: &[
            "integer :: a(4), i",
            "do concurrent (i = 2:4)",
            "  a(i) = a(i-1) + 1",
            "end do",
            "print *, a",
        ],
        out: "",
        log: "fault: Undefined: iteration (2): line 4\n",
        status: 3,
    },
    // a temporary that each iteration defines before it reads it
    Row {
        lines: &[
            "integer :: a(3), t, i",
            "do concurrent (i = 1:3)",
            "  t = i",
            "  a(i) = t*2",
            "end do",
            "print *, a",
        ],
        out: "2 4 6\n",
        log: "",
        status: 0,
    },
    // which is undefined behind the loop
    Row {
        lines: &[
            "integer :: a(3), t, i",
            "do concurrent (i = 1:3)",
            "  t = i",
            "  a(i) = t*2",
            "end do",
            "print *, a",
            "print *, t",
        ],
        out: "2 4 6\n",
        log: "fault: Undefined: line 8\n",
        status: 3,
    },
    // unless there is one iteration
    Row {
        lines: &[
            "integer :: a(1), t, i",
            "do concurrent (i = 1:1)",
            "  t = i",
            "  a(i) = t*2",
            "end do",
            "print *, a",
            "print *, t",
        ],
        out: "2\n1\n",
        log: "",
        status: 0,
    },
    // iterations that read a scalar before they define it
    Row {
        lines: &[
            "integer :: s, i",
            "s = 0",
            "do concurrent (i = 1:3)",
            "  s = s + i",
            "end do",
            "print *, s",
        ],
        out: "",
        log: "race: s: iteration (1) defines at line 5, iteration (3) reads at line 5\n",
        status: 2,
    },
    // one iteration defines what every other reads
    Row {
        lines: &[
            "integer :: a(3), b(3), i",
            "a = 5",
            "do concurrent (i = 1:3)",
            "  b(i) = a(2)",
            "  a(i + 1 - i) = b(i)",
            "end do",
        ],
        out: "",
        log: "",
        status: 0,
    },
    Row {
        lines: &[
            "integer :: a(3), i",
            "a = 5",
            "do concurrent (i = 1:3)",
            "  a(i) = a(2) + i",
            "end do",
        ],
        out: "",
        log: "race: a(2): iteration (2) defines at line 5, iteration (1) reads at line 5\n",
        status: 2,
    },
    // a loop without iterations
    Row {
        lines: &[
            "integer :: a(2), i",
            "a = 1",
            "do concurrent (i = 3:2)",
            "  a(i) = 0",
            "end do",
            "print *, a",
        ],
        out: "1 1\n",
        log: "",
        status: 0,
    },
    // a subscript outside the bounds, in a loop and outside
    Row {
        lines: &[
            "integer :: a(2), i",
            "do concurrent (i = 0:2)",
            "  a(i) = 0",
            "end do",
        ],
        out: "",
        log: "fault: Subscript: iteration (0): line 4\n",
        status: 3,
    },
    Row {
        lines: &["integer :: a(2), n", "n = 1", "print *, n", "a(n + 2) = 1"],
        out: "1\n",
        log: "fault: Subscript: line 5\n",
        status: 3,
    },
    // what a loop left is reached by the next
    Row {
        lines: &[
            "integer :: a(3), b(3), i",
            "do concurrent (i = 1:3)",
            "  a(i) = i",
            "end do",
            "do concurrent (i = 1:3)",
            "  b(i) = a(4 - i)*10",
            "end do",
            "print *, b",
            "print *, a",
        ],
        out: "30 20 10\n1 2 3\n",
        log: "",
        status: 0,
    },
    // what is assigned behind a loop
    Row {
        lines: &[
            "integer :: a(4), i,n",
            "  n = 0",
            "do concurrent (i = 1:4)",
            "   a(i) = n + 2*i -1",
            "end do",
            "a(n + 1) = a(4)",
            "print *, a",
        ],
        out: "7 3 5 7\n",
        log: "",
        status: 0,
    },
    // a block doesn't define its index
    Row {
        lines: &[
            "integer :: i",
            "do concurrent (i = 1:4)",
            "  i = 3",
            "end do",
        ],
        out: "",
        log: "refused: line 4: K31\n",
        status: 1,
    },
];

#[test]
fn loops_are_judged_as_the_table_says(rt: HostRuntime) -> Result<(), Fail> {
    for row in &ROWS {
        let source = program(rt.alloc(), row.lines)?;
        let answer = call(rt.alloc(), source.as_bytes(), &["run", "s.f90"], &WELL)?;
        assert_eq!(rt; answer.out.as_bytes(), row.out.as_bytes());
        assert_eq!(rt; answer.log.as_bytes(), row.log.as_bytes());
        assert_eq!(rt; answer.status, row.status);
    }
    Ok(())
}
