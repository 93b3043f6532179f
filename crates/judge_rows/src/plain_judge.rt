//! Iterations taken alone, and loops judged by themselves, over given states.

use dc_code::{Party, Race};
use dc_front::{Accepted, accept};
use dc_int::{Access, Action, ElementId, FaultKind, Touch, Why};
use dc_text::NoMemory;
use dc_tree::Fail as Refused;
use dc_walk::{AloneOut, PlainVerdict, alone, has_loop, plain_verdict};
use std::alloc::Global;
use std::test::Fail;

/// `None` is a refusal.
fn accepted(alloc: Global, source: &str) -> Result<Option<Accepted>, NoMemory> {
    match accept(alloc, source.as_bytes()) {
        Ok(accepted) => Ok(Some(accepted)),
        Err(Refused::Refused(_)) => Ok(None),
        Err(Refused::NoMemory) => Err(NoMemory),
    }
}

/// Judges the first loop of a source, for at most 4,194,304 iterations. `None` is a refusal, a source
/// without a loop, or more iterations.
fn judged(
    alloc: Global,
    source: &str,
    active: &[i64],
    opening: &[Option<i64>],
) -> Result<Option<PlainVerdict>, NoMemory> {
    let Some(accepted) = accepted(alloc, source)? else {
        return Ok(None);
    };
    let program = accepted.program();
    let symbols = accepted.symbols();
    if active.len() > 4_194_304 {
        return Ok(None);
    }
    if !has_loop(program, 0) {
        return Ok(None);
    }
    let said = plain_verdict(alloc, program, symbols, 0, 1, active, opening, 1_000_000)?;
    Ok(Some(said))
}

/// Takes an iteration of the first loop of a source alone. `None` is a refusal.
fn iteration(
    alloc: Global,
    source: &str,
    at: i64,
    opening: &[Option<i64>],
) -> Result<Option<AloneOut>, NoMemory> {
    let Some(accepted) = accepted(alloc, source)? else {
        return Ok(None);
    };
    let program = accepted.program();
    let symbols = accepted.symbols();
    let out = alone(alloc, program, symbols, 0, &[at], opening, 1_000_000)?;
    Ok(Some(out))
}

const SHIFTED: &str =
    "program p\ninteger :: a(4), i\ndo concurrent (i = 2:4)\n  a(i) = a(i-1) + 1\nend do\nend program p\n";

const TEMPORARY: &str =
    "program p\ninteger :: a(3), t, i\ndo concurrent (i = 1:3)\n  t = i\n  a(i) = t*2\nend do\nend program p\n";

/// The same statements in the other order, so that an iteration reads what another defines.
const CROSSING: &str =
    "program p\ninteger :: a(3), t, i\ndo concurrent (i = 1:3)\n  a(i) = t*2\n  t = i\nend do\nend program p\n";

const CLEARED: &str =
    "program p\ninteger :: a(4), i\ndo concurrent (i = 3:3)\n  a(i) = 0\nend do\nend program p\n";

/// What is expected of a loop.
enum Said<'a> {
    GoesOn(&'a [Option<i64>]),
    IsBad {
        iteration: u32,
        why: Why,
        line: u32,
    },
    /// The element, and of each of the two iterations its number, what it does, and on which line.
    Races {
        variable: u32,
        position: u32,
        first: (u32, Action, u32),
        second: (u32, Action, u32),
    },
}

fn element(variable: u32, position: u32) -> ElementId {
    ElementId { variable, position }
}

fn party((iteration, action, line): (u32, Action, u32)) -> Party {
    Party {
        iteration,
        action,
        line,
    }
}

fn goes_on(said: &PlainVerdict, expected: &[Option<i64>]) -> bool {
    match said {
        PlainVerdict::GoOn { closing } => closing.as_slice() == expected,
        _ => false,
    }
}

fn is_bad(said: &PlainVerdict, expected: (u32, Why, u32)) -> bool {
    match said {
        PlainVerdict::Bad {
            iteration,
            why,
            line,
        } => (*iteration, *why, *line) == expected,
        _ => false,
    }
}

fn is_race(said: &PlainVerdict, expected: Race) -> bool {
    match said {
        PlainVerdict::Race(race) => *race == expected,
        _ => false,
    }
}

fn is_said(said: &Option<PlainVerdict>, expected: &Said) -> bool {
    let Some(said) = said else {
        return false;
    };
    match expected {
        Said::GoesOn(closing) => goes_on(said, closing),
        Said::IsBad {
            iteration,
            why,
            line,
        } => is_bad(said, (*iteration, *why, *line)),
        Said::Races {
            variable,
            position,
            first,
            second,
        } => is_race(
            said,
            Race {
                element: element(*variable, *position),
                first: party(*first),
                second: party(*second),
            },
        ),
    }
}

/// A loop with its iterations and the states of its opening store, and what is said of it.
struct Row<'a> {
    source: &'a str,
    active: &'a [i64],
    opening: &'a [Option<i64>],
    said: Said<'a>,
}

const UNDEFINED: Why = Why::Fault(FaultKind::Undefined);

const ROWS: [Row<'static>; 8] = [
    // an iteration reads the element that the one before defines
    Row {
        source: SHIFTED,
        active: &[2, 3, 4],
        opening: &[Some(0), Some(0), Some(0), Some(0), None],
        said: Said::Races {
            variable: 0,
            position: 1,
            first: (0, Action::Defines, 4),
            second: (1, Action::Reads, 4),
        },
    },
    // the first iteration reads an undefined element
    Row {
        source: SHIFTED,
        active: &[2, 3, 4],
        opening: &[None; 5],
        said: Said::IsBad {
            iteration: 0,
            why: UNDEFINED,
            line: 4,
        },
    },
    // where the first element is defined, the second iteration is the first that ends badly
    Row {
        source: SHIFTED,
        active: &[2, 3, 4],
        opening: &[Some(0), None, None, None, None],
        said: Said::IsBad {
            iteration: 1,
            why: UNDEFINED,
            line: 4,
        },
    },
    // a temporary is no race, and undefined behind more iterations than one
    Row {
        source: TEMPORARY,
        active: &[1, 2, 3],
        opening: &[None; 5],
        said: Said::GoesOn(&[Some(2), Some(4), Some(6), None, None]),
    },
    Row {
        source: TEMPORARY,
        active: &[1],
        opening: &[None; 5],
        said: Said::GoesOn(&[Some(2), None, None, Some(1), None]),
    },
    // a scalar is read before it is defined
    Row {
        source: CROSSING,
        active: &[1, 2, 3],
        opening: &[None; 5],
        said: Said::IsBad {
            iteration: 0,
            why: UNDEFINED,
            line: 4,
        },
    },
    Row {
        source: CROSSING,
        active: &[1, 2, 3],
        opening: &[None, None, None, Some(7), None],
        said: Said::Races {
            variable: 1,
            position: 0,
            first: (0, Action::Defines, 5),
            second: (2, Action::Reads, 4),
        },
    },
    // one iteration leaves other elements as they are
    Row {
        source: CLEARED,
        active: &[3],
        opening: &[Some(1), Some(2), Some(7), Some(3), None],
        said: Said::GoesOn(&[Some(1), Some(2), Some(0), Some(3), None]),
    },
];

#[test]
fn loops_are_judged_by_themselves(rt: HostRuntime) -> Result<(), Fail> {
    for (number, row) in ROWS.iter().enumerate() {
        let said = judged(rt.alloc(), row.source, row.active, row.opening)?;
        assert!(rt; is_said(&said, &row.said), "in row {number}");
    }
    Ok(())
}

fn does(out: &Option<AloneOut>, accesses: &[Access], touches: &[Touch]) -> bool {
    match out {
        Some(out) => {
            out.ending.is_none()
                && out.accesses.as_slice() == accesses
                && out.touches.as_slice() == touches
                && out.contributions.is_empty()
        }
        None => false,
    }
}

fn access(action: Action, variable: u32, line: u32) -> Access {
    Access {
        action,
        element: element(variable, 0),
        line,
    }
}

fn touch(variable: u32, value: i64) -> Touch {
    Touch {
        element: element(variable, 0),
        value: Some(value),
    }
}

#[test]
fn iteration_is_taken_alone(rt: HostRuntime) -> Result<(), Fail> {
    let out = iteration(rt.alloc(), TEMPORARY, 1, &[None; 5])?;
    let accesses = [
        access(Action::Defines, 1, 4),
        access(Action::Reads, 1, 5),
        access(Action::Defines, 0, 5),
    ];
    let touches = [touch(1, 1), touch(0, 2)];
    assert!(rt; does(&out, &accesses, &touches));
    Ok(())
}
