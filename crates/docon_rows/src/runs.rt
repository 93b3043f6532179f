//! Runs of accepted sources by themselves, and the lines of the log that tell how a run ended.
use dc_front::accept;
use dc_int::{FaultKind, Why};
use dc_outer::OpenGate;
use dc_run::{Ending, report_line, run};
use std::test::Fail;

const SEVEN: &[u8] = b"program p\ninteger :: s\ns = 7\nprint *, s\nend program p\n";

#[test]
fn number_is_written(rt: HostRuntime) -> Result<(), Fail> {
    let accepted = accept(rt.alloc(), SEVEN)?;
    let out = run(rt.alloc(), &accepted, b"", 1, 1, &OpenGate)?;
    assert_eq!(rt; out.output.as_bytes(), b"7\n".as_slice());
    assert!(rt; matches!(out.ending, Ending::Done));
    Ok(())
}

#[test]
fn endings_are_told(rt: HostRuntime) -> Result<(), Fail> {
    let accepted = accept(rt.alloc(), SEVEN)?;
    let table: [(Why, u32, &str); 3] = [
        (
            Why::Fault(FaultKind::DivideByZero),
            12,
            "fault: DivideByZero: line 12\n",
        ),
        (
            Why::Fault(FaultKind::OutputFull),
            1,
            "fault: OutputFull: line 1\n",
        ),
        (Why::Spent, 10_000, "spent: line 10000\n"),
    ];
    for (why, line, text) in table {
        let told = report_line(rt.alloc(), &accepted, &Ending::Bad { why, line })?;
        assert_eq!(rt; told.as_bytes(), text.as_bytes());
    }
    assert!(rt; report_line(rt.alloc(), &accepted, &Ending::Done)?.is_empty());
    Ok(())
}
