//! A report written to out and to the log.

ghost use Rattle.std.specs.Prelude.{◌≡◌, ◌≤◌, length, drop};
ghost use Rattle.docon.specs.Room.{Fits, WritesInRoom};
ghost use Rattle.docon.specs.Writing.{change, WritesAll, IsWritten};

use crate::report::Report;
use crate::statuses::WRITE_FAULT;
use dc_outer::Sink;

fn from(bytes: &[u8], at: usize) -> &[u8]
    requires { at ≤ length bytes.now }
    ensures { result.now ≡ drop at bytes.now }
{
    &bytes[at..]
}

/// Writes all bytes. Whether that went well: else a proper prefix stands, and the sink failed.
pub(crate) fn write_all<W: Sink>(sink: &mut W, bytes: &[u8]) -> bool
    ensures written { WritesAll (change W.taken W.room W.faults sink.old sink.new) bytes.now result }
    ensures room { WritesInRoom (W.room sink.old) (W.room sink.new) (length bytes.now) result }
{
    let mut done = 0;
    while done < bytes.len() {
        match sink.write(from(bytes, done)) {
            Ok(count) => done += count,
            Err(_) => return false,
        }
    }
    true
}

/// Writes the report, out before the log, and answers its status, or that a write failed.
pub(crate) fn write_report<W: Sink, L: Sink>(report: &Report, out: &mut W, log: &mut L) -> u8
    ensures written { IsWritten report.now (change W.taken W.room W.faults out.old out.new)
        (change L.taken L.room L.faults log.old log.new) result }
    ensures room { Fits report.now (W.room out.old) (L.room log.old) → result ≡ report.now.status }
{
    if !write_all(out, report.out.as_bytes()) {
        return WRITE_FAULT;
    }
    if !write_all(log, report.log.as_bytes()) {
        return WRITE_FAULT;
    }
    report.status
}
