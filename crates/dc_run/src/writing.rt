//! What a run writes.

ghost use Rattle.std.specs.Prelude.{◌≡◌, ◌≤◌, length, IfOk};
ghost use Rattle.dc_run.specs.Playing.{greatest_output};
ghost use Rattle.dc_run.specs.Running.{IsWritten};

use crate::ending::Ending;
use dc_int::{FaultKind, Why};
use dc_text::{DcText, NoMemory};

/// The most bytes that a run writes.
const MOST_OUTPUT: usize = 16_777_216;

/// Writes a line with its line feed, unless the output would be too long: then the run ends.
pub(crate) fn write_line(
    line: u32,
    bytes: &[u8],
    output: &mut DcText,
) -> Result<Option<Ending>, NoMemory>
    requires { length output.old ≤ greatest_output }
    ensures { IfOk result (λ met. IsWritten line bytes.now output.old output.new met) }
{
    if MOST_OUTPUT - output.len() < bytes.len() {
        return Ok(Some(Ending::Bad {
            why: Why::Fault(FaultKind::OutputFull),
            line,
        }));
    }
    output.append(bytes)?;
    Ok(None)
}
