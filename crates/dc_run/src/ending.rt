//! `Ending`, how a run ended, and `RunOut`, what it wrote besides.

use dc_code::Verdict;
use dc_int::Why;
use dc_text::DcText;

/// How a run ends. `Bad` is of a statement outside loops, and the line is that statement's.
#[derive(Drop)]
pub enum Ending {
    Done,
    Bad { why: Why, line: u32 },
    Stopped(Verdict),
}

/// What a run wrote, and how it ended.
#[derive(Drop)]
pub struct RunOut {
    pub output: DcText,
    pub ending: Ending,
}
