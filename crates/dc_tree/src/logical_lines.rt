//! What readers of lines give, and readers of tokens take.

use dc_text::DcText;

/// A statement as its lines spell it, with continued lines joined and comments left out, and the
/// number of the line on which it begins, counted from 1. After ISO/IEC 1539-1:2023, clause 6.3.2.
#[derive(Debug, Drop)]
pub struct Logical {
    pub line: u32,
    pub text: DcText,
}
