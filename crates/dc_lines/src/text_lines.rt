//! The lines of a text.

ghost use Rattle.std.specs.Prelude.{◌≡◌, drop, take};
ghost use Rattle.dc_lines.specs.TextLines.{without_return};
ghost use Rattle.dc_lines.specs.Reading.{first_of};

/// The bytes in front of the first line feed.
pub(crate) fn first_of(text: &[u8]) -> &[u8]
    ensures { result.now ≡ first_of text.now }
{
    let mut count = 0;
    for byte in text {
        if *byte == b'\n' {
            break;
        }
        count += 1;
    }
    &text[..count]
}

/// A line without one carriage return at its end.
pub(crate) fn without_return(line: &[u8]) -> &[u8]
    ensures { result.now ≡ without_return line.now }
{
    let [front @ .., last] = line else {
        return line;
    };
    if *last == b'\r' { front } else { line }
}

pub(crate) fn from(text: &[u8], at: usize) -> &[u8]
    ensures { result.now ≡ drop at text.now }
{
    if at < text.len() { &text[at..] } else { &[] }
}
