//! How many bytes are passed at the front of what is left of an input.

ghost use Rattle.std.specs.Prelude.{◌≡◌, ◌==◌, ◌≤◌, length, take, drop};
ghost use Rattle.std.specs.List.{position};
ghost use Rattle.dc_lists.specs.Input.{is_space, is_gap, is_part, run_of, past_run};
ghost use Rattle.dc_lists.specs.Input.{past_separator, past_line};

use crate::bytes::{is_gap, is_part, is_space};

fn space_length(bytes: &[u8]) -> usize
    ensures left { drop result bytes.now ≡ past_run is_space bytes.now }
    ensures within { result ≤ length bytes.now }
{
    bytes.iter().take_while(|byte| is_space(**byte)).count()
}

pub(crate) fn gap_length(bytes: &[u8]) -> usize
    ensures left { drop result bytes.now ≡ past_run is_gap bytes.now }
    ensures within { result ≤ length bytes.now }
{
    bytes.iter().take_while(|byte| is_gap(**byte)).count()
}

pub(crate) fn part_length(bytes: &[u8]) -> usize
    ensures run { take result bytes.now ≡ run_of is_part bytes.now }
    ensures left { drop result bytes.now ≡ past_run is_part bytes.now }
    ensures within { result ≤ length bytes.now }
{
    bytes.iter().take_while(|byte| is_part(**byte)).count()
}

/// How many bytes separate the value before them from the next.
pub(crate) fn separator_length(bytes: &[u8]) -> usize
    ensures left { drop result bytes.now ≡ past_separator bytes.now }
    ensures within { result ≤ length bytes.now }
{
    let spaces = space_length(bytes);
    match bytes.get(spaces) {
        Some(b',') => spaces + 1,
        _ => spaces,
    }
}

fn feed_place(bytes: &[u8]) -> Option<usize>
    ensures { result ≡ position (λ byte. byte == 10) bytes.now }
{
    bytes.iter().position(|byte| *byte == b'\n')
}

/// How many bytes are left of a line, its line feed among them.
#[tactic(auto, using(crate::proofs::Prefixes::lines))]
pub(crate) fn line_length(bytes: &[u8]) -> usize
    ensures left { drop result bytes.now ≡ past_line bytes.now }
    ensures within { result ≤ length bytes.now }
{
    match feed_place(bytes) {
        Some(place) => place + 1,
        None => bytes.len(),
    }
}
