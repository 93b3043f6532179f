//! What READ takes from an input, of which the bytes from a place on are left.

ghost use Rattle.std.specs.Prelude.{◌≡◌, ◌≤◌, length, drop, IfOk, IfErr, OnOk, Ok, Err};
ghost use Rattle.dc_lists.specs.Input.{take_text, take_number, take_truth, end_reading};

use crate::runs::{gap_length, line_length, part_length, separator_length};
use crate::values::{number_in, truth_in};
use dc_int::{FaultKind, Kind};

/// The text of the next value, and the place behind what separates it from the one that follows.
fn next_text(input: &[u8], place: usize) -> Result<(&[u8], usize), FaultKind>
    requires { place ≤ length input.now }
    ensures taken { IfOk result (λ taken.
        (take_text (drop place input.now) ≡ Ok (taken.0.now, drop taken.1 input.now))
        × (taken.1 ≤ length input.now)) }
    ensures fault { IfErr result (λ fault. take_text (drop place input.now) ≡ Err fault) }
{
    let begin = place + gap_length(&input[place..]);
    if begin == input.len() {
        return Err(FaultKind::EndOfInput);
    }
    let end = begin + part_length(&input[begin..]);
    if end == begin {
        return Err(FaultKind::BadInput);
    }
    let behind = end + separator_length(&input[end..]);
    Ok((&input[begin..end], behind))
}

/// Takes a number of a kind. Where there is none, nothing is taken.
pub fn take_number(input: &[u8], place: &mut usize, kind: Kind) -> Result<i64, FaultKind>
    requires { place.old ≤ length input.now }
    ensures taken { IfOk result (λ value.
        take_number kind (drop place.old input.now) ≡ Ok (value, drop place.new input.now)) }
    ensures fault { IfErr result (λ fault.
        (take_number kind (drop place.old input.now) ≡ Err fault) × (place.new ≡ place.old)) }
    ensures within { place.new ≤ length input.now }
{
    let (text, behind) = next_text(input, *place)?;
    let value = number_in(text, kind)?;
    *place = behind;
    Ok(value)
}

/// Takes a LOGICAL, as 0 or 1. Where there is none, nothing is taken.
pub fn take_truth(input: &[u8], place: &mut usize) -> Result<i64, FaultKind>
    requires { place.old ≤ length input.now }
    ensures taken { IfOk result (λ value.
        take_truth (drop place.old input.now) ≡ Ok (value, drop place.new input.now)) }
    ensures fault { IfErr result (λ fault.
        (take_truth (drop place.old input.now) ≡ Err fault) × (place.new ≡ place.old)) }
    ensures within { place.new ≤ length input.now }
{
    let (text, behind) = next_text(input, *place)?;
    let value = truth_in(text)?;
    *place = behind;
    Ok(value)
}

/// Ends a READ of so many items: the rest of the line is passed.
pub fn take_end(input: &[u8], place: &mut usize, items: u32) -> Result<(), FaultKind>
    requires { place.old ≤ length input.now }
    ensures taken { OnOk result
        (end_reading items (drop place.old input.now) ≡ Ok (drop place.new input.now)) }
    ensures fault { IfErr result (λ fault.
        (end_reading items (drop place.old input.now) ≡ Err fault) × (place.new ≡ place.old)) }
    ensures within { place.new ≤ length input.now }
{
    let left = &input[*place..];
    if items == 0 && left.is_empty() {
        return Err(FaultKind::EndOfInput);
    }
    *place += line_length(left);
    Ok(())
}
