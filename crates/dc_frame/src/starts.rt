//! Which part of a code begins at a place.

ghost use Rattle.std.specs.Prelude.{◌≡◌, ◌+◌, flat_map, IfOk};
ghost use Rattle.dc_code.specs.Codes.{plan_at, place_among, starts_of_loop};

use dc_code::{Code, ConstructCode};
use dc_text::NoMemory;

fn next(number: u32) -> Result<u32, NoMemory>
    ensures { IfOk result (λ following. following ≡ number + 1) }
{
    number.checked_add(1).ok_or(NoMemory)
}

/// The number of the plan of a procedure, behind the main program and as many procedures as stand before.
fn of_procedure(before: usize) -> Result<u32, NoMemory>
    ensures { IfOk result (λ number. number ≡ before + 1) }
{
    next(u32::try_from(before).or(Err(NoMemory))?)
}

/// How many starts stand before the first that is the place, or how many there are.
fn place_among(starts: &[u32], place: u32) -> usize
    ensures { result ≡ place_among starts.now place }
{
    for (before, start) in starts.iter().enumerate() {
        if *start == place {
            return before;
        }
    }
    starts.len()
}

/// The same for the starts of loops, with a number before.
fn among_loops(loops: &[ConstructCode], place: u32, number: u32) -> Result<u32, NoMemory>
    ensures { IfOk result (λ found. found
        ≡ number + place_among (flat_map starts_of_loop loops.now) place) }
{
    let mut before = number;
    for construct in loops {
        if construct.header == place {
            return Ok(before);
        }
        before = next(before)?;
        if let Some(mask) = construct.mask {
            if mask == place {
                return Ok(before);
            }
            before = next(before)?;
        }
        if construct.body == place {
            return Ok(before);
        }
        before = next(before)?;
    }
    Ok(before)
}

/// The number of the plan of the part that begins at a place. A number that is too great is taken as want of
/// memory, since no memory has so many parts.
pub(crate) fn plan_at(code: &Code, place: u32) -> Result<u32, NoMemory>
    ensures { IfOk result (λ number. number ≡ plan_at code.now place) }
{
    if place == 0 {
        return Ok(0);
    }
    let entries = code.entries();
    let before = place_among(entries, place);
    let number = of_procedure(before)?;
    if before < entries.len() {
        return Ok(number);
    }
    among_loops(code.constructs(), place, number)
}
