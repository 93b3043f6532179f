//! Places and numbers that an instruction holds.

ghost use Rattle.std.specs.Prelude.{◌≡◌, IfOk};

use dc_text::NoMemory;

/// A place or a number, where an instruction holds it. There is no room for a code with more.
pub fn held(count: usize) -> Result<u32, NoMemory>
    ensures { IfOk result (λ number. number ≡ count) }
{
    if count <= u32::MAX as usize {
        Ok(count as u32)
    } else {
        Err(NoMemory)
    }
}
