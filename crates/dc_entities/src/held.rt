//! Numbers by their digits.

ghost use Rattle.std.specs.Prelude.{◌≡◌, nat_le, pos, IsTrue};
ghost use Rattle.dc_form.specs.BuiltPrograms.{greatest_number};
ghost use Rattle.dc_tree.specs.Literals.{number_of};

use dc_sorts::capped_number;

/// The number that digits write, where it can be held.
pub fn held_number(digits: &[u8]) -> i64
    requires { IsTrue (nat_le (number_of digits.now) greatest_number) }
    ensures { result ≡ pos (number_of digits.now) }
{
    capped_number(digits) as i64
}
