//! The table of the operations at the kinds.
ghost use Rattle.std.specs.Prelude.{◌≡◌, false};
ghost use Rattle.dc_int.specs.Kinds.{InRange};
ghost use Rattle.dc_int.specs.Operations.{applied, takes_place};

use crate::arithmetic::{modulo, positive_difference, quotient, raised, remainder, with_sign};
use crate::bits::{
    bits_and, bits_not, bits_or, bits_xor, count_of_ones, shifted, shifted_left, shifted_right,
    shifted_right_signed, with_bit_cleared, with_bit_set,
};
use crate::kind::{Kind, wrap};
use crate::operation::{Op, OpFault};

/// What each operation gives, wrapped to the kind.
macro_rules! table {
    ($op:ident, $kind:ident; $($name:ident => $value:expr),* $(,)?) => {
        match $op {
            $(Op::$name => {
                let value: i128 = $value;
                Ok(match $kind {
                    Kind::K1 => wrap::<8>(value),
                    Kind::K2 => wrap::<16>(value),
                    Kind::K4 => wrap::<32>(value),
                    Kind::K8 => wrap::<64>(value),
                })
            })*
        }
    };
}

/// What an operation at a kind gives of numbers of the kind. The second one is any number where it is a
/// number of places or the position of a bit; an operation of one operand passes it over.
pub fn apply(op: Op, kind: Kind, a: i64, b: i64) -> Result<i64, OpFault>
    ensures { result ≡ applied op kind a b }
{
    table! { op, kind;
        Add => i128::from(a) + i128::from(b),
        Sub => i128::from(a) - i128::from(b),
        Mul => i128::from(a) * i128::from(b),
        Neg => -i128::from(a),
        Abs => i128::from(a.unsigned_abs()),
        Div => quotient(a, b)?,
        Mod => remainder(a, b)?,
        Modulo => modulo(a, b)?,
        Pow => raised(a, b)?,
        Min => i128::from(a.min(b)),
        Max => i128::from(a.max(b)),
        Sign => with_sign(a, b),
        Dim => positive_difference(a, b),
        Iand => bits_and(kind, a, b),
        Ior => bits_or(kind, a, b),
        Ieor => bits_xor(kind, a, b),
        Not => bits_not(kind, a),
        Ishft => shifted(kind, a, b)?,
        Shiftl => shifted_left(kind, a, b)?,
        Shiftr => shifted_right(kind, a, b)?,
        Shifta => shifted_right_signed(kind, a, b)?,
        Ibset => with_bit_set(kind, a, b)?,
        Ibclr => with_bit_cleared(kind, a, b)?,
        Popcnt => count_of_ones(kind, a),
    }
}
