//! Each operation at each kind, at the edges of the kind. The values were computed in exact numbers by a
//! script of its own, and are those of gfortran but where the difference of DIM is out of the kind, or a
//! quotient traps.
use Operand::{Greatest, Least, MinusWidth, Number, Width};
use dc_int::{Kind, Op, OpFault, apply};
use std::test::Fail;

/// A number by the kind: itself, or so many more than the least number, the greatest, or the number of bits;
/// or the negative of the last.
#[derive(Clone, Copy)]
enum Operand {
    Number(i64),
    Least(i64),
    Greatest(i64),
    Width(i64),
    MinusWidth(i64),
}

impl Operand {
    fn at(self, kind: Kind) -> i64 {
        let bits = i64::from(kind.bits());
        match self {
            Number(number) => number,
            Least(more) => kind.least().wrapping_add(more),
            Greatest(more) => kind.greatest().wrapping_add(more),
            Width(more) => bits.wrapping_add(more),
            MinusWidth(more) => bits.wrapping_add(more).wrapping_neg(),
        }
    }
}

const KINDS: [Kind; 4] = [Kind::K1, Kind::K2, Kind::K4, Kind::K8];

/// Operations and operands, with what they give at each kind.
const VALUES: &[(Op, Operand, Operand, Operand)] = &[
    (Op::Add, Least(0), Number(-1), Greatest(0)),
    (Op::Add, Greatest(0), Number(1), Least(0)),
    (Op::Add, Least(0), Greatest(0), Number(-1)),
    (Op::Add, Greatest(0), Least(0), Number(-1)),
    (Op::Add, Number(-1), Greatest(0), Greatest(-1)),
    (Op::Add, Number(0), Least(0), Least(0)),
    (Op::Sub, Least(0), Number(-1), Least(1)),
    (Op::Sub, Greatest(0), Number(1), Greatest(-1)),
    (Op::Sub, Least(0), Greatest(0), Number(1)),
    (Op::Sub, Greatest(0), Least(0), Number(-1)),
    (Op::Sub, Number(-1), Greatest(0), Least(0)),
    (Op::Sub, Number(0), Least(0), Least(0)),
    (Op::Mul, Least(0), Number(-1), Least(0)),
    (Op::Mul, Greatest(0), Number(1), Greatest(0)),
    (Op::Mul, Least(0), Greatest(0), Least(0)),
    (Op::Mul, Greatest(0), Least(0), Least(0)),
    (Op::Mul, Number(-1), Greatest(0), Least(1)),
    (Op::Mul, Number(0), Least(0), Number(0)),
    (Op::Div, Least(0), Number(-1), Least(0)),
    (Op::Div, Greatest(0), Number(1), Greatest(0)),
    (Op::Div, Least(0), Greatest(0), Number(-1)),
    (Op::Div, Greatest(0), Least(0), Number(0)),
    (Op::Div, Number(-1), Greatest(0), Number(0)),
    (Op::Div, Number(0), Least(0), Number(0)),
    (Op::Div, Number(-7), Number(3), Number(-2)),
    (Op::Div, Number(7), Number(-3), Number(-2)),
    (Op::Mod, Least(0), Number(-1), Number(0)),
    (Op::Mod, Greatest(0), Number(1), Number(0)),
    (Op::Mod, Least(0), Greatest(0), Number(-1)),
    (Op::Mod, Greatest(0), Least(0), Greatest(0)),
    (Op::Mod, Number(-1), Greatest(0), Number(-1)),
    (Op::Mod, Number(0), Least(0), Number(0)),
    (Op::Mod, Number(-7), Number(3), Number(-1)),
    (Op::Mod, Number(7), Number(-3), Number(1)),
    (Op::Modulo, Least(0), Number(-1), Number(0)),
    (Op::Modulo, Greatest(0), Number(1), Number(0)),
    (Op::Modulo, Least(0), Greatest(0), Greatest(-1)),
    (Op::Modulo, Greatest(0), Least(0), Number(-1)),
    (Op::Modulo, Number(-1), Greatest(0), Greatest(-1)),
    (Op::Modulo, Number(0), Least(0), Number(0)),
    (Op::Modulo, Number(-7), Number(3), Number(2)),
    (Op::Modulo, Number(7), Number(-3), Number(-2)),
    (Op::Min, Least(0), Number(-1), Least(0)),
    (Op::Min, Greatest(0), Number(1), Number(1)),
    (Op::Min, Least(0), Greatest(0), Least(0)),
    (Op::Min, Greatest(0), Least(0), Least(0)),
    (Op::Min, Number(-1), Greatest(0), Number(-1)),
    (Op::Min, Number(0), Least(0), Least(0)),
    (Op::Max, Least(0), Number(-1), Number(-1)),
    (Op::Max, Greatest(0), Number(1), Greatest(0)),
    (Op::Max, Least(0), Greatest(0), Greatest(0)),
    (Op::Max, Greatest(0), Least(0), Greatest(0)),
    (Op::Max, Number(-1), Greatest(0), Greatest(0)),
    (Op::Max, Number(0), Least(0), Number(0)),
    (Op::Sign, Least(0), Number(-1), Least(0)),
    (Op::Sign, Greatest(0), Number(1), Greatest(0)),
    (Op::Sign, Least(0), Greatest(0), Least(0)),
    (Op::Sign, Greatest(0), Least(0), Least(1)),
    (Op::Sign, Number(-1), Greatest(0), Number(1)),
    (Op::Sign, Number(0), Least(0), Number(0)),
    (Op::Sign, Least(0), Number(0), Least(0)),
    (Op::Sign, Greatest(0), Number(-1), Least(1)),
    (Op::Dim, Least(0), Number(-1), Number(0)),
    (Op::Dim, Greatest(0), Number(1), Greatest(-1)),
    (Op::Dim, Least(0), Greatest(0), Number(0)),
    (Op::Dim, Greatest(0), Least(0), Number(-1)),
    (Op::Dim, Number(-1), Greatest(0), Number(0)),
    (Op::Dim, Number(0), Least(0), Least(0)),
    (Op::Dim, Greatest(0), Number(-1), Least(0)),
    (Op::Iand, Least(0), Number(-1), Least(0)),
    (Op::Iand, Greatest(0), Number(1), Number(1)),
    (Op::Iand, Least(0), Greatest(0), Number(0)),
    (Op::Iand, Greatest(0), Least(0), Number(0)),
    (Op::Iand, Number(-1), Greatest(0), Greatest(0)),
    (Op::Iand, Number(0), Least(0), Number(0)),
    (Op::Ior, Least(0), Number(-1), Number(-1)),
    (Op::Ior, Greatest(0), Number(1), Greatest(0)),
    (Op::Ior, Least(0), Greatest(0), Number(-1)),
    (Op::Ior, Greatest(0), Least(0), Number(-1)),
    (Op::Ior, Number(-1), Greatest(0), Number(-1)),
    (Op::Ior, Number(0), Least(0), Least(0)),
    (Op::Ieor, Least(0), Number(-1), Greatest(0)),
    (Op::Ieor, Greatest(0), Number(1), Greatest(-1)),
    (Op::Ieor, Least(0), Greatest(0), Number(-1)),
    (Op::Ieor, Greatest(0), Least(0), Number(-1)),
    (Op::Ieor, Number(-1), Greatest(0), Least(0)),
    (Op::Ieor, Number(0), Least(0), Least(0)),
    (Op::Pow, Least(0), Number(1), Least(0)),
    (Op::Pow, Greatest(0), Number(2), Number(1)),
    (Op::Pow, Greatest(0), Number(3), Greatest(0)),
    (Op::Pow, Number(2), Width(-1), Least(0)),
    (Op::Pow, Number(2), Width(0), Number(0)),
    (Op::Pow, Number(-1), Greatest(0), Number(-1)),
    (Op::Pow, Number(-1), Least(0), Number(1)),
    (Op::Pow, Number(-1), Number(-1), Number(-1)),
    (Op::Pow, Number(1), Least(0), Number(1)),
    (Op::Pow, Number(0), Number(0), Number(1)),
    (Op::Pow, Number(2), Number(-1), Number(0)),
    (Op::Neg, Least(0), Number(0), Least(0)),
    (Op::Neg, Number(-1), Number(0), Number(1)),
    (Op::Neg, Number(0), Number(0), Number(0)),
    (Op::Neg, Number(1), Number(0), Number(-1)),
    (Op::Neg, Greatest(0), Number(0), Least(1)),
    (Op::Abs, Least(0), Number(0), Least(0)),
    (Op::Abs, Number(-1), Number(0), Number(1)),
    (Op::Abs, Number(0), Number(0), Number(0)),
    (Op::Abs, Number(1), Number(0), Number(1)),
    (Op::Abs, Greatest(0), Number(0), Greatest(0)),
    (Op::Not, Least(0), Number(0), Greatest(0)),
    (Op::Not, Number(-1), Number(0), Number(0)),
    (Op::Not, Number(0), Number(0), Number(-1)),
    (Op::Not, Number(1), Number(0), Number(-2)),
    (Op::Not, Greatest(0), Number(0), Least(0)),
    (Op::Popcnt, Least(0), Number(0), Number(1)),
    (Op::Popcnt, Number(-1), Number(0), Width(0)),
    (Op::Popcnt, Number(0), Number(0), Number(0)),
    (Op::Popcnt, Number(1), Number(0), Number(1)),
    (Op::Popcnt, Greatest(0), Number(0), Width(-1)),
    (Op::Ishft, Number(-1), Number(0), Number(-1)),
    (Op::Ishft, Number(-1), Width(-1), Least(0)),
    (Op::Ishft, Number(-1), Width(0), Number(0)),
    (Op::Ishft, Number(-1), MinusWidth(-1), Number(1)),
    (Op::Ishft, Number(-1), MinusWidth(0), Number(0)),
    (Op::Ishft, Greatest(0), Number(1), Number(-2)),
    (Op::Shiftl, Number(-1), Number(0), Number(-1)),
    (Op::Shiftl, Number(-1), Width(-1), Least(0)),
    (Op::Shiftl, Number(-1), Width(0), Number(0)),
    (Op::Shiftl, Least(0), Number(1), Number(0)),
    (Op::Shiftl, Greatest(0), Number(1), Number(-2)),
    (Op::Shiftl, Least(0), Width(0), Number(0)),
    (Op::Shiftr, Number(-1), Number(0), Number(-1)),
    (Op::Shiftr, Number(-1), Width(-1), Number(1)),
    (Op::Shiftr, Number(-1), Width(0), Number(0)),
    (Op::Shiftr, Least(0), Width(0), Number(0)),
    (Op::Shifta, Number(-1), Number(0), Number(-1)),
    (Op::Shifta, Number(-1), Width(-1), Number(-1)),
    (Op::Shifta, Number(-1), Width(0), Number(-1)),
    (Op::Shifta, Least(0), Width(0), Number(-1)),
    (Op::Ibset, Number(-1), Number(0), Number(-1)),
    (Op::Ibset, Number(0), Width(-1), Least(0)),
    (Op::Ibset, Number(-1), Width(-1), Number(-1)),
    (Op::Ibset, Least(0), Number(3), Least(8)),
    (Op::Ibset, Greatest(0), Width(-2), Greatest(0)),
    (Op::Ibclr, Number(-1), Number(0), Number(-2)),
    (Op::Ibclr, Number(0), Width(-1), Number(0)),
    (Op::Ibclr, Number(-1), Width(-1), Greatest(0)),
    (Op::Ibclr, Least(0), Number(3), Least(0)),
];

/// The same at a kind, where it isn't said alike for all.
const NUMBERS: &[(Op, Kind, Operand, Operand, i64)] = &[
    (Op::Pow, Kind::K1, Number(3), Number(5), -13),
    (Op::Pow, Kind::K2, Number(3), Number(5), 243),
    (Op::Pow, Kind::K4, Number(3), Number(5), 243),
    (Op::Pow, Kind::K8, Number(3), Number(5), 243),
    (Op::Pow, Kind::K1, Number(3), Greatest(0), -85),
    (Op::Pow, Kind::K2, Number(3), Greatest(0), -21_845),
    (Op::Pow, Kind::K4, Number(3), Greatest(0), -1_431_655_765),
    (
        Op::Pow,
        Kind::K8,
        Number(3),
        Greatest(0),
        -6_148_914_691_236_517_205,
    ),
    (Op::Ishft, Kind::K1, Least(0), Number(-1), 64),
    (Op::Ishft, Kind::K2, Least(0), Number(-1), 16_384),
    (Op::Ishft, Kind::K4, Least(0), Number(-1), 1_073_741_824),
    (
        Op::Ishft,
        Kind::K8,
        Least(0),
        Number(-1),
        4_611_686_018_427_387_904,
    ),
    (Op::Shiftr, Kind::K1, Least(0), Number(1), 64),
    (Op::Shiftr, Kind::K2, Least(0), Number(1), 16_384),
    (Op::Shiftr, Kind::K4, Least(0), Number(1), 1_073_741_824),
    (
        Op::Shiftr,
        Kind::K8,
        Least(0),
        Number(1),
        4_611_686_018_427_387_904,
    ),
    (Op::Shiftr, Kind::K1, Greatest(0), Number(1), 63),
    (Op::Shiftr, Kind::K2, Greatest(0), Number(1), 16_383),
    (Op::Shiftr, Kind::K4, Greatest(0), Number(1), 1_073_741_823),
    (
        Op::Shiftr,
        Kind::K8,
        Greatest(0),
        Number(1),
        4_611_686_018_427_387_903,
    ),
    (Op::Shifta, Kind::K1, Least(0), Number(1), -64),
    (Op::Shifta, Kind::K2, Least(0), Number(1), -16_384),
    (Op::Shifta, Kind::K4, Least(0), Number(1), -1_073_741_824),
    (
        Op::Shifta,
        Kind::K8,
        Least(0),
        Number(1),
        -4_611_686_018_427_387_904,
    ),
    (Op::Shifta, Kind::K1, Greatest(0), Number(1), 63),
    (Op::Shifta, Kind::K2, Greatest(0), Number(1), 16_383),
    (Op::Shifta, Kind::K4, Greatest(0), Number(1), 1_073_741_823),
    (
        Op::Shifta,
        Kind::K8,
        Greatest(0),
        Number(1),
        4_611_686_018_427_387_903,
    ),
    (Op::Ibclr, Kind::K1, Greatest(0), Width(-2), 63),
    (Op::Ibclr, Kind::K2, Greatest(0), Width(-2), 16_383),
    (Op::Ibclr, Kind::K4, Greatest(0), Width(-2), 1_073_741_823),
    (
        Op::Ibclr,
        Kind::K8,
        Greatest(0),
        Width(-2),
        4_611_686_018_427_387_903,
    ),
];

/// Operations and operands that meet this fault at each kind.
const FAULTS: &[(Op, Operand, Operand, OpFault)] = &[
    (Op::Div, Greatest(0), Number(0), OpFault::Zero),
    (Op::Mod, Greatest(0), Number(0), OpFault::Zero),
    (Op::Modulo, Greatest(0), Number(0), OpFault::Zero),
    (Op::Pow, Number(0), Number(-1), OpFault::Zero),
    (Op::Ishft, Number(-1), Width(1), OpFault::Shift),
    (Op::Ishft, Number(-1), MinusWidth(1), OpFault::Shift),
    (Op::Ishft, Number(1), Least(0), OpFault::Shift),
    (Op::Ishft, Number(1), Greatest(0), OpFault::Shift),
    (Op::Shiftl, Number(-1), Width(1), OpFault::Shift),
    (Op::Shiftl, Number(-1), Number(-1), OpFault::Shift),
    (Op::Shiftl, Number(1), Least(0), OpFault::Shift),
    (Op::Shiftr, Number(-1), Width(1), OpFault::Shift),
    (Op::Shiftr, Number(-1), Number(-1), OpFault::Shift),
    (Op::Shiftr, Number(1), Least(0), OpFault::Shift),
    (Op::Shifta, Number(-1), Width(1), OpFault::Shift),
    (Op::Shifta, Number(-1), Number(-1), OpFault::Shift),
    (Op::Shifta, Number(1), Least(0), OpFault::Shift),
    (Op::Ibset, Number(0), Width(0), OpFault::Shift),
    (Op::Ibset, Number(0), Number(-1), OpFault::Shift),
    (Op::Ibset, Number(1), Least(0), OpFault::Shift),
    (Op::Ibclr, Number(0), Width(0), OpFault::Shift),
    (Op::Ibclr, Number(0), Number(-1), OpFault::Shift),
    (Op::Ibclr, Number(1), Least(0), OpFault::Shift),
];

/// What an operation gives, or `None` where an operand isn't a number of the kind.
fn outcome(op: Op, kind: Kind, a: i64, b: i64) -> Option<Result<i64, OpFault>> {
    if kind.contains(a) && kind.contains(b) {
        Some(apply(op, kind, a, b))
    } else {
        None
    }
}

#[test]
fn operations_at_their_edges(rt: HostRuntime) -> Result<(), Fail> {
    for kind in KINDS {
        for &(op, a, b, value) in VALUES {
            assert_eq!(rt;
                outcome(op, kind, a.at(kind), b.at(kind)),
                Some(Ok(value.at(kind)))
            );
        }
        for &(op, a, b, fault) in FAULTS {
            assert_eq!(rt; outcome(op, kind, a.at(kind), b.at(kind)), Some(Err(fault)));
        }
    }
    for &(op, kind, a, b, value) in NUMBERS {
        assert_eq!(rt; outcome(op, kind, a.at(kind), b.at(kind)), Some(Ok(value)));
    }
    Ok(())
}
