//! The functions of the language.

ghost use Rattle.std.specs.Prelude.{◌≡◌, map, option_map};
ghost use Rattle.dc_tree.specs.Intrinsics as tree;
ghost use Rattle.dc_sorts.specs.Functions.{function_of};

use dc_int::Op;

/// A function of ISO/IEC 1539-1:2023, clause 16.9, by what it does with its arguments. `Chosen` is MIN
/// or MAX, `Converted` is INT, and `Total` is SUM.
#[derive(Clone, Copy, Debug, PartialEq, Eq)]
pub enum Intrinsic {
    Operation(Op),
    Chosen(Op),
    Merge,
    Converted,
    Huge,
    BitSize,
    Kind,
    Size,
    LowerBound,
    UpperBound,
    Total,
    Count,
    Any,
    All,
}

const OPERATIONS: [(&[u8], Op); 16] = [
    (b"abs", Op::Abs),
    (b"not", Op::Not),
    (b"mod", Op::Mod),
    (b"modulo", Op::Modulo),
    (b"sign", Op::Sign),
    (b"dim", Op::Dim),
    (b"iand", Op::Iand),
    (b"ior", Op::Ior),
    (b"ieor", Op::Ieor),
    (b"ishft", Op::Ishft),
    (b"shiftl", Op::Shiftl),
    (b"shiftr", Op::Shiftr),
    (b"shifta", Op::Shifta),
    (b"ibset", Op::Ibset),
    (b"ibclr", Op::Ibclr),
    (b"popcnt", Op::Popcnt),
];

const OTHERS: [(&[u8], Intrinsic); 14] = [
    (b"min", Intrinsic::Chosen(Op::Min)),
    (b"max", Intrinsic::Chosen(Op::Max)),
    (b"merge", Intrinsic::Merge),
    (b"int", Intrinsic::Converted),
    (b"huge", Intrinsic::Huge),
    (b"bit_size", Intrinsic::BitSize),
    (b"kind", Intrinsic::Kind),
    (b"size", Intrinsic::Size),
    (b"lbound", Intrinsic::LowerBound),
    (b"ubound", Intrinsic::UpperBound),
    (b"sum", Intrinsic::Total),
    (b"count", Intrinsic::Count),
    (b"any", Intrinsic::Any),
    (b"all", Intrinsic::All),
];

fn operation_named(mut table: &[(&[u8], Op)], name: &[u8]) -> Option<Op>
    ensures { option_map tree.operation result
        ≡ tree.named_in (map (λ e. (e.0.now, tree.operation e.1)) table.entry.now) name.now }
{
    while let [entry, rest @ ..] = table {
        if entry.0 == name {
            return Some(entry.1);
        }
        table = rest;
    }
    None
}

fn function_named(mut table: &[(&[u8], Intrinsic)], name: &[u8]) -> Option<Intrinsic>
    ensures { option_map function_of result
        ≡ tree.named_in (map (λ e. (e.0.now, function_of e.1)) table.entry.now) name.now }
{
    while let [entry, rest @ ..] = table {
        if entry.0 == name {
            return Some(entry.1);
        }
        table = rest;
    }
    None
}

/// The function of the language with a name. A declared name hides it, which isn't asked here.
pub fn intrinsic_named(name: &[u8]) -> Option<Intrinsic>
    ensures { option_map function_of result ≡ tree.intrinsic name.now }
{
    match operation_named(&OPERATIONS, name) {
        Some(op) => Some(Intrinsic::Operation(op)),
        None => function_named(&OTHERS, name),
    }
}
