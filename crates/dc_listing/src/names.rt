//! The words for what has a name.

ghost use Rattle.std.specs.Prelude.{◌≡◌};
ghost use Rattle.dc_listing.specs.Words.{truth_word, kind_word, operation_word, reduction_word, relation_word, folding_word, passing_word};

use dc_code::{Folding, Passing, Relation};
use dc_int::{Kind, Op, ReduceOp};

pub(crate) fn truth_word(truth: bool) -> &'static [u8]
    ensures { result.now ≡ truth_word truth }
{
    if truth { b"T" } else { b"F" }
}

pub(crate) fn kind_word(kind: Kind) -> &'static [u8]
    ensures { result.now ≡ kind_word kind }
{
    match kind {
        Kind::K1 => b"1",
        Kind::K2 => b"2",
        Kind::K4 => b"4",
        Kind::K8 => b"8",
    }
}

pub(crate) fn operation_word(op: Op) -> &'static [u8]
    ensures { result.now ≡ operation_word op }
{
    match op {
        Op::Add => b"Add",
        Op::Sub => b"Sub",
        Op::Mul => b"Mul",
        Op::Neg => b"Neg",
        Op::Abs => b"Abs",
        Op::Div => b"Div",
        Op::Mod => b"Mod",
        Op::Modulo => b"Modulo",
        Op::Pow => b"Pow",
        Op::Min => b"Min",
        Op::Max => b"Max",
        Op::Sign => b"Sign",
        Op::Dim => b"Dim",
        Op::Iand => b"Iand",
        Op::Ior => b"Ior",
        Op::Ieor => b"Ieor",
        Op::Not => b"Not",
        Op::Ishft => b"Ishft",
        Op::Shiftl => b"Shiftl",
        Op::Shiftr => b"Shiftr",
        Op::Shifta => b"Shifta",
        Op::Ibset => b"Ibset",
        Op::Ibclr => b"Ibclr",
        Op::Popcnt => b"Popcnt",
    }
}

pub(crate) fn reduction_word(op: ReduceOp) -> &'static [u8]
    ensures { result.now ≡ reduction_word op }
{
    match op {
        ReduceOp::Add => b"Add",
        ReduceOp::Mul => b"Mul",
        ReduceOp::And => b"And",
        ReduceOp::Or => b"Or",
        ReduceOp::Eqv => b"Eqv",
        ReduceOp::Neqv => b"Neqv",
        ReduceOp::Max => b"Max",
        ReduceOp::Min => b"Min",
        ReduceOp::Iand => b"Iand",
        ReduceOp::Ior => b"Ior",
        ReduceOp::Ieor => b"Ieor",
    }
}

pub(crate) fn relation_word(relation: Relation) -> &'static [u8]
    ensures { result.now ≡ relation_word relation }
{
    match relation {
        Relation::Eq => b"Eq",
        Relation::Ne => b"Ne",
        Relation::Lt => b"Lt",
        Relation::Le => b"Le",
        Relation::Gt => b"Gt",
        Relation::Ge => b"Ge",
    }
}

pub(crate) fn folding_word(folding: Folding) -> &'static [u8]
    ensures { result.now ≡ folding_word folding }
{
    match folding {
        Folding::Sum => b"Sum",
        Folding::Count => b"Count",
        Folding::Any => b"Any",
        Folding::All => b"All",
    }
}

pub(crate) fn passing_word(passing: Passing) -> &'static [u8]
    ensures { result.now ≡ passing_word passing }
{
    match passing {
        Passing::Value => b"Value",
        Passing::Place => b"Place",
        Passing::OutPlace => b"OutPlace",
    }
}
