//! The reductions of the REDUCE locality.
ghost use Rattle.std.specs.Prelude.{◌≡◌, true};
ghost use Rattle.dc_int.specs.Kinds.{InRange};
ghost use Rattle.dc_int.specs.Operations.{applied};
ghost use Rattle.dc_int.specs.Reductions.{conjunction, disjunction, equivalence, non_equivalence};
ghost use Rattle.dc_int.specs.Reductions.{identity_of, can_combine, combined, faultless_value};

use crate::kind::Kind;
use crate::operation::{Op, ReduceOp};
use crate::table::apply;

/// The value with which an element of a reduction begins.
pub fn identity(op: ReduceOp, kind: Kind) -> i64
    ensures { result ≡ identity_of op kind }
{
    match op {
        ReduceOp::Add | ReduceOp::Or | ReduceOp::Neqv | ReduceOp::Ior | ReduceOp::Ieor => 0,
        ReduceOp::Mul | ReduceOp::And | ReduceOp::Eqv => 1,
        ReduceOp::Max => kind.least(),
        ReduceOp::Min => kind.greatest(),
        ReduceOp::Iand => -1,
    }
}

fn conjunction(a: i64, b: i64) -> i64
    ensures { result ≡ conjunction a b }
{
    i64::from(a != 0 && b != 0)
}

fn disjunction(a: i64, b: i64) -> i64
    ensures { result ≡ disjunction a b }
{
    i64::from(a != 0 || b != 0)
}

fn equivalence(a: i64, b: i64) -> i64
    ensures { result ≡ equivalence a b }
{
    i64::from((a != 0) == (b != 0))
}

fn non_equivalence(a: i64, b: i64) -> i64
    ensures { result ≡ non_equivalence a b }
{
    i64::from((a != 0) != (b != 0))
}

/// An operation that meets no fault.
fn number_of(op: Op, kind: Kind, a: i64, b: i64) -> i64
    requires first { InRange kind a }
    requires second { InRange kind b }
    ensures { result ≡ faultless_value (applied op kind a b) }
{
    apply(op, kind, a, b).unwrap_or(0)
}

/// Two values of a reduction, combined.
#[tactic(auto, using(crate::proofs::Reductions::ranges))]
pub fn combine(op: ReduceOp, kind: Kind, a: i64, b: i64) -> i64
    requires first { can_combine op kind a ≡ true }
    requires second { can_combine op kind b ≡ true }
    ensures { result ≡ combined op kind a b }
{
    match op {
        ReduceOp::Add => number_of(Op::Add, kind, a, b),
        ReduceOp::Mul => number_of(Op::Mul, kind, a, b),
        ReduceOp::And => conjunction(a, b),
        ReduceOp::Or => disjunction(a, b),
        ReduceOp::Eqv => equivalence(a, b),
        ReduceOp::Neqv => non_equivalence(a, b),
        ReduceOp::Max => number_of(Op::Max, kind, a, b),
        ReduceOp::Min => number_of(Op::Min, kind, a, b),
        ReduceOp::Iand => number_of(Op::Iand, kind, a, b),
        ReduceOp::Ior => number_of(Op::Ior, kind, a, b),
        ReduceOp::Ieor => number_of(Op::Ieor, kind, a, b),
    }
}
