//! The values of constant expressions, where they can be told.

ghost use Rattle.std.specs.Prelude.{◌≡◌, IfOk, OnOk};
ghost use Rattle.dc_tree.specs.Findings.{least_with_all};
ghost use Rattle.dc_tree.specs.Syntax.{tree};
ghost use Rattle.dc_sorts.specs.Standing.{standing_of};
ghost use Rattle.dc_uses.specs.Constants.{constant_of, whole_constant, kind_findings};

use crate::constant::{Constant, constant_known, note_kind_value, whole_value};
use dc_operands::note_operands;
use dc_sorts::Standing;
use dc_text::NoMemory;
use dc_tree::{Expr, LeastFinding};
use std::alloc::Global;

/// The value of a well-typed constant expression, where it can be told.
pub fn constant_of(
    alloc: Global,
    standing: &Standing,
    expr: &Expr,
) -> Result<Option<Constant>, NoMemory>
    ensures { IfOk result (λ constant.
        constant ≡ constant_of (standing_of standing.now) (tree expr.now)) }
{
    let mut found = LeastFinding::none();
    let known = note_operands(alloc, standing, 0, expr, &mut found)?;
    if found.refusal().is_none() {
        Ok(constant_known(known))
    } else {
        Ok(None)
    }
}

/// The value of such an expression of type INTEGER.
pub fn whole_constant(
    alloc: Global,
    standing: &Standing,
    expr: &Expr,
) -> Result<Option<i64>, NoMemory>
    ensures { IfOk result (λ value.
        value ≡ whole_constant (standing_of standing.now) (tree expr.now)) }
{
    Ok(whole_value(constant_of(alloc, standing, expr)?))
}

/// Notes what an expression breaks as the kind of something.
pub fn note_kind(
    alloc: Global,
    standing: &Standing,
    line: u32,
    expr: &Expr,
    found: &mut LeastFinding,
) -> Result<(), NoMemory>
    ensures { OnOk result (found.new ≡ least_with_all found.old
        (kind_findings (standing_of standing.now) line (tree expr.now))) }
{
    note_kind_value(line, whole_constant(alloc, standing, expr)?, found);
    Ok(())
}
