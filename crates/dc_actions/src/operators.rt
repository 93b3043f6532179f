//! The instructions of operators, and of what names stand for.

ghost use Rattle.std.specs.Prelude.{◌≡◌, ◌++◌, [], ◌∷◌, OnOk};
ghost use Rattle.dc_code.specs.declared.instr.What.{What};
ghost use Rattle.dc_int.specs.Sorts as sorts;
ghost use Rattle.dc_entities.specs.Found.{entity_of};
ghost use Rattle.dc_sorts.specs.Forms.{sort_of_form};
ghost use Rattle.dc_actions.specs.Expressions as expressions;
ghost use Rattle.dc_actions.specs.Expressions.{
  led_code,
  joined_code,
  entity_code,
  operation_code,
  folding_code,
};

use dc_code::{Folding, Relation, What};
use dc_entities::Found;
use dc_int::{Kind, Op};
use dc_sorts::{Form, kind_of};
use dc_text::{DcList, NoMemory};
use dc_tree::Mark;

fn arith(op: Op, form: Form) -> What
    ensures { result ≡ What.Arith op (sorts.kind_of (sort_of_form form)) }
{
    What::Arith {
        op,
        k: kind_of(form),
    }
}

/// Adds what a mark does in front of a value of a form.
#[tactic(auto, using(dc_sorts::proofs::Knowing::gathering))]
pub(crate) fn led(whats: &mut DcList<What>, mark: Mark, form: Form) -> Result<(), NoMemory>
    ensures { OnOk result (whats.new ≡ whats.old ++ led_code mark (sort_of_form form)) }
{
    match mark {
        Mark::Minus => whats.push(arith(Op::Neg, form)),
        Mark::Not => whats.push(What::Not),
        _ => Ok(()),
    }
}

fn compare(r: Relation) -> What
    ensures { result ≡ What.Compare r }
{
    What::Compare { r }
}

fn joining(mark: Mark, form: Form) -> What
    ensures { result ∷ [] ≡ joined_code mark (sort_of_form form) }
{
    match mark {
        Mark::Plus => arith(Op::Add, form),
        Mark::Minus => arith(Op::Sub, form),
        Mark::Times => arith(Op::Mul, form),
        Mark::Slash => arith(Op::Div, form),
        Mark::Power => arith(Op::Pow, form),
        Mark::Eq => compare(Relation::Eq),
        Mark::Ne => compare(Relation::Ne),
        Mark::Lt => compare(Relation::Lt),
        Mark::Le => compare(Relation::Le),
        Mark::Gt => compare(Relation::Gt),
        Mark::Ge => compare(Relation::Ge),
        Mark::And => What::And,
        Mark::Or => What::Or,
        Mark::Eqv => What::Eqv,
        Mark::Neqv => What::Neqv,
        _ => What::Drop,
    }
}

/// Adds what a mark does with two operands, which are brought to a form.
pub(crate) fn joined(whats: &mut DcList<What>, mark: Mark, form: Form) -> Result<(), NoMemory>
    ensures { OnOk result (whats.new ≡ whats.old ++ joined_code mark (sort_of_form form)) }
{
    whats.push(joining(mark, form))
}

/// A constant of a form.
fn constant(form: Form, value: i64) -> What
    ensures { result ∷ [] ≡ expressions.constant_code (sort_of_form form) value }
{
    match form {
        Form::Whole(k) => What::Const { k, n: value },
        Form::Logical => What::Truth { n: value != 0 },
    }
}

/// Adds how the value of what a name stands for is taken, where its subscripts are on the stack.
#[tactic(auto, using(dc_sorts::proofs::Knowing::gathering))]
pub fn entity(whats: &mut DcList<What>, found: Found<'_>) -> Result<(), NoMemory>
    ensures { OnOk result (whats.new ≡ whats.old ++ entity_code (entity_of found.entry)) }
{
    match found {
        Found::Variable { number, .. } => {
            whats.push(What::Subscript { v: number })?;
            whats.push(What::Load { v: number })
        }
        Found::Index(_) => {
            whats.push(What::SubscriptSlot { s: 0 })?;
            whats.push(What::LoadSlot { s: 0 })
        }
        Found::Constant { form, value } => whats.push(constant(form, value)),
        Found::Nothing => Ok(()),
    }
}

/// Adds an operation on the values of its arguments. POPCNT has kind 4.
#[tactic(auto, using(dc_sorts::proofs::Knowing::gathering))]
pub(crate) fn operation(whats: &mut DcList<What>, op: Op, kind: Kind) -> Result<(), NoMemory>
    ensures { OnOk result (whats.new ≡ whats.old ++ operation_code op kind) }
{
    whats.push(What::Arith { op, k: kind })?;
    match op {
        Op::Popcnt => whats.push(What::Wrap { k: Kind::K4 }),
        _ => Ok(()),
    }
}

/// Adds what is made of all elements of an array.
#[tactic(auto, using(dc_sorts::proofs::Knowing::gathering))]
pub(crate) fn folding(
    whats: &mut DcList<What>,
    folding: Folding,
    found: Found<'_>,
) -> Result<(), NoMemory>
    ensures { OnOk result (whats.new ≡ whats.old ++ folding_code folding (entity_of found.entry)) }
{
    match found {
        Found::Variable { number, .. } => whats.push(What::Fold {
            f: folding,
            v: number,
        }),
        Found::Index(_) => whats.push(What::FoldSlot { f: folding, s: 0 }),
        Found::Constant { .. } | Found::Nothing => Ok(()),
    }
}
