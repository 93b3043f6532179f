//! The tests of SELECT CASE.

ghost use Rattle.std.specs.Prelude.{◌≡◌, ◌++◌, [], ◌∷◌, IfOk, OnOk, IsTrue, Some, map};
ghost use Rattle.std.specs.List.{list_all};
ghost use Rattle.dc_code.specs.declared.instr.What.{What};
ghost use Rattle.dc_int.specs.declared.kind.Kind.{Kind};
ghost use Rattle.dc_int.specs.Sorts.{whole};
ghost use Rattle.dc_form.specs.BuiltPrograms.{is_held};
ghost use Rattle.dc_sorts.specs.Forms.{sort_of_form};
ghost use Rattle.dc_tree.specs.Statements.{case_range};
ghost use Rattle.dc_tree.specs.Syntax.{tree};
ghost use Rattle.dc_tree.specs.Typing.{constant_value};
ghost use Rattle.dc_actions.specs.Naming.{scope_of, AreNamed};
ghost use Rattle.dc_flows.specs.Flows.{
  bound_code,
  truth_code,
  range_code,
  further_range_code,
  ranges_code,
  selector_code,
  selector_sort,
};
ghost use Rattle.dc_flows.specs.FlowsHeld.{is_held_range};

use crate::scalars::{fetch, keep};
use dc_actions::{Names, value};
use dc_code::{Relation, What};
use dc_int::Kind;
use dc_sorts::Form;
use dc_text::{DcList, NoMemory};
use dc_tree::{Expr, Range};
use std::alloc::Global;

/// The value of a constant expression.
fn constant(alloc: Global, names: &Names<'_>, expr: &Expr) -> Result<Option<i64>, NoMemory>
    requires names { AreNamed names.now }
    requires held { IsTrue (is_held (tree expr.now)) }
    ensures { IfOk result (λ value. value ≡ constant_value (scope_of names.now) (tree expr.now)) }
{
    let mut unused = DcList::new(alloc);
    let known = value(alloc, names, &mut unused, expr)?;
    Ok(known.value)
}

/// Adds a comparison of the number on top of the stack with another.
#[tactic(auto, using(dc_sorts::proofs::Knowing::gathering))]
fn compare(whats: &mut DcList<What>, r: Relation, n: i64) -> Result<(), NoMemory>
    ensures { OnOk result (whats.new
        ≡ whats.old ++ (What.Const Kind.K8 n ∷ What.Compare r ∷ [])) }
{
    whats.push(What::Const { k: Kind::K8, n })?;
    whats.push(What::Compare { r })
}

/// Adds a comparison of the number that a group keeps with another.
#[tactic(auto, using(dc_sorts::proofs::Knowing::gathering))]
fn comparison(whats: &mut DcList<What>, group: u32, r: Relation, n: i64) -> Result<(), NoMemory>
    ensures { OnOk result (whats.new ≡ whats.old ++ bound_code group r (Some n)) }
{
    fetch(whats, group)?;
    compare(whats, r, n)
}

/// Adds a comparison of the number that a group keeps with a constant.
fn bound(
    whats: &mut DcList<What>,
    group: u32,
    r: Relation,
    limit: Option<i64>,
) -> Result<(), NoMemory>
    ensures { OnOk result (whats.new ≡ whats.old ++ bound_code group r limit) }
{
    match limit {
        Some(n) => comparison(whats, group, r, n),
        None => whats.push(What::Truth { n: false }),
    }
}

/// Adds a comparison of the truth that a group keeps with a constant.
#[tactic(auto, using(dc_sorts::proofs::Knowing::gathering))]
fn truth(whats: &mut DcList<What>, group: u32, given: Option<i64>) -> Result<(), NoMemory>
    ensures { OnOk result (whats.new ≡ whats.old ++ truth_code group given) }
{
    match given {
        Some(0) => {
            fetch(whats, group)?;
            whats.push(What::Not)
        }
        Some(1) => fetch(whats, group),
        _ => whats.push(What::Truth { n: false }),
    }
}

/// Adds the test of a range of truths.
#[tactic(auto, using(dc_sorts::proofs::Knowing::gathering))]
fn truth_range(
    alloc: Global,
    names: &Names<'_>,
    whats: &mut DcList<What>,
    group: u32,
    asked: &Range,
) -> Result<(), NoMemory>
    requires names { AreNamed names.now }
    requires held { IsTrue (is_held_range (case_range asked.now)) }
    ensures { OnOk result (whats.new ≡ whats.old
        ++ range_code (scope_of names.now) group (sort_of_form Form.Logical) (case_range asked.now)) }
{
    match asked {
        Range::One(expr) => truth(whats, group, constant(alloc, names, expr)?),
        _ => whats.push(What::Truth { n: false }),
    }
}

/// Adds the test of a range of numbers.
#[tactic(auto, using(dc_sorts::proofs::Knowing::gathering))]
fn number_range(
    alloc: Global,
    names: &Names<'_>,
    whats: &mut DcList<What>,
    group: u32,
    kind: Kind,
    asked: &Range,
) -> Result<(), NoMemory>
    requires names { AreNamed names.now }
    requires held { IsTrue (is_held_range (case_range asked.now)) }
    ensures { OnOk result (whats.new ≡ whats.old
        ++ range_code (scope_of names.now) group (whole kind) (case_range asked.now)) }
{
    match asked {
        Range::One(expr) => bound(whats, group, Relation::Eq, constant(alloc, names, expr)?),
        Range::From(low) => bound(whats, group, Relation::Ge, constant(alloc, names, low)?),
        Range::To(high) => bound(whats, group, Relation::Le, constant(alloc, names, high)?),
        Range::Both(low, high) => {
            bound(whats, group, Relation::Ge, constant(alloc, names, low)?)?;
            bound(whats, group, Relation::Le, constant(alloc, names, high)?)?;
            whats.push(What::And)
        }
    }
}

/// Adds the test of a range, by the form of the selector, which a group keeps.
fn one_range(
    alloc: Global,
    names: &Names<'_>,
    whats: &mut DcList<What>,
    group: u32,
    form: Form,
    asked: &Range,
) -> Result<(), NoMemory>
    requires names { AreNamed names.now }
    requires held { IsTrue (is_held_range (case_range asked.now)) }
    ensures { OnOk result (whats.new ≡ whats.old
        ++ range_code (scope_of names.now) group (sort_of_form form) (case_range asked.now)) }
{
    match form {
        Form::Whole(kind) => number_range(alloc, names, whats, group, kind, asked),
        Form::Logical => truth_range(alloc, names, whats, group, asked),
    }
}

/// Adds the test of a range, or what is on top of the stack already.
#[tactic(auto, using(dc_sorts::proofs::Knowing::gathering))]
fn further_range(
    alloc: Global,
    names: &Names<'_>,
    whats: &mut DcList<What>,
    group: u32,
    form: Form,
    asked: &Range,
) -> Result<(), NoMemory>
    requires names { AreNamed names.now }
    requires held { IsTrue (is_held_range (case_range asked.now)) }
    ensures { OnOk result (whats.new ≡ whats.old ++ further_range_code (scope_of names.now) group
        (sort_of_form form) (case_range asked.now)) }
{
    one_range(alloc, names, whats, group, form, asked)?;
    whats.push(What::Or)
}

/// Adds the test of an arm: whether some range has the selector, which a group keeps.
#[tactic(auto, using(dc_sorts::proofs::Knowing::gathering))]
pub(crate) fn ranges(
    alloc: Global,
    names: &Names<'_>,
    whats: &mut DcList<What>,
    group: u32,
    form: Form,
    asked: &[Range],
) -> Result<(), NoMemory>
    requires names { AreNamed names.now }
    requires held { IsTrue (list_all is_held_range (map case_range asked.now)) }
    ensures { OnOk result (whats.new ≡ whats.old ++ ranges_code (scope_of names.now) group
        (sort_of_form form) (map case_range asked.now)) }
{
    whats.push(What::Truth { n: false })?;
    for range in asked {
        further_range(alloc, names, whats, group, form, range)?;
    }
    Ok(())
}

/// Adds the selector, which a group keeps, and tells its form.
#[tactic(auto, using(dc_sorts::proofs::Knowing::gathering))]
pub(crate) fn selector(
    alloc: Global,
    names: &Names<'_>,
    whats: &mut DcList<What>,
    group: u32,
    expr: &Expr,
) -> Result<Form, NoMemory>
    requires names { AreNamed names.now }
    requires held { IsTrue (is_held (tree expr.now)) }
    ensures code { OnOk result (whats.new ≡ whats.old
        ++ selector_code (scope_of names.now) group (Some (tree expr.now))) }
    ensures form { IfOk result (λ form.
        sort_of_form form ≡ selector_sort (scope_of names.now) (Some (tree expr.now))) }
{
    let known = value(alloc, names, whats, expr)?;
    keep(whats, group)?;
    Ok(known.form)
}
