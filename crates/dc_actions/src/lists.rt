//! The instructions of assignments of a list to an array. Each value is kept in a slot of a group, and when all
//! are there each element is defined.

ghost use Rattle.std.specs.Prelude.{
  ◌≡◌,
  ◌≤◌,
  ◌<◌,
  ◌/◌,
  ◌%◌,
  ◌++◌,
  [],
  ◌∷◌,
  length,
  map,
  pos,
  ◌+ℤ◌,
  IfOk,
  OnOk,
  IsTrue,
};
ghost use Rattle.std.specs.List.{list_all};
ghost use Rattle.dc_int.specs.Store.{extent, elements_in};
ghost use Rattle.dc_sorts.specs.Forms.{sort_of_form};
ghost use Rattle.dc_form.specs.BuiltPrograms.{is_held};
ghost use Rattle.dc_tree.specs.Entities.{entity};
ghost use Rattle.dc_tree.specs.Syntax.{tree};
ghost use Rattle.dc_tree.specs.Typing.{sort_of_entity};
ghost use Rattle.dc_actions.specs.Assigning.{
  slot_code,
  keeping_code,
  element_code,
  handing_code,
  filling_code,
  kept_group,
  takes_list,
};
ghost use Rattle.dc_actions.specs.Naming.{scope_of, AreNamed};

use crate::assigning::conversion;
use crate::count::held;
use crate::names::Names;
use crate::values::value;
use dc_code::{Group, What};
use dc_entities::{Found, elements, extent, find};
use dc_int::Kind;
use dc_meaning::form_of;
use dc_sorts::{Form, kind_of};
use dc_text::{DcList, NoMemory};
use dc_tree::Expr;
use std::alloc::Global;

/// The group of slots for so many values of a form.
fn kept(alloc: Global, form: Form, count: usize) -> Result<Group, NoMemory>
    requires { count < 9223372036854775808 }
    ensures { IfOk result (λ group. group ≡ kept_group (sort_of_form form) count) }
{
    let mut bounds = DcList::new(alloc);
    bounds.push((1, count as i64))?;
    Ok(Group {
        kind: kind_of(form),
        logical: matches!(form, Form::Logical),
        bounds,
    })
}

/// Adds the place of a slot of a group, which is counted from 1.
#[tactic(auto, using(dc_sorts::proofs::Knowing::gathering))]
fn slot(whats: &mut DcList<What>, group: u32, before: usize) -> Result<(), NoMemory>
    requires { before < 9223372036854775807 }
    ensures { OnOk result (whats.new ≡ whats.old ++ slot_code group before) }
{
    whats.push(What::Const {
        k: Kind::K4,
        n: before as i64 + 1,
    })?;
    whats.push(What::SubscriptSlot { s: group })
}

/// Adds how each value is evaluated and kept in its slot.
#[tactic(auto, using(dc_sorts::proofs::Knowing::gathering))]
fn keeping(
    alloc: Global,
    names: &Names<'_>,
    whats: &mut DcList<What>,
    form: Form,
    group: u32,
    items: &[Expr],
) -> Result<(), NoMemory>
    requires names { AreNamed names.now }
    requires held { IsTrue (list_all is_held (map tree items.now)) }
    ensures { OnOk result (whats.new ≡ whats.old
        ++ keeping_code (scope_of names.now) (sort_of_form form) group 0 (map tree items.now)) }
{
    for (before, item) in items.iter().enumerate() {
        let given = value(alloc, names, whats, item)?;
        conversion(whats, given.form, form)?;
        slot(whats, group, before)?;
        whats.push(What::StoreSlot { s: group })?;
    }
    Ok(())
}

/// The subscript of a position along a dimension.
fn subscript(dimension: (i64, i64), position: u32) -> i64
    requires some { 1 ≤ extent dimension }
    requires few { extent dimension ≤ 4194304 }
    ensures { result ≡ dimension.0 +ℤ pos (position % extent dimension) }
{
    dimension.0 + i64::from(position % extent(dimension) as u32)
}

/// The position among the elements that have the same subscript along a dimension.
fn later(dimension: (i64, i64), position: u32) -> u32
    requires some { 1 ≤ extent dimension }
    requires few { extent dimension ≤ 4194304 }
    ensures { result ≡ position / extent dimension }
{
    position / extent(dimension) as u32
}

/// Adds the place of the element at a position.
#[tactic(auto, using(dc_sorts::proofs::Knowing::gathering))]
fn element(
    whats: &mut DcList<What>,
    variable: u32,
    bounds: &[(i64, i64)],
    at: u32,
) -> Result<(), NoMemory>
    requires few { elements_in bounds.now ≤ 4194304 }
    requires within { at < elements_in bounds.now }
    ensures { OnOk result (whats.new ≡ whats.old ++ element_code variable bounds.now at) }
{
    let mut position = at;
    for dimension in bounds {
        whats.push(What::Const {
            k: Kind::K8,
            n: subscript(*dimension, position),
        })?;
        position = later(*dimension, position);
    }
    whats.push(What::Subscript { v: variable })
}

/// Adds how each element of a variable is defined with what its slot holds.
#[tactic(auto, using(dc_sorts::proofs::Knowing::gathering))]
fn handing(
    whats: &mut DcList<What>,
    variable: u32,
    bounds: &[(i64, i64)],
    group: u32,
) -> Result<(), NoMemory>
    requires few { elements_in bounds.now ≤ 4194304 }
    ensures { OnOk result (whats.new
        ≡ whats.old ++ handing_code variable bounds.now group 0 (elements_in bounds.now)) }
{
    for before in 0..elements(bounds) {
        slot(whats, group, before as usize)?;
        whats.push(What::LoadSlot { s: group })?;
        element(whats, variable, bounds, before)?;
        whats.push(What::Store { v: variable })?;
    }
    Ok(())
}

/// Adds the instructions of an assignment of a list, and the group that it keeps its values in.
#[tactic(auto, using(dc_sorts::proofs::Knowing::gathering))]
pub fn filling(
    alloc: Global,
    names: &Names<'_>,
    whats: &mut DcList<What>,
    groups: &mut DcList<Group>,
    text: &[u8],
    items: &[Expr],
) -> Result<(), NoMemory>
    requires names { AreNamed names.now }
    requires held { IsTrue (list_all is_held (map tree items.now)) }
    requires list { IsTrue (takes_list (entity (scope_of names.now) text.now)
        (length (map tree items.now))) }
    ensures code { OnOk result (whats.new ≡ whats.old ++ filling_code (scope_of names.now)
        (length groups.old) (map tree items.now) (entity (scope_of names.now) text.now)) }
    ensures groups { OnOk result (groups.new ≡ groups.old
        ++ kept_group (sort_of_entity (entity (scope_of names.now) text.now))
        (length (map tree items.now)) ∷ []) }
{
    let found = find(&names.standing, names.numbering, text);
    let group = held(groups.len())?;
    groups.push(kept(alloc, form_of(found), items.len())?)?;
    match found {
        Found::Variable {
            number,
            form,
            bounds,
        } => {
            keeping(alloc, names, whats, form, group, items)?;
            handing(whats, number, bounds, group)
        }
        _ => Ok(()),
    }
}
