//! Assignments to a variable, an element or a whole array.

ghost use Rattle.std.specs.Prelude.{◌≡◌, ◌≤◌, false, map, option_map, IsTrue};
ghost use Rattle.std.specs.List.{list_all};
ghost use Rattle.dc_code.specs.Troubles.{Slots};
ghost use Rattle.dc_entities.specs.Found.{entity_of, bounds_found};
ghost use Rattle.dc_int.specs.declared.fault.Why.{Why};
ghost use Rattle.dc_int.specs.Store.{elements_in};
ghost use Rattle.dc_sorts.specs.Forms.{sort_of_form};
ghost use Rattle.dc_form.specs.BuiltPrograms.{is_held, is_held_target};
ghost use Rattle.dc_tree.specs.Entities.{entity, outside};
ghost use Rattle.dc_tree.specs.Statements.{target_of};
ghost use Rattle.dc_tree.specs.Syntax.{tree};
ghost use Rattle.dc_meaning.specs.declared.stop.Stop.{Stop};
ghost use Rattle.dc_meaning.specs.Actions as actions;
ghost use Rattle.dc_meaning.specs.Storing.{nowhere_fault, assigned, assigned_at, assigned_whole, filled, listed, listed_whole};
ghost use Rattle.dc_meaning.specs.Walking.{Stays};
ghost use Rattle.dc_meaning.specs.WalkScope.{scope_of, own_of, index_names, is_slots, is_spared_name, IsWalk};

use crate::expressions::{all_values, value};
use crate::reading::element_of;
use crate::settling::fault;
use crate::stop::Stop;
use crate::walk::Walk;
use dc_entities::{Found, elements, find};
use dc_int::{ElementId, FaultKind};
use dc_plain::Ledger;
use dc_sorts::{Form, fitted};
use dc_tree::{Expr, Target};
use std::alloc::Global;

/// Stores a value in all elements of a variable.
fn fill(ledger: &mut Ledger, line: u32, variable: u32, size: u32, value: i64) -> Result<(), Stop>
    ensures { (own : Slots) → Stays (λ done. actions.on) own ledger.old
        (λ call. filled line variable value size 0) ledger.new result }
{
    for position in 0..size {
        ledger.set(ElementId { variable, position }, value, line)?;
    }
    Ok(())
}

/// Stores each value in its element of a variable, from the first on.
fn store_each(
    ledger: &mut Ledger,
    line: u32,
    variable: u32,
    form: Form,
    size: u32,
    given: &[i64],
) -> Result<(), Stop>
    ensures { (own : Slots) → Stays (λ done. actions.on) own ledger.old
        (λ call. listed line variable (sort_of_form form) size 0 given.now) ledger.new result }
{
    let mut position = 0;
    for value in given {
        if position == size {
            return Ok(());
        }
        let element = ElementId { variable, position };
        ledger.set(element, fitted(form, *value), line)?;
        position += 1;
    }
    Ok(())
}

/// The end of an assignment to the element with these subscripts of what has none.
fn nowhere(line: u32, subscripts: &[i64]) -> Stop
    ensures { result ≡ Stop.Failed (Why.Fault (nowhere_fault subscripts.now)) line }
{
    match subscripts {
        [] => fault(FaultKind::Undefined, line),
        [_, ..] => fault(FaultKind::Subscript, line),
    }
}

/// Assigns a value to a whole variable.
fn assign_whole(ledger: &mut Ledger, line: u32, found: Found<'_>, given: i64) -> Result<(), Stop>
    requires few { elements_in (bounds_found found) ≤ 4194304 }
    requires outside { is_slots (entity_of found) ≡ false }
    ensures { (own : Slots) → Stays (λ done. actions.on) own ledger.old
        (λ call. assigned_whole line (entity_of found.entry) given) ledger.new result }
{
    match found {
        Found::Variable {
            number,
            form,
            bounds,
        } => fill(ledger, line, number, elements(bounds), fitted(form, given)),
        Found::Constant { .. } | Found::Nothing => Err(fault(FaultKind::Undefined, line)),
        Found::Index(_) => unreachable!(),
    }
}

/// Assigns a value to an element of an outside variable.
fn assign_outside(
    ledger: &mut Ledger,
    line: u32,
    variable: u32,
    form: Form,
    bounds: &[(i64, i64)],
    subscripts: &[i64],
    given: i64,
) -> Result<(), Stop>
    requires { elements_in bounds.now ≤ 4194304 }
    ensures { (own : Slots) → Stays (λ done. actions.on) own ledger.old
        (λ call. assigned_at line (outside variable (sort_of_form form) bounds.now) subscripts.now given)
        ledger.new result }
{
    let element = element_of(line, variable, bounds, subscripts)?;
    ledger.set(element, fitted(form, given), line)?;
    Ok(())
}

/// Assigns a value to the element with these subscripts.
fn assign_element(
    ledger: &mut Ledger,
    line: u32,
    found: Found<'_>,
    subscripts: &[i64],
    given: i64,
) -> Result<(), Stop>
    requires few { elements_in (bounds_found found) ≤ 4194304 }
    requires outside { is_slots (entity_of found) ≡ false }
    ensures { (own : Slots) → Stays (λ done. actions.on) own ledger.old
        (λ call. assigned_at line (entity_of found.entry) subscripts.now given) ledger.new result }
{
    match found {
        Found::Variable {
            number,
            form,
            bounds,
        } => assign_outside(ledger, line, number, form, bounds, subscripts, given),
        Found::Constant { .. } | Found::Nothing => Err(nowhere(line, subscripts)),
        Found::Index(_) => unreachable!(),
    }
}

/// What a name stands for that a statement defines, which is no index.
fn defined<'a>(walk: &Walk<'a>, name: &[u8]) -> Found<'a>
    requires walk { IsWalk walk.now }
    requires spared { IsTrue (is_spared_name (index_names (walk.now).standing) name.now) }
    ensures found { entity_of result ≡ entity (scope_of walk.now) name.now }
    ensures few { elements_in (bounds_found result) ≤ 4194304 }
    ensures outside { is_slots (entity_of result) ≡ false }
{
    find(&walk.standing, walk.numbering, name)
}

/// Assigns a value to a target.
fn assign_to(
    alloc: Global,
    walk: &Walk<'_>,
    ledger: &mut Ledger,
    line: u32,
    target: &Target,
    given: i64,
) -> Result<(), Stop>
    requires walk { IsWalk walk.now }
    requires held { IsTrue (is_held_target (target_of target.now)) }
    requires spared { IsTrue (is_spared_name (index_names (walk.now).standing) (target.now).name) }
    ensures { Stays (λ done. actions.on) (own_of walk.now) ledger.old
        (λ call. assigned (scope_of walk.now) call line (entity (scope_of walk.now) (target.now).name)
        (option_map (map tree) (target.now).subscripts) given)
        ledger.new result }
{
    let found = defined(walk, target.name.as_bytes());
    match &target.subscripts {
        None => assign_whole(ledger, line, found, given),
        Some(subscripts) => {
            let subscripts = all_values(alloc, walk, ledger, line, subscripts.as_slice())?;
            assign_element(ledger, line, found, subscripts.as_slice(), given)
        }
    }
}

/// Carries out an assignment: the value, and then the places.
pub(crate) fn assign(
    alloc: Global,
    walk: &Walk<'_>,
    ledger: &mut Ledger,
    line: u32,
    target: &Target,
    right: &Expr,
) -> Result<(), Stop>
    requires walk { IsWalk walk.now }
    requires target { IsTrue (is_held_target (target_of target.now)) }
    requires right { IsTrue (is_held (tree right.now)) }
    requires spared { IsTrue (is_spared_name (index_names (walk.now).standing) (target.now).name) }
    ensures { Stays (λ done. actions.on) (own_of walk.now) ledger.old
        (λ call. actions.assignment (scope_of walk.now) call line (target_of target.now) (tree right.now)
        (entity (scope_of walk.now) (target.now).name))
        ledger.new result }
{
    let given = value(alloc, walk, ledger, line, right)?;
    assign_to(alloc, walk, ledger, line, target, given)
}

/// Stores the values of a list in the elements of a whole variable.
fn list_whole(ledger: &mut Ledger, line: u32, found: Found<'_>, given: &[i64]) -> Result<(), Stop>
    requires few { elements_in (bounds_found found) ≤ 4194304 }
    requires outside { is_slots (entity_of found) ≡ false }
    ensures { (own : Slots) → Stays (λ done. actions.on) own ledger.old
        (λ call. listed_whole line (entity_of found.entry) given.now) ledger.new result }
{
    match found {
        Found::Variable {
            number,
            form,
            bounds,
        } => store_each(ledger, line, number, form, elements(bounds), given),
        Found::Constant { .. } | Found::Nothing => Err(fault(FaultKind::Undefined, line)),
        Found::Index(_) => unreachable!(),
    }
}

/// Carries out `a = [list]`: all values, and then each is stored in its element.
pub(crate) fn assign_list(
    alloc: Global,
    walk: &Walk<'_>,
    ledger: &mut Ledger,
    line: u32,
    name: &[u8],
    items: &[Expr],
) -> Result<(), Stop>
    requires walk { IsWalk walk.now }
    requires held { IsTrue (list_all is_held (map tree items.now)) }
    requires spared { IsTrue (is_spared_name (index_names (walk.now).standing) name.now) }
    ensures { Stays (λ done. actions.on) (own_of walk.now) ledger.old
        (λ call. actions.filling (scope_of walk.now) call line (map tree items.now)
        (entity (scope_of walk.now) name.now))
        ledger.new result }
{
    let given = all_values(alloc, walk, ledger, line, items)?;
    let found = defined(walk, name);
    list_whole(ledger, line, found, given.as_slice())
}
