//! The instructions of assignments to a variable or an element.

ghost use Rattle.std.specs.Prelude.{◌≡◌, ◌++◌, map, option_map, OnOk, IsTrue};
ghost use Rattle.dc_entities.specs.Found.{entity_of};
ghost use Rattle.dc_sorts.specs.Forms.{sort_of_form};
ghost use Rattle.dc_form.specs.BuiltPrograms.{is_held, is_held_target};
ghost use Rattle.dc_tree.specs.Statements.{target_of};
ghost use Rattle.dc_tree.specs.Syntax.{tree};
ghost use Rattle.dc_actions.specs.Assigning.{conversion_code, storing_code, assignment_code};
ghost use Rattle.dc_actions.specs.Naming.{scope_of, AreNamed};

use crate::names::Names;
use crate::values::{each, value};
use dc_code::What;
use dc_entities::{Found, find};
use dc_meaning::form_of;
use dc_sorts::Form;
use dc_text::{DcList, NoMemory};
use dc_tree::{Expr, Target};
use std::alloc::Global;

/// Adds the wrap of a number where a narrower kind is taken.
#[tactic(auto, using(dc_sorts::proofs::Knowing::gathering))]
pub(crate) fn conversion(whats: &mut DcList<What>, given: Form, taken: Form) -> Result<(), NoMemory>
    ensures { OnOk result (whats.new
        ≡ whats.old ++ conversion_code (sort_of_form given) (sort_of_form taken)) }
{
    match given {
        Form::Whole(wide) => match taken {
            Form::Whole(k) => {
                if k.bits() < wide.bits() {
                    whats.push(What::Wrap { k })
                } else {
                    Ok(())
                }
            }
            Form::Logical => Ok(()),
        },
        Form::Logical => Ok(()),
    }
}

/// Adds how a value on top of the stack is stored in a target, whose subscripts are evaluated
/// before.
#[tactic(auto, using(dc_sorts::proofs::Knowing::gathering))]
fn storing(
    alloc: Global,
    names: &Names<'_>,
    whats: &mut DcList<What>,
    found: Found<'_>,
    target: &Target,
) -> Result<(), NoMemory>
    requires names { AreNamed names.now }
    requires held { IsTrue (is_held_target (target_of target.now)) }
    ensures { OnOk result (whats.new ≡ whats.old ++ storing_code (scope_of names.now)
        (entity_of found.entry) (option_map (map tree) (target.now).subscripts)) }
{
    match found {
        Found::Variable { number, .. } => match &target.subscripts {
            None => whats.push(What::Fill { v: number }),
            Some(subscripts) => {
                each(alloc, names, whats, subscripts.as_slice())?;
                whats.push(What::Subscript { v: number })?;
                whats.push(What::Store { v: number })
            }
        },
        _ => Ok(()),
    }
}

/// Adds the instructions of an assignment: the value, then the subscripts, and then the elements
/// are defined.
#[tactic(auto, using(dc_sorts::proofs::Knowing::gathering))]
pub fn assignment(
    alloc: Global,
    names: &Names<'_>,
    whats: &mut DcList<What>,
    target: &Target,
    right: &Expr,
) -> Result<(), NoMemory>
    requires names { AreNamed names.now }
    requires target { IsTrue (is_held_target (target_of target.now)) }
    requires right { IsTrue (is_held (tree right.now)) }
    ensures { OnOk result (whats.new ≡ whats.old
        ++ assignment_code (scope_of names.now) (target_of target.now) (tree right.now)) }
{
    let found = find(&names.standing, names.numbering, target.name.as_bytes());
    let given = value(alloc, names, whats, right)?;
    conversion(whats, given.form, form_of(found))?;
    storing(alloc, names, whats, found, target)
}
