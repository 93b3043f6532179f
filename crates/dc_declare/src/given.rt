//! The type and the attributes of a declaration.

ghost use Rattle.std.specs.Prelude.{◌≡◌, IfOk, OnOk, map};
ghost use Rattle.dc_declare.specs.Entities.{plainly, with_attribute, with_attributes, attribute_findings, each_attribute};
ghost use Rattle.dc_sorts.specs.Standing.{standing_of};
ghost use Rattle.dc_tree.specs.Findings.{least_with_all};
ghost use Rattle.dc_tree.specs.Statements.{attribute};

use crate::bounds::{all_bounds, note_bounds};
use crate::types::ElementType;
use dc_sorts::Standing;
use dc_text::{DcList, NoMemory};
use dc_tree::{Attr, Intent, LeastFinding};
use std::alloc::Global;

/// What stands in front of the names of a declaration. `constant` says that PARAMETER does.
#[derive(Drop)]
pub(crate) struct Given {
    pub(crate) form: ElementType,
    pub(crate) constant: bool,
    pub(crate) bounds: DcList<(i64, i64)>,
    pub(crate) intent: Option<Intent>,
}

fn plainly(alloc: Global, form: ElementType) -> Given
    ensures { result ≡ plainly form }
{
    Given {
        form,
        constant: false,
        bounds: DcList::new(alloc),
        intent: None,
    }
}

fn add_attribute(
    alloc: Global,
    standing: &Standing,
    attr: &Attr,
    given: &mut Given,
) -> Result<(), NoMemory>
    ensures { OnOk result (given.new
        ≡ with_attribute (standing_of standing.now) given.old (attribute attr.now)) }
{
    match attr {
        Attr::Parameter => given.constant = true,
        Attr::Dimension(bounds) => {
            given.bounds = all_bounds(alloc, standing, bounds.as_slice())?;
        }
        Attr::Intent(intent) => given.intent = Some(*intent),
    }
    Ok(())
}

/// The type with its attributes.
#[tactic(auto, using(dc_tree::proofs::Findings::notes))]
pub(crate) fn given_with(
    alloc: Global,
    standing: &Standing,
    form: ElementType,
    attrs: &[Attr],
) -> Result<Given, NoMemory>
    ensures { IfOk result (λ given. given
        ≡ with_attributes (standing_of standing.now) (plainly form) (map attribute attrs.now)) }
{
    let mut given = plainly(alloc, form);
    for attr in attrs {
        add_attribute(alloc, standing, attr, &mut given)?;
    }
    Ok(given)
}

#[tactic(auto, using(dc_tree::proofs::Findings::notes))]
fn note_attribute(
    alloc: Global,
    standing: &Standing,
    line: u32,
    attr: &Attr,
    found: &mut LeastFinding,
) -> Result<(), NoMemory>
    ensures { OnOk result (found.new
        ≡ least_with_all found.old (attribute_findings (standing_of standing.now) line
        (attribute attr.now))) }
{
    match attr {
        Attr::Dimension(bounds) => note_bounds(alloc, standing, line, bounds.as_slice(), found),
        Attr::Parameter | Attr::Intent(_) => Ok(()),
    }
}

/// Notes what the bounds among the attributes break.
#[tactic(auto, using(dc_tree::proofs::Findings::notes))]
pub(crate) fn note_attributes(
    alloc: Global,
    standing: &Standing,
    line: u32,
    attrs: &[Attr],
    found: &mut LeastFinding,
) -> Result<(), NoMemory>
    ensures { OnOk result (found.new
        ≡ least_with_all found.old (each_attribute (standing_of standing.now) line
        (map attribute attrs.now))) }
{
    for attr in attrs {
        note_attribute(alloc, standing, line, attr, found)?;
    }
    Ok(())
}
