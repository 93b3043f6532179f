//! The types that declarations name.

ghost use Rattle.std.specs.Prelude.{◌≡◌, IfOk, OnOk, option_map};
ghost use Rattle.dc_declare.specs.Types.{kind_told, kind_selected, type_of, selector_findings, type_findings};
ghost use Rattle.dc_sorts.specs.Standing.{standing_of};
ghost use Rattle.dc_tree.specs.Findings.{least_with_all};
ghost use Rattle.dc_tree.specs.Statements.{type_form};
ghost use Rattle.dc_tree.specs.Syntax.{tree};

use dc_int::Kind;
use dc_sorts::Standing;
use dc_text::NoMemory;
use dc_tree::{Expr, LeastFinding, TypeSpec};
use dc_uses::{note_kind, note_uses, whole_constant};
use std::alloc::Global;

/// A type. A LOGICAL has kind `K4`.
#[derive(Clone, Copy, Debug, PartialEq, Eq)]
pub(crate) struct ElementType {
    pub(crate) logical: bool,
    pub(crate) kind: Kind,
}

fn kind_told(value: Option<i64>) -> Kind
    ensures { result ≡ kind_told value }
{
    match value {
        Some(1) => Kind::K1,
        Some(2) => Kind::K2,
        Some(8) => Kind::K8,
        _ => Kind::K4,
    }
}

fn kind_selected(
    alloc: Global,
    standing: &Standing,
    selector: &Option<Expr>,
) -> Result<Kind, NoMemory>
    ensures { IfOk result (λ kind. kind
        ≡ kind_selected (standing_of standing.now) (option_map tree selector.now)) }
{
    match selector {
        Some(expr) => Ok(kind_told(whole_constant(alloc, standing, expr)?)),
        None => Ok(Kind::K4),
    }
}

pub(crate) fn type_of(
    alloc: Global,
    standing: &Standing,
    spec: &TypeSpec,
) -> Result<ElementType, NoMemory>
    ensures { IfOk result (λ type. type ≡ type_of (standing_of standing.now) (type_form spec.now)) }
{
    match spec {
        TypeSpec::Logical => Ok(ElementType {
            logical: true,
            kind: Kind::K4,
        }),
        TypeSpec::Integer { keyed: _, selector } => Ok(ElementType {
            logical: false,
            kind: kind_selected(alloc, standing, selector)?,
        }),
    }
}

#[tactic(auto, using(dc_tree::proofs::Findings::notes))]
fn note_selector(
    alloc: Global,
    standing: &Standing,
    line: u32,
    selector: &Option<Expr>,
    found: &mut LeastFinding,
) -> Result<(), NoMemory>
    ensures { OnOk result (found.new
        ≡ least_with_all found.old (selector_findings (standing_of standing.now) line
        (option_map tree selector.now))) }
{
    let Some(expr) = selector else {
        return Ok(());
    };
    note_uses(alloc, standing, line, expr, found)?;
    note_kind(alloc, standing, line, expr, found)
}

/// Notes what a type breaks.
#[tactic(auto, using(dc_tree::proofs::Findings::notes))]
pub(crate) fn note_type(
    alloc: Global,
    standing: &Standing,
    line: u32,
    spec: &TypeSpec,
    found: &mut LeastFinding,
) -> Result<(), NoMemory>
    ensures { OnOk result (found.new
        ≡ least_with_all found.old (type_findings (standing_of standing.now) line
        (type_form spec.now))) }
{
    match spec {
        TypeSpec::Logical => Ok(()),
        TypeSpec::Integer { keyed: _, selector } => {
            note_selector(alloc, standing, line, selector, found)
        }
    }
}
