//! The names that stand for the indexes of a DO CONCURRENT in it.

ghost use Rattle.std.specs.Prelude.{◌≡◌, ◌++◌, map, option_map, IfOk, OnOk};
ghost use Rattle.dc_tree.specs.Literals as literals;
ghost use Rattle.dc_tree.specs.Statements.{type_form, index_ranging};
ghost use Rattle.dc_sorts.specs.Standing.{standing_of};
ghost use Rattle.dc_scope.specs.Headers as headers;

use dc_int::Kind;
use dc_sorts::{Form, IndexName, Meaning, Standing};
use dc_text::{DcList, NoMemory};
use dc_tree::{Index, TypeSpec};
use dc_uses::whole_constant;
use std::alloc::Global;

fn kind_numbered(value: i64) -> Kind
    ensures { result ≡ literals.kind_numbered value }
{
    match value {
        1 => Kind::K1,
        2 => Kind::K2,
        8 => Kind::K8,
        _ => Kind::K4,
    }
}

fn kind_of_number(value: Option<i64>) -> Kind
    ensures { result ≡ headers.kind_of_number value }
{
    match value {
        Some(value) => kind_numbered(value),
        None => Kind::K4,
    }
}

/// The kind that a type names.
fn typed_kind(alloc: Global, standing: &Standing, spec: &TypeSpec) -> Result<Kind, NoMemory>
    ensures { IfOk result (λ kind.
        kind ≡ headers.typed_kind (standing_of standing.now) (type_form spec.now)) }
{
    match spec {
        TypeSpec::Integer {
            selector: Some(selector),
            ..
        } => Ok(kind_of_number(whole_constant(alloc, standing, selector)?)),
        _ => Ok(Kind::K4),
    }
}

fn optional_kind(
    alloc: Global,
    standing: &Standing,
    spec: &Option<TypeSpec>,
) -> Result<Option<Kind>, NoMemory>
    ensures { IfOk result (λ kind. kind ≡ option_map
        (headers.typed_kind (standing_of standing.now)) (option_map type_form spec.now)) }
{
    match spec {
        Some(spec) => Ok(Some(typed_kind(alloc, standing, spec)?)),
        None => Ok(None),
    }
}

/// The kind of an index without a type.
fn untyped_kind(standing: &Standing, text: &[u8]) -> Kind
    ensures { result ≡ headers.untyped_kind (standing_of standing.now) text.now }
{
    match standing.meaning(text) {
        Meaning::Variable {
            form: Form::Whole(kind),
            ..
        } => kind,
        Meaning::Index(kind) => kind,
        _ => Kind::K4,
    }
}

fn index_kind(standing: &Standing, typed: Option<Kind>, text: &[u8]) -> Kind
    ensures { result ≡ headers.index_kind (standing_of standing.now) typed text.now }
{
    match typed {
        Some(kind) => kind,
        None => untyped_kind(standing, text),
    }
}

fn index_name(
    alloc: Global,
    standing: &Standing,
    typed: Option<Kind>,
    index: &Index,
) -> Result<IndexName, NoMemory>
    ensures { IfOk result (λ named. named
        ≡ headers.index_name (standing_of standing.now) typed (index_ranging index.now)) }
{
    let kind = index_kind(standing, typed, index.name.as_bytes());
    let name = index.name.copy(alloc)?;
    Ok(IndexName { name, kind })
}

/// The indexes of a header.
#[tactic(auto, using(dc_tree::proofs::Findings::notes, crate::proofs::Lists::lists))]
fn own_names(
    alloc: Global,
    standing: &Standing,
    typed: Option<Kind>,
    indexes: &[Index],
) -> Result<DcList<IndexName>, NoMemory>
    ensures { IfOk result (λ names. names ≡ map
        (headers.index_name (standing_of standing.now) typed) (map index_ranging indexes.now)) }
{
    let mut names = DcList::new(alloc);
    for index in indexes {
        names.push(index_name(alloc, standing, typed, index)?)?;
    }
    Ok(names)
}

fn copy(alloc: Global, outer: &IndexName) -> Result<IndexName, NoMemory>
    ensures { IfOk result (λ made. made ≡ outer.now) }
{
    let name = outer.name.copy(alloc)?;
    Ok(IndexName {
        name,
        kind: outer.kind,
    })
}

/// Puts the indexes of the loops around behind others.
#[tactic(auto, using(dc_tree::proofs::Findings::notes, crate::proofs::Lists::lists))]
fn add_around(
    alloc: Global,
    names: &mut DcList<IndexName>,
    around: &[IndexName],
) -> Result<(), NoMemory>
    ensures { OnOk result (names.new ≡ names.old ++ around.now) }
{
    for outer in around {
        names.push(copy(alloc, outer)?)?;
    }
    Ok(())
}

/// The indexes of a header, in front of those around.
pub(crate) fn indexes_inside(
    alloc: Global,
    standing: &Standing,
    spec: &Option<TypeSpec>,
    indexes: &[Index],
) -> Result<DcList<IndexName>, NoMemory>
    ensures { IfOk result (λ names. names ≡ headers.indexes_inside (standing_of standing.now)
        (option_map type_form spec.now) (map index_ranging indexes.now)) }
{
    let typed = optional_kind(alloc, standing, spec)?;
    let mut names = own_names(alloc, standing, typed, indexes)?;
    add_around(alloc, &mut names, standing.indexes)?;
    Ok(names)
}
