//! The indexes of a DO CONCURRENT.

ghost use Rattle.std.specs.Prelude.{◌≡◌, ◌++◌, map, option_map, Some, IfOk};
ghost use Rattle.dc_tree.specs.Literals.{kind_numbered};
ghost use Rattle.dc_tree.specs.Statements.{index_ranging, type_form};
ghost use Rattle.dc_tree.specs.Syntax.{tree};
ghost use Rattle.dc_sorts.specs.Meanings.{declared_meaning};
ghost use Rattle.dc_sorts.specs.Standing.{standing_of};
ghost use Rattle.dc_operands.specs.Operands.{known_at};
ghost use Rattle.dc_types.specs.Loops.{index_kind, index_name, index_names, kind_of_meaning, kind_of_value, typed_kind};

use dc_int::Kind;
use dc_operands::note_operands;
use dc_sorts::{Form, IndexName, Meaning, Standing};
use dc_text::{DcList, NoMemory};
use dc_tree::{Expr, Index, LeastFinding, TypeSpec};
use std::alloc::Global;

fn kind_numbered(value: i64) -> Kind
    ensures { result ≡ kind_numbered value }
{
    match value {
        1 => Kind::K1,
        2 => Kind::K2,
        8 => Kind::K8,
        _ => Kind::K4,
    }
}

fn kind_of_value(value: Option<i64>) -> Kind
    ensures { result ≡ kind_of_value value }
{
    match value {
        Some(value) => kind_numbered(value),
        None => Kind::K4,
    }
}

/// The kind that an expression names.
fn kind_named(alloc: Global, standing: &Standing, expr: &Expr) -> Result<Kind, NoMemory>
    ensures { IfOk result (λ kind. kind
        ≡ kind_of_value (known_at (standing_of standing.now) (tree expr.now)).value) }
{
    let mut noted = LeastFinding::none();
    let known = note_operands(alloc, standing, 0, expr, &mut noted)?;
    Ok(kind_of_value(known.value))
}

fn kind_selected(alloc: Global, standing: &Standing, spec: &TypeSpec) -> Result<Kind, NoMemory>
    ensures { IfOk result (λ kind. Some kind
        ≡ typed_kind (standing_of standing.now) (Some (type_form spec.now))) }
{
    match spec {
        TypeSpec::Integer {
            selector: Some(expr),
            ..
        } => kind_named(alloc, standing, expr),
        _ => Ok(Kind::K4),
    }
}

/// The kind that the type in a header gives its indexes.
pub(crate) fn typed_kind(
    alloc: Global,
    standing: &Standing,
    spec: &Option<TypeSpec>,
) -> Result<Option<Kind>, NoMemory>
    ensures { IfOk result (λ kind. kind
        ≡ typed_kind (standing_of standing.now) (option_map type_form spec.now)) }
{
    match spec {
        Some(spec) => Ok(Some(kind_selected(alloc, standing, spec)?)),
        None => Ok(None),
    }
}

/// What a name is declared as in the unit, whatever index hides it.
fn declared_meaning(standing: &Standing, text: &[u8]) -> Meaning
    ensures { result ≡ declared_meaning
        (standing_of standing.now).symbols (standing_of standing.now).unit text.now }
{
    let outside = Standing {
        symbols: standing.symbols,
        unit: standing.unit,
        indexes: &[],
        counted: standing.counted,
        callees: standing.callees,
    };
    outside.meaning(text)
}

fn kind_of_meaning(meaning: Meaning) -> Kind
    ensures { result ≡ kind_of_meaning meaning }
{
    match meaning {
        Meaning::Variable {
            form: Form::Whole(kind),
            ..
        } => kind,
        _ => Kind::K4,
    }
}

fn index_kind(standing: &Standing, typed: Option<Kind>, text: &[u8]) -> Kind
    ensures { result ≡ index_kind
        (standing_of standing.now).symbols (standing_of standing.now).unit typed text.now }
{
    match typed {
        Some(kind) => kind,
        None => kind_of_meaning(declared_meaning(standing, text)),
    }
}

fn index_name(
    alloc: Global,
    standing: &Standing,
    typed: Option<Kind>,
    index: &Index,
) -> Result<IndexName, NoMemory>
    ensures { IfOk result (λ made. made
        ≡ index_name (standing_of standing.now).symbols (standing_of standing.now).unit typed
        (index_ranging index.now)) }
{
    let name = index.name.copy(alloc)?;
    Ok(IndexName {
        name,
        kind: index_kind(standing, typed, index.name.as_bytes()),
    })
}

/// The indexes of a header in front of those around.
#[tactic(auto, using(dc_tree::proofs::Findings::notes, dc_operands::proofs::Gathering::gathering))]
pub(crate) fn headed(
    alloc: Global,
    standing: &Standing,
    typed: Option<Kind>,
    names: &[Index],
    around: DcList<IndexName>,
) -> Result<DcList<IndexName>, NoMemory>
    ensures { IfOk result (λ list. list
        ≡ index_names (standing_of standing.now) typed (map index_ranging names.now) ++ around) }
{
    let mut list = DcList::new(alloc);
    for index in names {
        list.push(index_name(alloc, standing, typed, index)?)?;
    }
    list.append(around)?;
    Ok(list)
}
