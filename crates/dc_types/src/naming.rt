//! The names inside of loops.

ghost use Rattle.std.specs.Prelude.{◌≡◌, ◌∷◌, IfOk};
ghost use Rattle.dc_types.specs.Loops.{is_among, is_local, local_names, still_counted, still_indexes};

use dc_sorts::IndexName;
use dc_text::{DcList, DcText, NoMemory};
use dc_tree::Local;
use std::alloc::Global;

fn is_among(names: &[DcText], text: &[u8]) -> bool
    ensures { result ≡ is_among names.now text.now }
{
    for name in names {
        if name.as_bytes() == text {
            return true;
        }
    }
    false
}

fn is_in(local: &Local, text: &[u8]) -> bool
    ensures { result ≡ is_among (local_names local.now) text.now }
{
    match local {
        Local::Locals(names) => is_among(names.as_slice(), text),
        Local::Inits(names) => is_among(names.as_slice(), text),
        _ => false,
    }
}

/// Whether a name is LOCAL or LOCAL_INIT.
fn is_local(locality: &[Local], text: &[u8]) -> bool
    ensures { result ≡ is_local locality.now text.now }
{
    for local in locality {
        if is_in(local, text) {
            return true;
        }
    }
    false
}

/// The variables of counted DOs around that aren't hidden in a loop.
#[tactic(auto, using(dc_tree::proofs::Findings::notes, dc_operands::proofs::Gathering::gathering))]
pub(crate) fn still_counted(
    alloc: Global,
    locality: &[Local],
    counted: &[DcText],
) -> Result<DcList<DcText>, NoMemory>
    ensures { IfOk result (λ list. list ≡ still_counted locality.now counted.now) }
{
    let mut list = DcList::new(alloc);
    for name in counted {
        if !is_local(locality, name.as_bytes()) {
            list.push(name.copy(alloc)?)?;
        }
    }
    Ok(list)
}

/// An index of its own with the same name and kind.
fn copy_index(alloc: Global, index: &IndexName) -> Result<IndexName, NoMemory>
    ensures { IfOk result (λ copy. copy ≡ index.now) }
{
    let name = index.name.copy(alloc)?;
    Ok(IndexName {
        name,
        kind: index.kind,
    })
}

/// The indexes around that aren't hidden in a loop.
#[tactic(auto, using(dc_tree::proofs::Findings::notes, dc_operands::proofs::Gathering::gathering))]
pub(crate) fn still_indexes(
    alloc: Global,
    locality: &[Local],
    indexes: &[IndexName],
) -> Result<DcList<IndexName>, NoMemory>
    ensures { IfOk result (λ list. list ≡ still_indexes locality.now indexes.now) }
{
    let mut list = DcList::new(alloc);
    for index in indexes {
        if !is_local(locality, index.name.as_bytes()) {
            list.push(copy_index(alloc, index)?)?;
        }
    }
    Ok(list)
}

/// The variables of counted DOs around, behind that of a loop.
#[tactic(auto, using(dc_tree::proofs::Findings::notes, dc_operands::proofs::Gathering::gathering))]
pub(crate) fn with_counted(
    alloc: Global,
    text: &DcText,
    counted: &[DcText],
) -> Result<DcList<DcText>, NoMemory>
    ensures { IfOk result (λ list. list ≡ text.now ∷ counted.now) }
{
    let mut list = DcList::new(alloc);
    list.push(text.copy(alloc)?)?;
    for name in counted {
        list.push(name.copy(alloc)?)?;
    }
    Ok(list)
}
