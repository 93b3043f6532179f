//! The index of a loop, with its kind.

ghost use Rattle.std.specs.Prelude.{◌≡◌, [], ◌∷◌, IfOk, IsTrue};
ghost use Rattle.dc_entities.specs.Numbering.{numbers_of};
ghost use Rattle.dc_form.specs.BuiltPrograms.{are_built_symbols};
ghost use Rattle.dc_tree.specs.Statements.{index_ranging, statement};
ghost use Rattle.dc_meaning.specs.Looping as looping;
ghost use Rattle.dc_meaning.specs.WalkScope.{kind_of_index};

use crate::arrays::form_of;
use dc_entities::{Numbering, find};
use dc_int::Kind;
use dc_sorts::{IndexName, Standing, kind_of};
use dc_text::{DcList, DcText, NoMemory};
use dc_tree::{Index, Stmt, Symbols};
use std::alloc::Global;

/// The first index of a header.
pub fn first_index(head: &Stmt) -> &Index
    requires { IsTrue (looping.has_index (statement head.now)) }
    ensures { looping.first_index (statement head.now) (index_ranging result.now) }
{
    match head {
        Stmt::Concurrent { indexes, .. } => match indexes.as_slice() {
            [index, ..] => index,
            [] => unreachable!(),
        },
        _ => unreachable!(),
    }
}

/// The kind of the variable that an index is named as.
pub fn index_kind(symbols: &Symbols, numbering: &Numbering, name: &[u8]) -> Kind
    requires symbols { IsTrue (are_built_symbols symbols.now) }
    requires numbers { numbering.now ≡ numbers_of symbols.now }
    ensures { result ≡ kind_of_index symbols.now name.now }
{
    let standing = block_standing(symbols, &[]);
    kind_of(form_of(find(&standing, numbering, name)))
}

/// The index of a loop as a list of names.
pub fn index_list(alloc: Global, name: &DcText, kind: Kind) -> Result<DcList<IndexName>, NoMemory>
    ensures { IfOk result (λ made. made ≡ record { name = name.now; kind = kind } ∷ []) }
{
    let mut made = DcList::new(alloc);
    made.push(IndexName {
        name: name.copy(alloc)?,
        kind,
    })?;
    Ok(made)
}

/// The names that the block of a loop can use.
pub fn block_standing<'a>(symbols: &'a Symbols, indexes: &'a [IndexName]) -> Standing<'a>
    ensures symbols { result.symbols.now ≡ symbols.now }
    ensures unit { result.unit ≡ 0 }
    ensures indexes { result.indexes.now ≡ indexes.now }
{
    Standing {
        symbols,
        unit: 0,
        indexes,
        counted: &[],
        callees: &[],
    }
}
