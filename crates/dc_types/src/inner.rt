//! What stands inside of a loop.

ghost use Rattle.std.specs.Prelude.{◌≡◌, map, option_map, IfOk};
ghost use Rattle.dc_tree.specs.Statements.{index_ranging, type_form};
ghost use Rattle.dc_sorts.specs.Standing.{standing_of};
ghost use Rattle.dc_types.specs.Loops.{in_concurrent, with_loops};

use crate::indexes::{headed, typed_kind};
use crate::naming::{still_counted, still_indexes};
use dc_sorts::{IndexName, Meaning, Standing};
use dc_text::{DcList, DcText, NoMemory};
use dc_tree::{Index, Local, Symbols, TypeSpec};
use std::alloc::Global;

/// The indexes and counted variables inside of a loop.
#[derive(Drop)]
pub(crate) struct Inner {
    pub(crate) indexes: DcList<IndexName>,
    pub(crate) counted: DcList<DcText>,
}

impl Inner {
    /// The names around, but with these indexes and counted variables.
    pub(crate) fn within<'a>(
        &'a self,
        symbols: &'a Symbols,
        unit: u32,
        callees: &'a [DcList<Meaning>],
    ) -> Standing<'a>
        ensures { standing_of result ≡ record {
          symbols = symbols.now;
          unit = unit;
          indexes = (self.now).indexes;
          counted = (self.now).counted;
          callees = callees.now;
        } }
    {
        Standing {
            symbols,
            unit,
            indexes: self.indexes.as_slice(),
            counted: self.counted.as_slice(),
            callees,
        }
    }
}

/// The names in the block of a DO CONCURRENT, and in its mask.
pub(crate) fn in_concurrent(
    alloc: Global,
    standing: &Standing,
    spec: &Option<TypeSpec>,
    names: &[Index],
    locality: &[Local],
) -> Result<Inner, NoMemory>
    ensures { IfOk result (λ inner.
        with_loops (standing_of standing.now) inner.indexes inner.counted
        ≡ in_concurrent (standing_of standing.now) (option_map type_form spec.now)
        (map index_ranging names.now) locality.now) }
{
    let typed = typed_kind(alloc, standing, spec)?;
    let around = still_indexes(alloc, locality, standing.indexes)?;
    let indexes = headed(alloc, standing, typed, names, around)?;
    let counted = still_counted(alloc, locality, standing.counted)?;
    Ok(Inner { indexes, counted })
}
