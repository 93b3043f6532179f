//! Names that are twice among the indexes of a header.

ghost use Rattle.std.specs.Prelude.{◌≡◌, map, IfOk};
ghost use Rattle.dc_tree.specs.Statements.{index_ranging};
ghost use Rattle.dc_scope.specs.Headers as headers;

use dc_text::NoMemory;
use dc_tree::Index;
use std::alloc::Global;
use std::collections::BTreeSet;

/// Whether two indexes have one name.
pub(crate) fn has_twice(alloc: Global, indexes: &[Index]) -> Result<bool, NoMemory>
    ensures { IfOk result (λ twice.
        twice ≡ headers.has_twice (map index_ranging indexes.now)) }
{
    let mut names: BTreeSet<&[u8]> = BTreeSet::new(alloc);
    for index in indexes {
        let is_new = names.insert(index.name.as_bytes())?;
        if !is_new {
            return Ok(true);
        }
    }
    Ok(false)
}
