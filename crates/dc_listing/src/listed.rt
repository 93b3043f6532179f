//! Parts of a code that are listed as words.

ghost use Rattle.std.specs.Prelude.{◌≡◌, ◌++◌, ◌∷◌, ℕ, List, OnOk, flat_map};
ghost use Rattle.dc_listing.specs.Words.{fields, list_words, number};

use crate::words::put_number;
use dc_text::{DcList, DcText, NoMemory};

/// What is listed as words.
pub(crate) trait Listed {
    ghost words: { Self → List (List ℕ) };

    fn put(&self, text: &mut DcText) -> Result<(), NoMemory>
        ensures { OnOk result (text.new ≡ text.old ++ fields (words self.now)) };
}

#[tactic(auto, using(crate::proofs::Fields::adding))]
fn put_items<T: Listed>(text: &mut DcText, items: &[T]) -> Result<(), NoMemory>
    ensures { OnOk result (text.new ≡ text.old ++ fields (flat_map T.words items.now)) }
{
    for item in items {
        item.put(text)?;
    }
    Ok(())
}

/// Adds how many items there are, and each of them.
#[tactic(auto, using(crate::proofs::Fields::adding))]
pub(crate) fn put_list<T: Listed>(text: &mut DcText, items: &[T]) -> Result<(), NoMemory>
    ensures { OnOk result (text.new ≡ text.old ++ fields (list_words T.words items.now)) }
{
    put_number(text, items.len() as u64)?;
    put_items(text, items)
}
