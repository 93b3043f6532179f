//! Words that are added to a text, a blank in front of each.

ghost use Rattle.std.specs.Prelude.{◌≡◌, ◌++◌, ◌∷◌, [], OnOk};
ghost use Rattle.dc_listing.specs.Words.{fields, number, signed};

use dc_text::{DcText, NoMemory};
use itoa::Buffer;

/// Adds a word.
#[tactic(auto, using(crate::proofs::Fields::adding))]
pub(crate) fn put_word(text: &mut DcText, word: &[u8]) -> Result<(), NoMemory>
    ensures { OnOk result (text.new ≡ text.old ++ fields (word.now ∷ [])) }
{
    text.push(b' ')?;
    text.append(word)
}

/// Adds a number with no blank in front.
#[tactic(auto, using(crate::proofs::Numbers::numbers))]
pub(crate) fn put_digits(text: &mut DcText, value: u64) -> Result<(), NoMemory>
    ensures { OnOk result (text.new ≡ text.old ++ number value) }
{
    let mut buffer = Buffer::new();
    text.append(buffer.format(value).as_bytes())
}

/// Adds a number.
#[tactic(auto, using(crate::proofs::Numbers::numbers))]
pub(crate) fn put_number(text: &mut DcText, value: u64) -> Result<(), NoMemory>
    ensures { OnOk result (text.new ≡ text.old ++ fields (number value ∷ [])) }
{
    let mut buffer = Buffer::new();
    put_word(text, buffer.format(value).as_bytes())
}

/// Adds a number with `-` in front where it is negative.
#[tactic(auto, using(crate::proofs::Numbers::numbers))]
pub(crate) fn put_signed(text: &mut DcText, value: i64) -> Result<(), NoMemory>
    ensures { OnOk result (text.new ≡ text.old ++ fields (signed value ∷ [])) }
{
    let mut buffer = Buffer::new();
    put_word(text, buffer.format(value).as_bytes())
}
