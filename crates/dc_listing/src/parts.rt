//! The words of each part of a code.

ghost use Rattle.std.specs.Prelude.{◌≡◌, ◌++◌, ◌∷◌, [], OnOk};
ghost use Rattle.dc_listing.specs.Listing.{byte_words, text_words, shape_words, dimension_words, dummy_words, group_words, plan_words};
ghost use Rattle.dc_listing.specs.Listing.{entry_words, index_words, header_words, parts_words, construct_words};
ghost use Rattle.dc_listing.specs.Words.{fields, number_or_none, list_words, locality_words};

use crate::listed::{Listed, put_list};
use crate::names::{kind_word, passing_word, reduction_word, truth_word};
use crate::words::{put_number, put_signed, put_word};
use dc_code::{ConstructCode, DummyPlan, Group, Plan};
use dc_int::{Kind, Locality, Shape};
use dc_text::{DcList, DcText, NoMemory};

impl Listed for u32 {
    ghost words = { entry_words };

    fn put(&self, text: &mut DcText) -> Result<(), NoMemory> {
        put_number(text, u64::from(*self))
    }
}

impl Listed for Kind {
    ghost words = { index_words };

    fn put(&self, text: &mut DcText) -> Result<(), NoMemory> {
        put_word(text, kind_word(*self))
    }
}

impl Listed for (i64, i64) {
    ghost words = { dimension_words };

    #[tactic(auto, using(crate::proofs::Fields::adding))]
    fn put(&self, text: &mut DcText) -> Result<(), NoMemory> {
        let (low, high) = *self;
        put_signed(text, low)?;
        put_signed(text, high)
    }
}

impl<T: Listed> Listed for DcList<T> {
    ghost words = { list_words T.words };

    fn put(&self, text: &mut DcText) -> Result<(), NoMemory> {
        put_list(text, self.as_slice())
    }
}

impl Listed for u8 {
    ghost words = { byte_words };

    fn put(&self, text: &mut DcText) -> Result<(), NoMemory> {
        put_number(text, u64::from(*self))
    }
}

impl Listed for DcText {
    ghost words = { text_words };

    fn put(&self, text: &mut DcText) -> Result<(), NoMemory> {
        put_list(text, self.as_bytes())
    }
}

impl Listed for Shape {
    ghost words = { shape_words };

    #[tactic(auto, using(crate::proofs::Fields::adding))]
    fn put(&self, text: &mut DcText) -> Result<(), NoMemory> {
        put_word(text, kind_word(self.kind))?;
        put_word(text, truth_word(self.logical))?;
        put_number(text, u64::from(self.elements))
    }
}

impl Listed for DummyPlan {
    ghost words = { dummy_words };

    #[tactic(auto, using(crate::proofs::Fields::adding))]
    fn put(&self, text: &mut DcText) -> Result<(), NoMemory> {
        put_word(text, kind_word(self.kind))?;
        put_word(text, truth_word(self.logical))?;
        put_word(text, passing_word(self.passing))
    }
}

impl Listed for Group {
    ghost words = { group_words };

    #[tactic(auto, using(crate::proofs::Fields::adding))]
    fn put(&self, text: &mut DcText) -> Result<(), NoMemory> {
        put_word(text, kind_word(self.kind))?;
        put_word(text, truth_word(self.logical))?;
        put_list(text, self.bounds.as_slice())
    }
}

impl Listed for Plan {
    ghost words = { plan_words };

    #[tactic(auto, using(crate::proofs::Fields::adding))]
    fn put(&self, text: &mut DcText) -> Result<(), NoMemory> {
        put_list(text, self.dummies.as_slice())?;
        put_list(text, self.groups.as_slice())
    }
}

impl Listed for Locality {
    ghost words = { locality_words };

    #[tactic(auto, using(crate::proofs::Fields::adding))]
    fn put(&self, text: &mut DcText) -> Result<(), NoMemory> {
        match self {
            Locality::Plain => put_word(text, b"Plain"),
            Locality::Shared => put_word(text, b"Shared"),
            Locality::Local => put_word(text, b"Local"),
            Locality::LocalInit => put_word(text, b"LocalInit"),
            Locality::Reduce(op) => {
                put_word(text, b"Reduce")?;
                put_word(text, reduction_word(*op))
            }
        }
    }
}

#[tactic(auto, using(crate::proofs::Fields::adding))]
fn put_header(text: &mut DcText, construct: &ConstructCode) -> Result<(), NoMemory>
    ensures { OnOk result (text.new ≡ text.old ++ fields (header_words construct.now)) }
{
    put_number(text, u64::from(construct.line))?;
    put_number(text, u64::from(construct.width))?;
    put_list(text, construct.kinds.as_slice())
}

fn put_mask(text: &mut DcText, mask: Option<u32>) -> Result<(), NoMemory>
    ensures { OnOk result (text.new ≡ text.old ++ fields (number_or_none mask ∷ [])) }
{
    match mask {
        None => put_word(text, b"-"),
        Some(mask) => put_number(text, u64::from(mask)),
    }
}

#[tactic(auto, using(crate::proofs::Fields::adding))]
fn put_parts(text: &mut DcText, construct: &ConstructCode) -> Result<(), NoMemory>
    ensures { OnOk result (text.new ≡ text.old ++ fields (parts_words construct.now)) }
{
    put_number(text, u64::from(construct.header))?;
    put_mask(text, construct.mask)?;
    put_number(text, u64::from(construct.body))?;
    put_list(text, construct.localities.as_slice())
}

impl Listed for ConstructCode {
    ghost words = { construct_words };

    #[tactic(auto, using(crate::proofs::Fields::adding))]
    fn put(&self, text: &mut DcText) -> Result<(), NoMemory> {
        put_header(text, self)?;
        put_parts(text, self)
    }
}
