//! The name and the operands of an instruction.

ghost use Rattle.std.specs.Prelude.{◌≡◌, ◌++◌, OnOk};
ghost use Rattle.dc_listing.specs.Instructions.{name, operands};
ghost use Rattle.dc_listing.specs.Words.{fields};

use crate::names::{
    folding_word, kind_word, operation_word, reduction_word, relation_word, truth_word,
};
use crate::words::{put_number, put_signed, put_word};
use dc_code::What;
use dc_text::{DcText, NoMemory};

pub(crate) fn name(what: What) -> &'static [u8]
    ensures { result.now ≡ name what }
{
    match what {
        What::Const { .. } => b"Const",
        What::Truth { .. } => b"Truth",
        What::Drop => b"Drop",
        What::Arith { .. } => b"Arith",
        What::Wrap { .. } => b"Wrap",
        What::Compare { .. } => b"Compare",
        What::And => b"And",
        What::Or => b"Or",
        What::Eqv => b"Eqv",
        What::Neqv => b"Neqv",
        What::Not => b"Not",
        What::Merge => b"Merge",
        What::Subscript { .. } => b"Subscript",
        What::SubscriptSlot { .. } => b"SubscriptSlot",
        What::Load { .. } => b"Load",
        What::LoadSlot { .. } => b"LoadSlot",
        What::Store { .. } => b"Store",
        What::StoreSlot { .. } => b"StoreSlot",
        What::Forget { .. } => b"Forget",
        What::ForgetSlot { .. } => b"ForgetSlot",
        What::PlaceOf { .. } => b"PlaceOf",
        What::PlaceOfSlot { .. } => b"PlaceOfSlot",
        What::PlaceOfDummy { .. } => b"PlaceOfDummy",
        What::LoadDummy { .. } => b"LoadDummy",
        What::StoreDummy { .. } => b"StoreDummy",
        What::Fill { .. } => b"Fill",
        What::FillSlot { .. } => b"FillSlot",
        What::Fold { .. } => b"Fold",
        What::FoldSlot { .. } => b"FoldSlot",
        What::Contribute { .. } => b"Contribute",
        What::Jump { .. } => b"Jump",
        What::JumpFalse { .. } => b"JumpFalse",
        What::Turn => b"Turn",
        What::Back { .. } => b"Back",
        What::Count { .. } => b"Count",
        What::Call { .. } => b"Call",
        What::Return => b"Return",
        What::LoadResult => b"LoadResult",
        What::PutNumber => b"PutNumber",
        What::PutTruth => b"PutTruth",
        What::PutChars { .. } => b"PutChars",
        What::PutAll { .. } => b"PutAll",
        What::PutEnd => b"PutEnd",
        What::TakeNumber { .. } => b"TakeNumber",
        What::TakeTruth => b"TakeTruth",
        What::TakeAll { .. } => b"TakeAll",
        What::TakeEnd { .. } => b"TakeEnd",
        What::Enter { .. } => b"Enter",
        What::End => b"End",
        What::Stop => b"Stop",
        What::ErrorStop => b"ErrorStop",
    }
}

/// Adds the operands.
#[tactic(auto, using(crate::proofs::Fields::adding))]
pub(crate) fn put_operands(text: &mut DcText, what: What) -> Result<(), NoMemory>
    ensures { OnOk result (text.new ≡ text.old ++ fields (operands what)) }
{
    match what {
        What::Const { k, n } => {
            put_word(text, kind_word(k))?;
            put_signed(text, n)
        }
        What::Truth { n } => put_word(text, truth_word(n)),
        What::Drop => Ok(()),
        What::Arith { op, k } => {
            put_word(text, operation_word(op))?;
            put_word(text, kind_word(k))
        }
        What::Wrap { k } => put_word(text, kind_word(k)),
        What::Compare { r } => put_word(text, relation_word(r)),
        What::And => Ok(()),
        What::Or => Ok(()),
        What::Eqv => Ok(()),
        What::Neqv => Ok(()),
        What::Not => Ok(()),
        What::Merge => Ok(()),
        What::Subscript { v } => put_number(text, u64::from(v)),
        What::SubscriptSlot { s } => put_number(text, u64::from(s)),
        What::Load { v } => put_number(text, u64::from(v)),
        What::LoadSlot { s } => put_number(text, u64::from(s)),
        What::Store { v } => put_number(text, u64::from(v)),
        What::StoreSlot { s } => put_number(text, u64::from(s)),
        What::Forget { v } => put_number(text, u64::from(v)),
        What::ForgetSlot { s } => put_number(text, u64::from(s)),
        What::PlaceOf { v } => put_number(text, u64::from(v)),
        What::PlaceOfSlot { s } => put_number(text, u64::from(s)),
        What::PlaceOfDummy { d } => put_number(text, u64::from(d)),
        What::LoadDummy { d } => put_number(text, u64::from(d)),
        What::StoreDummy { d } => put_number(text, u64::from(d)),
        What::Fill { v } => put_number(text, u64::from(v)),
        What::FillSlot { s } => put_number(text, u64::from(s)),
        What::Fold { f, v } => {
            put_word(text, folding_word(f))?;
            put_number(text, u64::from(v))
        }
        What::FoldSlot { f, s } => {
            put_word(text, folding_word(f))?;
            put_number(text, u64::from(s))
        }
        What::Contribute { op, v } => {
            put_word(text, reduction_word(op))?;
            put_number(text, u64::from(v))
        }
        What::Jump { t } => put_number(text, u64::from(t)),
        What::JumpFalse { t } => put_number(text, u64::from(t)),
        What::Turn => Ok(()),
        What::Back { t } => put_number(text, u64::from(t)),
        What::Count { k } => put_word(text, kind_word(k)),
        What::Call { p, n } => {
            put_number(text, u64::from(p))?;
            put_number(text, u64::from(n))
        }
        What::Return => Ok(()),
        What::LoadResult => Ok(()),
        What::PutNumber => Ok(()),
        What::PutTruth => Ok(()),
        What::PutChars { x } => put_number(text, u64::from(x)),
        What::PutAll { v } => put_number(text, u64::from(v)),
        What::PutEnd => Ok(()),
        What::TakeNumber { k } => put_word(text, kind_word(k)),
        What::TakeTruth => Ok(()),
        What::TakeAll { v } => put_number(text, u64::from(v)),
        What::TakeEnd { n } => put_number(text, u64::from(n)),
        What::Enter { c } => put_number(text, u64::from(c)),
        What::End => Ok(()),
        What::Stop => Ok(()),
        What::ErrorStop => Ok(()),
    }
}
