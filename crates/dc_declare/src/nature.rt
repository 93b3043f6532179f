//! What the names of declarations are, and what they may not have.

ghost use Rattle.std.specs.Prelude.{◌≡◌, IfOk};
ghost use Rattle.dc_declare.specs.Entities.{is_result, nature_by, nature_of, is_variable, nature_findings};
ghost use Rattle.dc_tree.specs.Findings.{least_with_all};

use crate::entry::Nature;
use crate::given::Given;
use crate::heading::Heading;
use dc_text::{DcText, NoMemory};
use dc_tree::LeastFinding;

fn is_result(named: &Option<DcText>, name: &[u8]) -> bool
    ensures { result ≡ is_result named.now name.now }
{
    match named {
        Some(text) => text.as_bytes() == name,
        None => false,
    }
}

fn nature_by(constant: bool, place: Option<u32>, is_result: bool) -> Nature
    ensures { result ≡ nature_by constant place is_result }
{
    if let Some(place) = place {
        Nature::Dummy(place)
    } else if is_result {
        Nature::Result
    } else if constant {
        Nature::Constant
    } else {
        Nature::Variable
    }
}

/// The place of a dummy in the width that a symbol keeps it, which is want of memory past that.
fn narrowed(place: Option<usize>) -> Result<Option<u32>, NoMemory>
    ensures { IfOk result (λ made. made ≡ place) }
{
    match place {
        Some(wide) => match u32::try_from(wide) {
            Ok(narrow) => Ok(Some(narrow)),
            Err(_) => Err(NoMemory),
        },
        None => Ok(None),
    }
}

/// What a name is in a unit.
pub(crate) fn nature_of(heading: &Heading, constant: bool, name: &[u8]) -> Result<Nature, NoMemory>
    ensures { IfOk result (λ nature. nature ≡ nature_of heading.now constant name.now) }
{
    if heading.unit == 0 {
        return Ok(nature_by(constant, None, false));
    }
    let place = narrowed(heading.dummies.place(name))?;
    let is_result = is_result(&heading.result, name);
    Ok(nature_by(constant, place, is_result))
}

pub(crate) fn is_variable(nature: Nature) -> bool
    ensures { result ≡ is_variable nature }
{
    match nature {
        Nature::Variable => true,
        Nature::Dummy(_) | Nature::Result | Nature::Constant => false,
    }
}

/// Notes what a name may not have.
#[tactic(auto, using(dc_tree::proofs::Findings::notes))]
pub(crate) fn note_nature(
    line: u32,
    nature: Nature,
    given: &Given,
    array: bool,
    valued: bool,
    found: &mut LeastFinding,
)
    ensures { found.new
        ≡ least_with_all found.old (nature_findings line nature given.now array valued) }
{
    match nature {
        Nature::Dummy(_) => {
            let is_wrong = given.constant || array || given.intent.is_none();
            found.note_if(is_wrong, 26, line);
        }
        Nature::Result => {
            found.note_if(given.constant || array, 21, line);
            found.note_if(given.intent.is_some(), 26, line);
        }
        Nature::Constant => {
            let is_wrong = array || !valued || given.intent.is_some();
            found.note_if(is_wrong, 26, line);
        }
        Nature::Variable => found.note_if(given.intent.is_some(), 26, line),
    }
}
