//! The statement that is being joined, and those in front of it.

ghost use Rattle.std.specs.Prelude.{◌≡◌, [], None, OnOk};
ghost use Rattle.dc_lines.specs.Joined.{sign, signs_from};
ghost use Rattle.dc_lines.specs.Reading.{begun, write, closed, put_sign, put_signs, put_gap};
ghost use Rattle.dc_lines.specs.Reading.{signs_at, Puts};
ghost use Rattle.dc_lines.specs.declared.draft.Stop.{Stop};

use crate::line::{Context, Joint, behind, context_of, is_apart, is_blank, is_continued, spelled};
use dc_text::{DcList, DcText, NoMemory};
use dc_tree::Logical;
use std::alloc::Global;
use std::mem;

/// The longest statement.
const MOST_BYTES: usize = 1_000_000;

/// The statements that were read, and the text of the next one, with the line on which it begins
/// where it isn't blank.
#[derive(Drop)]
pub(crate) struct Draft {
    pub statements: DcList<Logical>,
    pub text: DcText,
    pub line: Option<u32>,
}

/// Why a draft takes no further character: the statement gets too long, or memory was wanting.
#[derive(Clone, Copy, Debug, PartialEq, Eq)]
pub(crate) enum Stop {
    TooLong,
    NoMemory,
}

impl From<NoMemory> for Stop {
    ghost from_gives = { λ _ e. e ≡ Stop.NoMemory };

    fn from(_error: NoMemory) -> Stop {
        Stop::NoMemory
    }
}

/// The line on which the statement begins, once a character is added.
fn begun(line: Option<u32>, number: u32, byte: u8) -> Option<u32>
    ensures { result ≡ begun line number byte }
{
    match line {
        Some(line) => Some(line),
        None => { if is_blank(byte) { None } else { Some(number) } }
    }
}

impl Draft {
    pub(crate) fn new(alloc: Global) -> Draft
        ensures { result ≡ record { statements = []; text = []; line = None } }
    {
        Draft {
            statements: DcList::new(alloc),
            text: DcText::new(alloc),
            line: None,
        }
    }

    /// Adds a character.
    fn write(&mut self, number: u32, byte: u8) -> Result<(), Stop>
        ensures { Puts (write self.old number byte) self.new result }
    {
        if self.text.len() >= MOST_BYTES {
            return Err(Stop::TooLong);
        }
        self.text.push(byte)?;
        self.line = begun(self.line, number, byte);
        Ok(())
    }

    /// Ends the statement, which is dropped where it is blank.
    fn close(&mut self, alloc: Global) -> Result<(), NoMemory>
        ensures { OnOk result (self.new ≡ closed self.old) }
    {
        let text = mem::replace(&mut self.text, DcText::new(alloc));
        if let Some(line) = self.line {
            self.statements.push(Logical { line, text })?;
        }
        self.line = None;
        Ok(())
    }

    /// Adds a character of a line.
    fn put_sign(
        &mut self,
        alloc: Global,
        context: Context,
        number: u32,
        byte: u8,
    ) -> Result<(), Stop>
        ensures { Puts (put_sign self.old (sign context number byte)) self.new result }
    {
        match (context, byte) {
            (Context::Outside, b';') => Ok(self.close(alloc)?),
            (Context::Outside, b'\t') => self.write(number, b' '),
            _ => self.write(number, byte),
        }
    }

    /// Adds characters of a line, from a context on.
    fn put_signs(
        &mut self,
        alloc: Global,
        mut context: Context,
        number: u32,
        part: &[u8],
    ) -> Result<(), Stop>
        ensures { Puts (put_signs self.old (signs_from context number part.now)) self.new result }
    {
        for byte in part {
            self.put_sign(alloc, context, number, *byte)?;
            context = behind(context, *byte);
        }
        Ok(())
    }

    /// Puts a blank in front of a line that goes on with its first character.
    fn put_gap(&mut self, number: u32, is_apart: bool) -> Result<(), Stop>
        ensures { Puts (put_gap self.old number is_apart) self.new result }
    {
        if is_apart {
            self.write(number, b' ')?;
        }
        Ok(())
    }

    /// Adds a line.
    pub(crate) fn put_line(
        &mut self,
        alloc: Global,
        number: u32,
        joint: Joint,
        line: &[u8],
    ) -> Result<(), Stop>
        ensures { Puts (put_signs self.old (signs_at number joint line.now)) self.new result }
    {
        self.put_gap(number, is_apart(joint, line))?;
        self.put_signs(alloc, context_of(joint), number, spelled(joint, line))?;
        if is_continued(joint, line) {
            Ok(())
        } else {
            Ok(self.close(alloc)?)
        }
    }
}
