//! The tokens of a whole statement.

ghost use Rattle.std.specs.Prelude.{◌≡◌, IfOk, OnOk};
ghost use Rattle.dc_lexer.specs.Answers.{Answers};
ghost use Rattle.dc_lexer.specs.Progress.{finish, with_lexeme, Reads};

use crate::bytes::{from, past_blanks};
use crate::found::{Reading, Scanned};
use crate::lexemes::lexeme;
use crate::limits::{is_large, is_long};
use crate::words::push_lexeme;
use dc_text::{DcList, NoMemory};
use dc_tree::{Fail, LeastFinding, Logical, Token};
use std::alloc::Global;

const NO_LEXEME: u8 = 8;

const LONG_WORD: u8 = 9;

const LARGE_NUMBER: u8 = 10;

impl Reading {
    /// Adds the tokens of a lexeme.
    fn add(&mut self, alloc: Global, lexeme: Token) -> Result<(), NoMemory>
        ensures { OnOk result (self.new ≡ with_lexeme self.old lexeme) }
    {
        self.has_long = self.has_long || is_long(&lexeme);
        self.has_large = self.has_large || is_large(&lexeme);
        push_lexeme(alloc, &mut self.tokens, lexeme)
    }
}

/// Reads a text to its end, also past words that are too long and numbers that are too large.
/// There is none where something is left at which no lexeme begins.
fn reading_of(alloc: Global, text: &[u8]) -> Result<Option<Reading>, NoMemory>
    ensures { IfOk result (λ reading. Reads text.now reading) }
{
    let mut reading = Reading {
        tokens: DcList::new(alloc),
        has_long: false,
        has_large: false,
    };
    let mut rest = past_blanks(text);
    while !rest.is_empty() {
        let Some(found) = lexeme(alloc, rest)? else {
            return Ok(None);
        };
        let Scanned { length, lexeme } = found;
        reading.add(alloc, lexeme)?;
        rest = past_blanks(from(rest, length));
    }
    Ok(Some(reading))
}

fn finish(reading: Option<Reading>, line: u32) -> Result<DcList<Token>, Fail>
    ensures { result ≡ finish reading line }
{
    let Some(reading) = reading else {
        return Err(Fail::refused(NO_LEXEME, line));
    };
    let mut found = LeastFinding::none();
    found.note_if(reading.has_long, LONG_WORD, line);
    found.note_if(reading.has_large, LARGE_NUMBER, line);
    found.pass()?;
    Ok(reading.tokens)
}

/// The tokens of a statement. It is refused by the least of the rules 8 to 10 that it breaks.
pub fn tokens(alloc: Global, statement: &Logical) -> Result<DcList<Token>, Fail>
    ensures { Answers statement.now result }
{
    let reading = reading_of(alloc, statement.text.as_bytes())?;
    finish(reading, statement.line)
}
