//! The tokens of the statements of a text.

ghost use Rattle.dc_lexer.specs.Answers.{broken_in};
ghost use Rattle.dc_phases.specs.Phases.{HasTokens};
ghost use Rattle.dc_phases.specs.Lists.{AnswersOne, AnswersEach};

use crate::gathering::Gathered;
use dc_lexer::tokens;
use dc_text::{DcList, Stack};
use dc_tree::{Fail, Logical, Token};
use std::alloc::Global;

/// The tokens of a statement, with its line.
#[derive(Drop)]
pub(crate) struct Tokened {
    pub line: u32,
    pub tokens: DcList<Token>,
}

fn tokens_of(alloc: Global, statement: &Logical) -> Result<Tokened, Fail>
    ensures { AnswersOne broken_in HasTokens statement.now result }
{
    let tokens = tokens(alloc, statement)?;
    Ok(Tokened {
        line: statement.line,
        tokens,
    })
}

/// The tokens of each statement. All of them are read before the first broken rule is told.
pub(crate) fn all_tokens(
    alloc: Global,
    statements: DcList<Logical>,
) -> Result<DcList<Tokened>, Fail>
    ensures { AnswersEach broken_in HasTokens statements result }
{
    let mut left = Stack::from_list(statements);
    let mut gathered = Gathered::new(alloc);
    while let Some(statement) = left.pop() {
        gathered.add(tokens_of(alloc, &statement))?;
    }
    gathered.finish()
}
