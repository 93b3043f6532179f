//! The statements of a text, from their tokens.

ghost use Rattle.dc_phases.specs.Phases.{IsStatement, breaks_statement};
ghost use Rattle.dc_phases.specs.Lists.{AnswersOne, AnswersEach};

use crate::gathering::Gathered;
use crate::tokened::Tokened;
use dc_stmt::parse_stmt;
use dc_text::{DcList, Stack};
use dc_tree::{Fail, Lined};
use std::alloc::Global;

fn statement(alloc: Global, from: &Tokened) -> Result<Lined, Fail>
    ensures { AnswersOne breaks_statement IsStatement from.now result }
{
    let stmt = parse_stmt(alloc, from.line, from.tokens.as_slice())?;
    Ok(Lined {
        line: from.line,
        stmt,
    })
}

/// The statements that tokens spell. All of them are read before the first broken rule is told.
pub(crate) fn all_statements(alloc: Global, tokens: DcList<Tokened>) -> Result<DcList<Lined>, Fail>
    ensures { AnswersEach breaks_statement IsStatement tokens result }
{
    let mut left = Stack::from_list(tokens);
    let mut gathered = Gathered::new(alloc);
    while let Some(from) = left.pop() {
        gathered.add(statement(alloc, &from))?;
    }
    gathered.finish()
}
