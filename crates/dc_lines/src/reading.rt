//! One line at a time, from the first to the last.

ghost use Rattle.std.specs.Prelude.{◌≡◌, ◌+◌, ◌≤◌, ◌<◌, ◌^◌, length, Some};
ghost use Rattle.dc_lines.specs.Answer.{Answers};
ghost use Rattle.dc_lines.specs.Reading.{stands, step_on, step, start, read, ended, outcome, Steps, Told};
ghost use Rattle.dc_lines.specs.Rules.{number_of};
ghost use Rattle.dc_tree.specs.Findings.{finding};
ghost use Rattle.dc_tree.specs.declared.fail.Fail.{Fail};
ghost use Rattle.dc_lines.specs.TextLines.{lines_of};

use crate::draft::{Draft, Stop};
use crate::line::{Joint, is_comment_line, joint_behind};
use crate::rule::{Rule, has_foreign, has_open_literal, is_lone, is_long, number_of};
use crate::text_lines::{first_of, from, without_return};
use dc_text::DcList;
use dc_tree::{Fail, Logical};
use std::alloc::Global;

/// Behind so many lines: how the next is joined, and the statements so far.
#[derive(Drop)]
pub(crate) struct Place {
    pub lines: u32,
    pub joint: Joint,
    pub draft: Draft,
}

fn refused(rule: Rule, line: u32) -> Fail
    ensures { result ≡ Fail.Refused (finding (number_of rule) line) }
{
    Fail::refused(number_of(rule), line)
}

impl Place {
    /// In front of the first line.
    fn start(alloc: Global) -> Place
        ensures { stands result ≡ start }
    {
        Place {
            lines: 0,
            joint: Joint::Begins,
            draft: Draft::new(alloc),
        }
    }

    /// Goes behind a line whose characters were added.
    fn step_on(&mut self, is_last: bool, line: &[u8]) -> Result<(), Fail>
        ensures { let drafted = Some self.old.draft in
            Steps (step_on is_last self.old.lines self.old.joint line.now drafted) self.new result }
    {
        if has_foreign(self.joint, line) {
            return Err(refused(Rule::ForeignByte, self.lines));
        }
        if has_open_literal(self.joint, line) {
            return Err(refused(Rule::OpenLiteral, self.lines));
        }
        if is_lone(self.joint, line) && !is_last {
            return Err(refused(Rule::LoneAmpersand, self.lines));
        }
        self.joint = joint_behind(self.joint, line);
        Ok(())
    }

    /// Reads a line.
    fn step(&mut self, alloc: Global, is_last: bool, line: &[u8]) -> Result<(), Fail>
        requires { self.old.lines + 1 < 2 ^ 32 }
        ensures { Steps (step is_last self.old line.now) self.new result }
    {
        self.lines += 1;
        if is_long(line) {
            return Err(refused(Rule::LongLine, self.lines));
        }
        if is_comment_line(line) {
            return Ok(());
        }
        match self.draft.put_line(alloc, self.lines, self.joint, line) {
            Ok(()) => self.step_on(is_last, line),
            Err(Stop::TooLong) => Err(refused(Rule::LongStatement, self.lines)),
            Err(Stop::NoMemory) => Err(Fail::NoMemory),
        }
    }

    /// What is answered behind the last line.
    fn ended(self) -> Result<DcList<Logical>, Fail>
        ensures { Told result (ended self.joint self.lines self.draft.statements) }
    {
        match self.joint {
            Joint::Begins => Ok(self.draft.statements),
            Joint::Continues(_context) => Err(refused(Rule::Unfinished, self.lines)),
        }
    }
}

fn read(alloc: Global, text: &[u8]) -> Result<DcList<Logical>, Fail>
    requires { length text.now ≤ 1048576 }
    ensures { Told result (outcome (read start (lines_of text.now))) }
{
    let mut place = Place::start(alloc);
    let mut rest = text;
    while !rest.is_empty() {
        let line = first_of(rest);
        rest = from(rest, line.len() + 1);
        place.step(alloc, rest.is_empty(), without_return(line))?;
    }
    place.ended()
}

/// Gives the statements of a text, or the first rule of the source form that it breaks: of those
/// on the least line the least.
pub fn split(alloc: Global, text: &[u8]) -> Result<DcList<Logical>, Fail>
    requires { length text.now ≤ 1048576 }
    ensures { Answers text.now result }
{
    read(alloc, text)
}
