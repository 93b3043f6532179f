//! Refusals: the first broken rule, and how it is found.

ghost use Rattle.dc_tree.specs.declared.fail.Fail.{Fail};
ghost use Rattle.dc_tree.specs.Findings.{finding, finding_if, least_with, least_with_all, passed, precedes};
ghost use Rattle.std.specs.Prelude.{◌≡◌, None};

use dc_text::NoMemory;
use std::marker::Model;
use thiserror::Error;

/// The rule that a source breaks, by its number, and the line on which it does, counted from 1.
#[derive(Clone, Copy, Debug, PartialEq, Eq)]
pub struct Refusal {
    pub rule: u8,
    pub line: u32,
}

/// Why a phase gives no answer: the source breaks a rule, or memory was wanting.
#[derive(Clone, Copy, Debug, PartialEq, Eq, Error)]
pub enum Fail {
    #[error("line {}: rule {}", .0.line, .0.rule)]
    Refused(Refusal),
    #[error("out of memory")]
    NoMemory,
}

impl Fail {
    /// The refusal by a rule that is broken on a line.
    pub fn refused(rule: u8, line: u32) -> Fail
        ensures { result ≡ Fail.Refused (finding rule line) }
    {
        Fail::Refused(Refusal { rule, line })
    }
}

impl From<NoMemory> for Fail {
    ghost from_gives = { λ _ e. e ≡ Fail.NoMemory };

    fn from(_error: NoMemory) -> Fail {
        Fail::NoMemory
    }
}

/// The least of the broken rules that were noted so far: of those on the least line the least
/// rule. They may be noted in any order.
#[derive(Debug, Drop)]
pub struct LeastFinding {
    refusal: Option<Refusal>,
}

impl Model for LeastFinding {
    ghost use Rattle.std.specs.Prelude.{Option};
    ghost use Rattle.dc_tree.specs.declared.fail.Refusal.{Refusal};

    ghost Value = { Option Refusal };

    ghost view = { λ found. found.refusal };
}

impl LeastFinding {
    /// Nothing was noted.
    pub fn none() -> LeastFinding
        ensures { result ≡ None }
    {
        LeastFinding { refusal: None }
    }

    /// Notes that a rule is broken on a line.
    pub fn note(&mut self, rule: u8, line: u32)
        ensures { self.new ≡ least_with self.old (finding rule line) }
    {
        let next = Refusal { rule, line };
        match self.refusal {
            Some(least) if !precedes(next, least) => {}
            _ => self.refusal = Some(next),
        }
    }

    /// Notes that a rule is broken on a line where the test holds.
    pub fn note_if(&mut self, test: bool, rule: u8, line: u32)
        ensures { self.new ≡ least_with_all self.old (finding_if test rule line) }
    {
        if test {
            self.note(rule, line);
        }
    }

    /// The least that was noted.
    pub fn refusal(&self) -> Option<Refusal>
        ensures { result ≡ self.now }
    {
        self.refusal
    }

    /// Refuses by the least that was noted, if there is one.
    pub fn pass(&self) -> Result<(), Fail>
        ensures { result ≡ passed self.now }
    {
        match self.refusal {
            Some(least) => Err(Fail::Refused(least)),
            None => Ok(()),
        }
    }
}

fn precedes(a: Refusal, b: Refusal) -> bool
    ensures { result ≡ precedes a b }
{
    a.line < b.line || (a.line == b.line && a.rule < b.rule)
}
