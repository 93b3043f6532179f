//! The parts of an expression whose end was not read yet.

ghost use Rattle.std.specs.Prelude.{◌≡◌, ◌∷◌, is_some, MatchOption};
ghost use Rattle.dc_tree.specs.Reader.{need};
ghost use Rattle.dc_expr.specs.Limited.{waits};
ghost use Rattle.dc_expr.specs.Views.{frames_of, operator_of, waiting};

use crate::marks::{level, right_rank};
use crate::measured::{Args, Measured};
use dc_text::{DcText, Stack};
use dc_tree::Mark;

/// A part of an expression whose end was not read yet. A reference has the arguments before the
/// one that is read, and an operator behind its left operand has that operand. The innermost part
/// is the top of a stack. That is on the heap, so that brackets may be as many as a statement has.
#[derive(Drop)]
pub(crate) enum Pending {
    Bracket,
    Reference {
        name: DcText,
        args: Option<Args>,
        keyed: bool,
    },
    Sign(Mark),
    Left {
        mark: Mark,
        left: Option<Measured>,
    },
}

fn operator_of(part: &Pending) -> Option<Mark>
    ensures { result ≡ operator_of part.now }
{
    match part {
        Pending::Sign(mark) => Some(*mark),
        Pending::Left { mark, .. } => Some(*mark),
        _ => None,
    }
}

/// The operator that the innermost part waits with, if it is one.
fn waiting(stack: &Stack<Pending>) -> Option<Mark>
    ensures { result ≡ waiting stack.now }
{
    match stack.top() {
        Some(part) => operator_of(part),
        None => None,
    }
}

/// The least rank of what may stand behind the innermost part.
pub(crate) fn need(stack: &Stack<Pending>) -> u8
    ensures { result ≡ need (frames_of stack.now) }
{
    match waiting(stack) {
        Some(mark) => right_rank(mark),
        None => 0,
    }
}

/// Whether the innermost part is an operator of at least this rank.
fn waits(stack: &Stack<Pending>, least: u8) -> bool
    ensures { result ≡ waits least (frames_of stack.now) }
{
    match waiting(stack) {
        Some(mark) => least <= level(mark),
        None => false,
    }
}

/// Takes off the innermost part if it is an operator of at least this rank.
pub(crate) fn pop_operator(stack: &mut Stack<Pending>, least: u8) -> Option<Pending>
    ensures waits { waits least (frames_of stack.old) ≡ is_some result }
    ensures top { MatchOption result (stack.new ≡ stack.old) (λ top. stack.old ≡ top ∷ stack.new) }
{
    if waits(stack, least) {
        stack.pop()
    } else {
        None
    }
}
