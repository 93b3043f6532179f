//! Reading an expression, a token at a time.

ghost use Rattle.std.specs.Prelude.{◌≡◌, IfOk};
ghost use Rattle.dc_tree.specs.Syntax.{tree};
ghost use Rattle.dc_tree.specs.Reader.{reading, start, run, settled, finish, join};
ghost use Rattle.dc_expr.specs.Answers.{Answers, Gives, IsRead, Reads, outcome, within};
ghost use Rattle.dc_expr.specs.Limited.{limited, told_apart};
ghost use Rattle.dc_expr.specs.Views.{kept, frames_of, state_of};
ghost use Rattle.dc_expr.specs.declared.reader.Miss.{Miss};

use crate::measured::{Measured, name};
use crate::stack::Pending;
use crate::steps::{Progress, join, step};
use dc_text::{NoMemory, Stack};
use dc_tree::{Expr, Fail, Token};
use std::alloc::Global;

const NO_EXPRESSION: u8 = 11;

const TOO_DEEP: u8 = 12;

/// Why tokens give no expression: no tree spells them, or the tree that does is deeper than 256,
/// or memory was wanting.
#[derive(Clone, Copy, Debug, PartialEq, Eq)]
pub enum Miss {
    Nothing,
    Deep,
    NoMemory,
}

impl From<NoMemory> for Miss {
    ghost from_gives = { λ _ e. e ≡ Miss.NoMemory };

    fn from(_error: NoMemory) -> Miss {
        Miss::NoMemory
    }
}

fn run(alloc: Global, stack: &mut Stack<Pending>, tokens: &[Token]) -> Result<Progress, NoMemory>
    ensures { IfOk result (λ p.
        state_of p stack.new ≡ run limited tokens.now (start (frames_of stack.old))) }
{
    let mut progress = Progress::Start;
    for token in tokens {
        progress = step(alloc, stack, token, progress)?;
    }
    Ok(progress)
}

/// The value alone, unless something in front of it is open.
fn settled(alloc: Global, stack: &mut Stack<Pending>, value: Option<Measured>) -> Result<Expr, Miss>
    ensures { let joined = join limited 0 (frames_of stack.old) (kept value) in
        Reads tree (told_apart (settled joined)) result }
{
    let value = join(alloc, stack, 0, value)?;
    if stack.is_empty() {
        match value {
            Some(whole) => Ok(whole.tree),
            None => Err(Miss::Deep),
        }
    } else {
        Err(Miss::Nothing)
    }
}

fn finish(alloc: Global, stack: &mut Stack<Pending>, progress: Progress) -> Result<Expr, Miss>
    ensures { Reads tree (told_apart (finish limited (state_of progress stack.old))) result }
{
    match progress {
        Progress::Named(word) => settled(alloc, stack, name(word)),
        Progress::Whole(value) => settled(alloc, stack, value),
        _ => Err(Miss::Nothing),
    }
}

/// The expression that the tokens spell, all of them.
pub fn read_expr(alloc: Global, tokens: &[Token]) -> Result<Expr, Miss>
    ensures answers { IsRead tokens.now result }
    ensures reads { Reads tree (within (reading tokens.now)) result }
{
    let mut stack = Stack::new(alloc);
    let progress = run(alloc, &mut stack, tokens)?;
    finish(alloc, &mut stack, progress)
}

/// The expression that the tokens spell, all of them. They are refused by rule 11 where no tree
/// spells them, and by rule 12 where one does that is deeper than 256.
pub fn parse_expr(alloc: Global, line: u32, tokens: &[Token]) -> Result<Expr, Fail>
    ensures answers { Answers line tokens.now result }
    ensures gives { Gives tree (outcome line tokens.now) result }
{
    match read_expr(alloc, tokens) {
        Ok(expr) => Ok(expr),
        Err(Miss::Nothing) => Err(Fail::refused(NO_EXPRESSION, line)),
        Err(Miss::Deep) => Err(Fail::refused(TOO_DEEP, line)),
        Err(Miss::NoMemory) => Err(Fail::NoMemory),
    }
}
