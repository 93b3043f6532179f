//! What one token makes of what was read before it.

ghost use Rattle.std.specs.Prelude.{◌≡◌, IfOk};
ghost use Rattle.dc_tree.specs.Grammar.{left_rank};
ghost use Rattle.dc_tree.specs.Reader.{join, prefixed, opened, started_by_mark, started, operated, closed, separated, ended, followed_by_mark, followed, keyed_by, after_name, after_call, step};
ghost use Rattle.dc_expr.specs.Limited.{limited, applied};
ghost use Rattle.dc_expr.specs.Views.{kept, frame_of, frames_of, state_of};

use crate::marks::{is_binary, is_prefix, left_rank, level};
use crate::measured::{Args, Measured, binary, name, number, paren, refer, truth, unary, with_arg};
use crate::stack::{Pending, need, pop_operator};
use dc_text::{DcList, DcText, NoMemory, Stack};
use dc_tree::{Mark, Token, is_name};
use std::alloc::Global;

/// Where the reader stands: where an operand begins, behind a name and `(`, behind a name alone, or
/// behind a whole operand. `Failed` is for good: no tree spells the tokens.
#[derive(Drop)]
pub(crate) enum Progress {
    Failed,
    Start,
    Called(DcText),
    Named(DcText),
    Whole(Option<Measured>),
}

fn applied(
    alloc: Global,
    part: Pending,
    value: Option<Measured>,
) -> Result<Option<Measured>, NoMemory>
    ensures { IfOk result (λ made. kept made ≡ applied (frame_of part) (kept value)) }
{
    match part {
        Pending::Sign(mark) => unary(alloc, mark, value),
        Pending::Left { mark, left } => binary(alloc, mark, left, value),
        _ => Ok(value),
    }
}

/// Joins a value with the operators of at least this rank that wait for it.
pub(crate) fn join(
    alloc: Global,
    stack: &mut Stack<Pending>,
    least: u8,
    value: Option<Measured>,
) -> Result<Option<Measured>, NoMemory>
    ensures { let joined = join limited least (frames_of stack.old) (kept value) in
        IfOk result (λ made. (frames_of stack.new, kept made) ≡ joined) }
{
    let mut value = value;
    while let Some(part) = pop_operator(stack, least) {
        value = applied(alloc, part, value)?;
    }
    Ok(value)
}

fn prefixed(stack: &mut Stack<Pending>, mark: Mark) -> Result<Progress, NoMemory>
    ensures { IfOk result (λ p. state_of p stack.new ≡ prefixed mark (frames_of stack.old)) }
{
    if need(stack) > level(mark) {
        return Ok(Progress::Failed);
    }
    stack.push(Pending::Sign(mark))?;
    Ok(Progress::Start)
}

fn opened(stack: &mut Stack<Pending>, mark: Mark) -> Result<Progress, NoMemory>
    ensures { IfOk result (λ p. state_of p stack.new ≡ opened limited mark (frames_of stack.old)) }
{
    match mark {
        Mark::True => Ok(Progress::Whole(truth(true))),
        Mark::False => Ok(Progress::Whole(truth(false))),
        Mark::Open => {
            stack.push(Pending::Bracket)?;
            Ok(Progress::Start)
        }
        _ => Ok(Progress::Failed),
    }
}

fn started_by_mark(stack: &mut Stack<Pending>, mark: Mark) -> Result<Progress, NoMemory>
    ensures { let before = frames_of stack.old in
        IfOk result (λ p. state_of p stack.new ≡ started_by_mark limited mark before) }
{
    if is_prefix(mark) {
        prefixed(stack, mark)
    } else {
        opened(stack, mark)
    }
}

/// A token where an operand begins.
fn started(alloc: Global, stack: &mut Stack<Pending>, token: &Token) -> Result<Progress, NoMemory>
    ensures { let before = frames_of stack.old in
        IfOk result (λ p. state_of p stack.new ≡ started limited token.now before) }
{
    match token {
        Token::Word(word) if is_name(word.as_bytes()) => Ok(Progress::Named(word.copy(alloc)?)),
        Token::Number { digits, suffix } => Ok(Progress::Whole(number(alloc, digits, suffix)?)),
        Token::Word(_) | Token::Chars(_) => Ok(Progress::Failed),
        Token::Mark(mark) => started_by_mark(stack, *mark),
    }
}

fn operated(
    alloc: Global,
    stack: &mut Stack<Pending>,
    mark: Mark,
    value: Option<Measured>,
) -> Result<Progress, NoMemory>
    ensures { let joined = join limited (left_rank mark) (frames_of stack.old) (kept value) in
        IfOk result (λ p. state_of p stack.new ≡ operated mark joined) }
{
    let left = join(alloc, stack, left_rank(mark), value)?;
    if need(stack) > level(mark) {
        return Ok(Progress::Failed);
    }
    stack.push(Pending::Left { mark, left })?;
    Ok(Progress::Start)
}

fn closed(
    alloc: Global,
    stack: &mut Stack<Pending>,
    value: Option<Measured>,
) -> Result<Progress, NoMemory>
    ensures { let before = frames_of stack.old in
        IfOk result (λ p. state_of p stack.new ≡ closed limited before (kept value)) }
{
    match stack.pop() {
        Some(Pending::Bracket) => Ok(Progress::Whole(paren(alloc, value)?)),
        Some(Pending::Reference { name, args, keyed }) => {
            let args = with_arg(args, keyed, value)?;
            Ok(Progress::Whole(refer(name, args)))
        }
        _ => Ok(Progress::Failed),
    }
}

fn separated(stack: &mut Stack<Pending>, value: Option<Measured>) -> Result<Progress, NoMemory>
    ensures { let before = frames_of stack.old in
        IfOk result (λ p. state_of p stack.new ≡ separated limited before (kept value)) }
{
    match stack.pop() {
        Some(Pending::Reference { name, args, keyed }) => {
            let args = with_arg(args, keyed, value)?;
            stack.push(Pending::Reference {
                name,
                args,
                keyed: false,
            })?;
            Ok(Progress::Start)
        }
        _ => Ok(Progress::Failed),
    }
}

fn ended(
    alloc: Global,
    stack: &mut Stack<Pending>,
    mark: Mark,
    value: Option<Measured>,
) -> Result<Progress, NoMemory>
    ensures { let joined = join limited 0 (frames_of stack.old) (kept value) in
        IfOk result (λ p. state_of p stack.new ≡ ended limited mark joined) }
{
    let value = join(alloc, stack, 0, value)?;
    match mark {
        Mark::Close => closed(alloc, stack, value),
        Mark::Comma => separated(stack, value),
        _ => Ok(Progress::Failed),
    }
}

fn followed_by_mark(
    alloc: Global,
    stack: &mut Stack<Pending>,
    mark: Mark,
    value: Option<Measured>,
) -> Result<Progress, NoMemory>
    ensures { let before = frames_of stack.old in
        IfOk result
        (λ p. state_of p stack.new ≡ followed_by_mark limited mark before (kept value)) }
{
    if is_binary(mark) {
        operated(alloc, stack, mark, value)
    } else {
        ended(alloc, stack, mark, value)
    }
}

/// A token behind a whole operand.
fn followed(
    alloc: Global,
    stack: &mut Stack<Pending>,
    token: &Token,
    value: Option<Measured>,
) -> Result<Progress, NoMemory>
    ensures { let before = frames_of stack.old in
        IfOk result (λ p. state_of p stack.new ≡ followed limited token.now before (kept value)) }
{
    match token {
        Token::Mark(mark) => followed_by_mark(alloc, stack, *mark, value),
        _ => Ok(Progress::Failed),
    }
}

/// `=` behind a name.
fn keyed_by(stack: &mut Stack<Pending>, word: &DcText) -> Result<Progress, NoMemory>
    ensures { IfOk result (λ p. state_of p stack.new ≡ keyed_by word.now (frames_of stack.old)) }
{
    match stack.pop() {
        Some(
            Pending::Reference {
                name,
                args,
                keyed: false,
            },
        ) if word.as_bytes() == b"kind".as_slice() => {
            stack.push(Pending::Reference {
                name,
                args,
                keyed: true,
            })?;
            Ok(Progress::Start)
        }
        _ => Ok(Progress::Failed),
    }
}

fn after_name(
    alloc: Global,
    stack: &mut Stack<Pending>,
    token: &Token,
    word: DcText,
) -> Result<Progress, NoMemory>
    ensures { let before = frames_of stack.old in
        IfOk result (λ p. state_of p stack.new ≡ after_name limited token.now before word) }
{
    match token {
        Token::Mark(Mark::Open) => Ok(Progress::Called(word)),
        Token::Mark(Mark::Equals) => keyed_by(stack, &word),
        _ => followed(alloc, stack, token, name(word)),
    }
}

fn after_call(
    alloc: Global,
    stack: &mut Stack<Pending>,
    token: &Token,
    word: DcText,
) -> Result<Progress, NoMemory>
    ensures { let before = frames_of stack.old in
        IfOk result (λ p. state_of p stack.new ≡ after_call limited token.now before word) }
{
    let args = Some(Args {
        list: DcList::new(alloc),
        depth: 0,
    });
    if let Token::Mark(Mark::Close) = token {
        return Ok(Progress::Whole(refer(word, args)));
    }
    stack.push(Pending::Reference {
        name: word,
        args,
        keyed: false,
    })?;
    started(alloc, stack, token)
}

/// Reads one token.
pub(crate) fn step(
    alloc: Global,
    stack: &mut Stack<Pending>,
    token: &Token,
    progress: Progress,
) -> Result<Progress, NoMemory>
    ensures { let before = state_of progress stack.old in
        IfOk result (λ p. state_of p stack.new ≡ step limited token.now before) }
{
    match progress {
        Progress::Failed => Ok(Progress::Failed),
        Progress::Start => started(alloc, stack, token),
        Progress::Called(word) => after_call(alloc, stack, token, word),
        Progress::Named(word) => after_name(alloc, stack, token, word),
        Progress::Whole(value) => followed(alloc, stack, token, value),
    }
}
