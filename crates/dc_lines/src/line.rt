//! What one line is.

ghost use Rattle.std.specs.Prelude.{◌≡◌};
ghost use Rattle.std.specs.Option.{option_copied};
ghost use Rattle.dc_lines.specs.Line.{is_blank, past_blanks, is_outside, is_mark, behind, behind_all, uncommented, is_comment_line, in_front, behind_first, context_of, without_comment, is_continued, context_behind, joint_behind, going_on, is_apart, up_to_last, spelled};

/// Whether a character stands outside of character literals, or in one that this mark encloses.
#[derive(Clone, Copy)]
pub(crate) enum Context {
    Outside,
    Literal(u8),
}

/// How a line is joined to what stands before it: it begins a statement, or it continues one,
/// from this context on.
#[derive(Clone, Copy)]
pub(crate) enum Joint {
    Begins,
    Continues(Context),
}

pub(crate) fn is_blank(byte: u8) -> bool
    ensures { result ≡ is_blank byte }
{
    byte == b' ' || byte == b'\t'
}

fn past_blanks(line: &[u8]) -> &[u8]
    ensures { result.now ≡ past_blanks line.now }
{
    let mut rest = line;
    while let [b' ' | b'\t', tail @ ..] = rest {
        rest = tail;
    }
    rest
}

pub(crate) fn is_outside(context: Context) -> bool
    ensures { result ≡ is_outside context }
{
    match context {
        Context::Outside => true,
        Context::Literal(_mark) => false,
    }
}

fn is_mark(byte: u8) -> bool
    ensures { result ≡ is_mark byte }
{
    byte == b'\'' || byte == b'"'
}

/// The context behind a character.
pub(crate) fn behind(context: Context, byte: u8) -> Context
    ensures { result ≡ behind context byte }
{
    match context {
        Context::Outside => {
            if is_mark(byte) {
                Context::Literal(byte)
            } else {
                Context::Outside
            }
        }
        Context::Literal(mark) => {
            if byte == mark {
                Context::Outside
            } else {
                Context::Literal(mark)
            }
        }
    }
}

fn behind_all(mut context: Context, line: &[u8]) -> Context
    ensures { result ≡ behind_all context line.now }
{
    for byte in line {
        context = behind(context, *byte);
    }
    context
}

/// The characters in front of a comment.
fn uncommented(mut context: Context, line: &[u8]) -> &[u8]
    ensures { result.now ≡ uncommented context line.now }
{
    let mut count = 0;
    for byte in line {
        if is_outside(context) && *byte == b'!' {
            break;
        }
        context = behind(context, *byte);
        count += 1;
    }
    &line[..count]
}

/// Whether a line is blank, or has nothing in front of its comment.
pub(crate) fn is_comment_line(line: &[u8]) -> bool
    ensures { result ≡ is_comment_line line.now }
{
    match past_blanks(line) {
        [] => true,
        [first, ..] => *first == b'!',
    }
}

/// What stands in front of the last character that isn't blank, where that is `&`.
fn in_front(line: &[u8]) -> Option<&[u8]>
    ensures { option_copied result ≡ in_front line.now }
{
    let mut rest = line;
    while let [front @ .., last] = rest {
        if *last == b'&' {
            return Some(front);
        }
        if !is_blank(*last) {
            return None;
        }
        rest = front;
    }
    None
}

/// What follows the first character that isn't blank, where that is `&`.
pub(crate) fn behind_first(line: &[u8]) -> Option<&[u8]>
    ensures { option_copied result ≡ behind_first line.now }
{
    match past_blanks(line) {
        [b'&', rest @ ..] => Some(rest),
        _ => None,
    }
}

pub(crate) fn context_of(joint: Joint) -> Context
    ensures { result ≡ context_of joint }
{
    match joint {
        Joint::Begins => Context::Outside,
        Joint::Continues(context) => context,
    }
}

pub(crate) fn without_comment(joint: Joint, line: &[u8]) -> &[u8]
    ensures { result.now ≡ without_comment joint line.now }
{
    uncommented(context_of(joint), line)
}

pub(crate) fn is_continued(joint: Joint, line: &[u8]) -> bool
    ensures { result ≡ is_continued joint line.now }
{
    in_front(without_comment(joint, line)).is_some()
}

/// The context at the end of a line.
pub(crate) fn context_behind(joint: Joint, line: &[u8]) -> Context
    ensures { result ≡ context_behind joint line.now }
{
    behind_all(context_of(joint), without_comment(joint, line))
}

/// How the next line is joined.
pub(crate) fn joint_behind(joint: Joint, line: &[u8]) -> Joint
    ensures { result ≡ joint_behind joint line.now }
{
    if is_comment_line(line) {
        joint
    } else if is_continued(joint, line) {
        Joint::Continues(context_behind(joint, line))
    } else {
        Joint::Begins
    }
}

/// From where a line goes on with a continued statement.
fn going_on(joint: Joint, line: &[u8]) -> &[u8]
    ensures { result.now ≡ going_on joint line.now }
{
    match joint {
        Joint::Begins => line,
        Joint::Continues(_context) => match behind_first(line) {
            Some(rest) => rest,
            None => line,
        },
    }
}

/// Whether a line goes on with its first character, with a blank between.
pub(crate) fn is_apart(joint: Joint, line: &[u8]) -> bool
    ensures { result ≡ is_apart joint line.now }
{
    match joint {
        Joint::Begins => false,
        Joint::Continues(context) => is_outside(context) && behind_first(line).is_none(),
    }
}

fn up_to_last(line: &[u8]) -> &[u8]
    ensures { result.now ≡ up_to_last line.now }
{
    match in_front(line) {
        Some(front) => front,
        None => line,
    }
}

/// The characters of a line that belong to statements.
pub(crate) fn spelled(joint: Joint, line: &[u8]) -> &[u8]
    ensures { result.now ≡ spelled joint line.now }
{
    up_to_last(going_on(joint, without_comment(joint, line)))
}
