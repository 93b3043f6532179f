//! Tokens and expressions as texts: a token as its first spelling, and an expression with a pair of
//! brackets round each operation.

use dc_text::{DcText, NoMemory};
use dc_tree::{Arg, Expr, Mark, Suffix, Token};

fn spelling(mark: Mark) -> &'static [u8] {
    match mark {
        Mark::Open => b"(",
        Mark::Close => b")",
        Mark::OpenList => b"[",
        Mark::CloseList => b"]",
        Mark::Comma => b",",
        Mark::Colon => b":",
        Mark::Colons => b"::",
        Mark::Equals => b"=",
        Mark::Plus => b"+",
        Mark::Minus => b"-",
        Mark::Times => b"*",
        Mark::Slash => b"/",
        Mark::Power => b"**",
        Mark::Eq => b".eq.",
        Mark::Ne => b".ne.",
        Mark::Lt => b".lt.",
        Mark::Le => b".le.",
        Mark::Gt => b".gt.",
        Mark::Ge => b".ge.",
        Mark::Not => b".not.",
        Mark::And => b".and.",
        Mark::Or => b".or.",
        Mark::Eqv => b".eqv.",
        Mark::Neqv => b".neqv.",
        Mark::True => b".true.",
        Mark::False => b".false.",
    }
}

fn put_number(out: &mut DcText, digits: &DcText, suffix: &Suffix) -> Result<(), NoMemory> {
    out.append(digits.as_bytes())?;
    match suffix {
        Suffix::Absent => Ok(()),
        Suffix::Digits(kind) => {
            out.append(b"_#")?;
            out.append(kind.as_bytes())
        }
        Suffix::Named(kind) => {
            out.append(b"_")?;
            out.append(kind.as_bytes())
        }
    }
}

/// A token with a blank behind it. Characters stand between `'`, and digits of a kind behind `_#`.
pub(crate) fn put_token(out: &mut DcText, token: &Token) -> Result<(), NoMemory> {
    match token {
        Token::Word(word) => out.append(word.as_bytes())?,
        Token::Number { digits, suffix } => put_number(out, digits, suffix)?,
        Token::Chars(text) => {
            out.push(b'\'')?;
            out.append(text.as_bytes())?;
            out.push(b'\'')?;
        }
        Token::Mark(mark) => out.append(spelling(*mark))?,
    }
    out.push(b' ')
}

#[cycle(put)]
pub(crate) fn put_expr(out: &mut DcText, expr: &Expr) -> Result<(), NoMemory> {
    match expr {
        Expr::Number { digits, suffix } => put_number(out, digits, suffix),
        Expr::Truth(value) => out.push(if *value { b'T' } else { b'F' }),
        Expr::Chars(_) => out.append(b"?"),
        Expr::Name(name) => out.append(name.as_bytes()),
        Expr::Refer { name, args } => {
            out.append(name.as_bytes())?;
            put_args(out, args.as_slice())
        }
        Expr::Paren(inside) => {
            out.append(b"(")?;
            put_expr(out, inside.get())?;
            out.append(b")")
        }
        Expr::Unary { mark, right } => {
            out.append(b"[")?;
            out.append(spelling(*mark))?;
            put_expr(out, right.get())?;
            out.append(b"]")
        }
        Expr::Binary { mark, left, right } => {
            out.append(b"[")?;
            put_expr(out, left.get())?;
            out.append(spelling(*mark))?;
            put_expr(out, right.get())?;
            out.append(b"]")
        }
    }
}

#[cycle(put)]
fn put_args(out: &mut DcText, args: &[Arg]) -> Result<(), NoMemory> {
    out.append(b"{")?;
    for arg in args {
        if arg.keyed {
            out.append(b"kind=")?;
        }
        put_expr(out, &arg.value)?;
        out.append(b",")?;
    }
    out.append(b"}")
}
