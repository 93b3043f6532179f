//! Types.

ghost use Rattle.std.specs.Prelude.{◌≡◌, IfOk, Some};
ghost use Rattle.dc_tree.specs.Syntax.{tree};
ghost use Rattle.dc_tree.specs.Statements.{type_form};
ghost use Rattle.dc_slices.specs.Judging.{judged, seen};
ghost use Rattle.dc_parts.specs.Parts.{is_keyed, past_two, kind, integer_with, type_named, index_type};
ghost use Rattle.dc_parts.specs.Parts as parts;

use dc_slices::{Keyword, Reading, expr, in_brackets, is, known, whole};
use dc_text::NoMemory;
use dc_tree::{Expr, Mark, Token, TypeSpec};
use std::alloc::Global;

fn is_keyed(tokens: &[Token]) -> bool
    ensures { result ≡ is_keyed tokens.now }
{
    match tokens {
        [word, Token::Mark(Mark::Equals), ..] => is(Keyword::Kind, word),
        _ => false,
    }
}

fn past_two(tokens: &[Token]) -> &[Token]
    ensures { result.now ≡ past_two tokens.now }
{
    match tokens {
        [_, _, rest @ ..] => rest,
        _ => &[],
    }
}

/// A kind, and whether `kind =` stands in front of it.
#[tactic(auto, using(dc_slices::proofs::Lists::judged_lemmas))]
fn kind(alloc: Global, tokens: &[Token]) -> Result<Reading<(bool, Expr)>, NoMemory>
    ensures { IfOk result (λ r. seen (λ kind. (kind.0, tree kind.1)) r ≡ judged (kind tokens.now)) }
{
    let keyed = is_keyed(tokens);
    let value = if keyed { past_two(tokens) } else { tokens };
    let value = whole!(expr(alloc, value)?);
    Ok(Reading::Whole((keyed, value)))
}

#[tactic(auto, using(dc_slices::proofs::Lists::judged_lemmas))]
fn integer_with(alloc: Global, tokens: &[Token]) -> Result<Reading<TypeSpec>, NoMemory>
    ensures { IfOk result (λ r. seen type_form r ≡ judged (integer_with tokens.now)) }
{
    if let [] = tokens {
        let selector = None;
        return Ok(Reading::Whole(TypeSpec::Integer {
            keyed: false,
            selector,
        }));
    }
    let Some(inside) = in_brackets(tokens) else {
        return Ok(Reading::Nothing);
    };
    let (keyed, value) = whole!(kind(alloc, inside)?);
    let selector = Some(value);
    Ok(Reading::Whole(TypeSpec::Integer { keyed, selector }))
}

#[tactic(auto, using(dc_slices::proofs::Lists::judged_lemmas))]
fn type_named(alloc: Global, word: Keyword, tokens: &[Token]) -> Result<Reading<TypeSpec>, NoMemory>
    ensures { IfOk result (λ r. seen type_form r ≡ judged (type_named (Some word) tokens.now)) }
{
    match word {
        Keyword::Logical => match tokens {
            [] => Ok(Reading::Whole(TypeSpec::Logical)),
            _ => Ok(Reading::Nothing),
        },
        Keyword::Integer => integer_with(alloc, tokens),
        _ => Ok(Reading::Nothing),
    }
}

/// A type.
#[tactic(auto, using(dc_slices::proofs::Lists::judged_lemmas))]
pub fn type_form(alloc: Global, tokens: &[Token]) -> Result<Reading<TypeSpec>, NoMemory>
    ensures { IfOk result (λ r. seen type_form r ≡ judged (parts.type_form tokens.now)) }
{
    let [Token::Word(text), rest @ ..] = tokens else {
        return Ok(Reading::Nothing);
    };
    let Some(word) = known(text.as_bytes()) else {
        return Ok(Reading::Nothing);
    };
    type_named(alloc, word, rest)
}

/// The type of a loop's indexes.
#[tactic(auto, using(dc_slices::proofs::Lists::judged_lemmas))]
pub fn index_type(alloc: Global, tokens: &[Token]) -> Result<Reading<TypeSpec>, NoMemory>
    ensures { IfOk result (λ r. seen type_form r ≡ judged (index_type tokens.now)) }
{
    let [Token::Word(text), rest @ ..] = tokens else {
        return Ok(Reading::Nothing);
    };
    match known(text.as_bytes()) {
        Some(Keyword::Integer) => integer_with(alloc, rest),
        _ => Ok(Reading::Nothing),
    }
}
