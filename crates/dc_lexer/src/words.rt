//! Words that may be written as one.

ghost use Rattle.std.specs.Prelude.{◌≡◌, ◌++◌, map, option_map, OnOk};
ghost use Rattle.dc_lexer.specs.Scan.{split_in};
ghost use Rattle.dc_lexer.specs.Tokens.{joined, split, tokens_of_one, word_tokens};

use dc_text::{DcList, DcText, NoMemory};
use dc_tree::Token;
use std::alloc::Global;

/// A joined word, and the two words that it stands for.
type Split<'a> = (&'a [u8], &'a [u8], &'a [u8]);

const SPLITS: [Split<'static>; 8] = [
    (b"enddo", b"end", b"do"),
    (b"endif", b"end", b"if"),
    (b"elseif", b"else", b"if"),
    (b"endprogram", b"end", b"program"),
    (b"endfunction", b"end", b"function"),
    (b"endsubroutine", b"end", b"subroutine"),
    (b"selectcase", b"select", b"case"),
    (b"endselect", b"end", b"select"),
];

fn split_in<'a>(mut table: &[Split<'a>], word: &[u8]) -> Option<(&'a [u8], &'a [u8])>
    ensures { option_map (λ pair. record { first = pair.0.now; second = pair.1.now }) result
        ≡ split_in
        (map (λ e. record { whole = e.0.now; first = e.1.now; second = e.2.now }) table.entry.now)
        word.now }
{
    while let [entry, rest @ ..] = table {
        if entry.0 == word {
            return Some((entry.1, entry.2));
        }
        table = rest;
    }
    None
}

/// The two words that a word stands for, if it is joined.
fn split(word: &[u8]) -> Option<(&'static [u8], &'static [u8])>
    ensures { option_map (λ pair. record { first = pair.0.now; second = pair.1.now }) result
        ≡ split joined word.now }
{
    split_in(&SPLITS, word)
}

fn push_word(alloc: Global, tokens: &mut DcList<Token>, word: DcText) -> Result<(), NoMemory>
    ensures { OnOk result (tokens.new ≡ tokens.old ++ word_tokens word (split joined word)) }
{
    match split(word.as_bytes()) {
        Some((first, second)) => {
            tokens.push(Token::Word(DcText::from_bytes(alloc, first)?))?;
            tokens.push(Token::Word(DcText::from_bytes(alloc, second)?))
        }
        None => tokens.push(Token::Word(word)),
    }
}

/// Adds the tokens of a lexeme: two where it is a joined word.
pub(crate) fn push_lexeme(
    alloc: Global,
    tokens: &mut DcList<Token>,
    lexeme: Token,
) -> Result<(), NoMemory>
    ensures { OnOk result (tokens.new ≡ tokens.old ++ tokens_of_one lexeme) }
{
    match lexeme {
        Token::Word(word) => push_word(alloc, tokens, word),
        other => tokens.push(other),
    }
}
