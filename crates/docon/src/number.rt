//! Numbers in words.

ghost use Rattle.std.specs.Prelude.{◌≡◌, ◌≤◌, IfSome, option_map};
ghost use Rattle.std.specs.List.{list_all};
ghost use Rattle.docon.specs.Words.{is_digit, is_number, number_in, turns_in};

/// The turns of the main program, of each mask and of each iteration, where the words name none.
const DEFAULT_TURNS: u64 = 1_000_000;

const MOST_TURNS: u64 = 1_000_000_000;

fn is_digit(byte: u8) -> bool
    ensures { result ≡ is_digit byte }
{
    byte.is_ascii_digit()
}

fn are_digits(word: &[u8]) -> bool
    ensures { result ≡ list_all is_digit word.now }
{
    word.iter().all(|byte| is_digit(*byte))
}

fn is_number(word: &[u8]) -> bool
    ensures { result ≡ is_number word.now }
{
    1 <= word.len() && word.len() <= 10 && are_digits(word)
}

/// The number that a word's digits write. None where it is no number.
fn number_in(word: &str) -> Option<u64>
    ensures { result ≡ number_in word.now }
{
    if is_number(word.as_bytes()) {
        word.parse::<u64>().ok()
    } else {
        None
    }
}

/// The turns that the value of `--turns` names. None where it names none.
pub(crate) fn turns_in(word: Option<&str>) -> Option<u64>
    ensures named { result ≡ turns_in (option_map (λ text. text.now) word.entry) }
    ensures range { IfSome result (λ turns. (1 ≤ turns) × (turns ≤ 1000000000)) }
{
    let Some(word) = word else {
        return Some(DEFAULT_TURNS);
    };
    match number_in(word) {
        Some(turns) if 1 <= turns && turns <= MOST_TURNS => Some(turns),
        _ => None,
    }
}
