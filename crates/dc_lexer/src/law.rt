//! Laws of the definitions, each the clause of a function that does nothing.

ghost use Rattle.std.specs.Prelude.{◌≡◌, ◌⊎◌, ℕ, List, ◌∷◌, IsTrue};
ghost use Rattle.dc_tree.specs.declared.token.Token.{Token};
ghost use Rattle.dc_lexer.specs.Bytes.{is_quote};
ghost use Rattle.dc_lexer.specs.Lexemes.{Lexeme, is_open};
ghost use Rattle.dc_lexer.specs.Readings.{AreLexemes, BeginsWith};
ghost use Rattle.dc_lexer.specs.Answers.{Breaks, HasTokens};

/// A text has at most one list of lexemes.
pub fn a_text_has_one_list_of_lexemes()
    ensures { (text : List ℕ) (first second : List Lexeme) → AreLexemes text first
        → AreLexemes text second → first ≡ second }
{}

/// A text that has tokens breaks none of the rules.
pub fn a_text_with_tokens_breaks_no_rule()
    ensures { (text : List ℕ) (tokens : List Token) (rule : ℕ) → HasTokens text tokens
        → Breaks rule text → ⊥ }
{}

/// Each text has tokens or breaks a rule.
pub fn a_text_has_tokens_or_breaks_a_rule()
    ensures { (text : List ℕ)
        → ((tokens : List Token) × HasTokens text tokens) ⊎ ((rule : ℕ) × Breaks rule text) }
{}

/// A text in which a literal stays open to the end breaks rule 8.
pub fn an_open_literal_breaks_rule_8()
    ensures { (text : List ℕ) (lexemes : List Lexeme) (quote : ℕ) (bytes : List ℕ)
        → BeginsWith text lexemes (quote ∷ bytes) → IsTrue (is_quote quote)
        → IsTrue (is_open quote bytes) → Breaks 8 text }
{}
