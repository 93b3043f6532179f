//! What the grammar says of each mark.

ghost use Rattle.std.specs.Prelude.{◌≡◌};
ghost use Rattle.dc_tree.specs.Grammar.{is_binary, is_prefix, level, left_rank, right_rank};

use dc_tree::Mark;

/// Whether a mark is an operator between two operands.
pub(crate) fn is_binary(mark: Mark) -> bool
    ensures { result ≡ is_binary mark }
{
    match mark {
        Mark::Eqv | Mark::Neqv | Mark::Or | Mark::And => true,
        Mark::Eq | Mark::Ne | Mark::Lt | Mark::Le | Mark::Gt | Mark::Ge => true,
        Mark::Plus | Mark::Minus | Mark::Times | Mark::Slash | Mark::Power => true,
        _ => false,
    }
}

/// Whether a mark stands in front of one operand.
pub(crate) fn is_prefix(mark: Mark) -> bool
    ensures { result ≡ is_prefix mark }
{
    matches!(mark, Mark::Not | Mark::Plus | Mark::Minus)
}

/// The rank of an expression that an operator joins.
pub(crate) fn level(mark: Mark) -> u8
    ensures { result ≡ level mark }
{
    match mark {
        Mark::Eqv | Mark::Neqv => 0,
        Mark::Or => 1,
        Mark::And => 2,
        Mark::Not => 3,
        Mark::Plus | Mark::Minus => 5,
        Mark::Times | Mark::Slash => 6,
        Mark::Power => 7,
        _ => 4,
    }
}

/// The least rank of a left operand.
pub(crate) fn left_rank(mark: Mark) -> u8
    ensures { result ≡ left_rank mark }
{
    match mark {
        Mark::Power => 8,
        Mark::Eq | Mark::Ne | Mark::Lt | Mark::Le | Mark::Gt | Mark::Ge => 5,
        _ => level(mark),
    }
}

/// The least rank of a right operand.
pub(crate) fn right_rank(mark: Mark) -> u8
    ensures { result ≡ right_rank mark }
{
    match mark {
        Mark::Power => 7,
        _ => level(mark) + 1,
    }
}
