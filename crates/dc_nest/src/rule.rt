//! The rules of nesting.

ghost use Rattle.std.specs.Prelude.{◌≡◌};
ghost use Rattle.dc_nest.specs.Rules.{number_of};

/// What a list of statements may break, from the least rule to the greatest.
#[derive(Clone, Copy)]
pub(crate) enum Rule {
    Misplaced,
    TooDeep,
    OtherName,
    NoLoop,
    Strays,
    Confined,
}

/// The number that a refusal names.
pub(crate) fn number_of(rule: Rule) -> u8
    ensures { result ≡ number_of rule }
{
    match rule {
        Rule::Misplaced => 13,
        Rule::TooDeep => 14,
        Rule::OtherName => 15,
        Rule::NoLoop => 16,
        Rule::Strays => 17,
        Rule::Confined => 18,
    }
}
