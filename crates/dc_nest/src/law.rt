//! Laws of the definitions, each the clause of a function that does nothing.

ghost use Rattle.dc_nest.specs.Answer.{IsOneRefusal, IsOneTree, IsSomeTree};

/// A list of statements is that of one program at most whose closings fit its openings.
pub fn a_list_nests_to_one_program()
    ensures { IsOneTree }
{}

/// Statements that break no rule are those of a program. This is a law of the definitions' trees,
/// for any list of lines, also one that no `Lined` has; of a list of `Lined`, `nest` gives the tree.
pub fn an_unbroken_list_nests()
    ensures { IsSomeTree }
{}

/// The first broken rule is one, and stands on one line.
pub fn the_first_refusal_is_one()
    ensures { IsOneRefusal }
{}
