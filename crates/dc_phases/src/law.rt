//! Laws of the definitions, each the clause of a function that does nothing.

ghost use Rattle.dc_phases.specs.Answer.{IsOneAnswer, IsOneProgram, IsOneRefusal};

/// A text spells one program at most.
pub fn a_text_spells_one_program()
    ensures { IsOneProgram }
{}

/// A text that spells a program has no first refusal.
pub fn a_text_that_spells_is_not_refused()
    ensures { IsOneAnswer }
{}

/// A text has one first refusal at most.
pub fn the_first_refusal_is_one()
    ensures { IsOneRefusal }
{}
