//! Laws of the definitions, each the clause of a function that does nothing.

ghost use Rattle.dc_front.specs.Form.{IsOneAnswer, IsOneProgram, IsOneRefusal};

/// A text spells one program at most, with one list of symbols.
pub fn a_text_spells_one_program()
    ensures { IsOneProgram }
{}

/// A text that is refused spells no program.
pub fn a_refused_text_spells_no_program()
    ensures { IsOneAnswer }
{}

/// A text has one first refusal at most.
pub fn the_first_refusal_is_one()
    ensures { IsOneRefusal }
{}
