//! What the instructions of trees do.

ghost use Rattle.std.specs.Prelude.{
  ◌≡◌,
  ℕ,
  Bool,
  List,
  [],
  ◌∷◌,
  length,
  slice_get,
  true,
  Some,
  None,
  IsTrue,
};
ghost use Rattle.std.specs.List.{list_all};
ghost use Rattle.dc_code.specs.CodeForms.{code_forms};
ghost use Rattle.dc_code.specs.Codes.{CodeLists};
ghost use Rattle.dc_code.specs.Computation.{give, sequence};
ghost use Rattle.dc_code.specs.Machine.{machine, new_frame};
ghost use Rattle.dc_code.specs.WellFormed.{IsWellFormed};
ghost use Rattle.dc_tree.specs.declared.symbols.Symbol.{Symbol};
ghost use Rattle.dc_tree.specs.Blocks.{Items, Source};
ghost use Rattle.dc_form.specs.BuiltPrograms.{is_built};
ghost use Rattle.dc_tree.specs.Entities.{Scope};
ghost use Rattle.dc_tree.specs.Symbols.{is_sound};
ghost use Rattle.dc_declare.specs.Declarations.{symbols_of};
ghost use Rattle.dc_scope.specs.Answer.{scope_findings};
ghost use Rattle.dc_types.specs.Types.{type_findings};
ghost use Rattle.dc_meaning.specs.Concurrent.{Concurrent};
ghost use Rattle.dc_meaning.specs.Execution.{exec_all};
ghost use Rattle.dc_meaning.specs.Programs.{main_computation, program_loops, program_forms};
ghost use Rattle.dc_meaning.specs.Values.{Callee};
ghost use Rattle.dc_lower.specs.Agreeing.{SameForm, HasNoIteration};
ghost use Rattle.dc_lower.specs.Blocks.{
  part_code,
  block_is_lowered,
  texts_of_block,
  groups_of_block,
};
ghost use Rattle.dc_lower.specs.Carrying.{RunPart};
ghost use Rattle.dc_lower.specs.CodeOf.{IsCodeOf};
ghost use Rattle.dc_lower.specs.Heading.{HasHeader};
ghost use Rattle.dc_lower.specs.Lowerable.{IsLowerable, are_held_symbols};
ghost use Rattle.dc_lower.specs.Lowered.{lowered};
ghost use Rattle.dc_actions.specs.Printing.{TextsStand};
ghost use Rattle.dc_lower.specs.Today.{is_of_today};

/// The instructions of a part that is a block carry it out, and End leaves the turns: of
/// assignments, lists and output, and of the loops of a main program, which are entered by their
/// numbers from one on. The groups that are added for its lists follow from a number on.
pub fn instructions_of_a_block_carry_it_out()
    ensures { (code : CodeLists) (scope : Scope) (call : Callee) (next free number line : ℕ)
        → (loops : Bool) (block : Items)
        → block_is_lowered scope loops block ≡ true → TextsStand code next (texts_of_block block)
        → RunPart code scope loops free (groups_of_block scope block)
        (part_code scope next free number block line) (exec_all scope call number block) }
{}

/// The code of a program, from its first instruction on and with a new frame, does what the main
/// program does.
pub fn the_code_of_a_program_does_what_its_main_program_does()
    ensures { (symbols : List Symbol) (source : Source) → IsLowerable symbols source
        → (turns : ℕ) → main_computation symbols source turns
        ≡ sequence (machine (lowered symbols source) 0 (new_frame (lowered symbols source) 0) turns)
        (λ w. give tt) }
{}

/// Each loop of a program is the loop of its number in the code: its header gives the same limits
/// and steps, and each of its iterations does the same.
pub fn the_loops_of_a_code_are_the_loops_of_the_program()
    ensures { (symbols : List Symbol) (source : Source) → IsLowerable symbols source
        → (turns number : ℕ) (loop : Concurrent)
        → slice_get (program_loops symbols source turns) number ≡ Some loop
        → SameForm (length loop.indexes) (code_forms (lowered symbols source) turns number [])
        (program_forms symbols source turns number []) }
{}

/// The code of the header of each loop does what the header means and leaves as many turns: from a
/// new frame it leaves that frame with the limits and the step on its stack, and no other change.
pub fn the_header_of_a_loop_leaves_its_limits()
    ensures { (symbols : List Symbol) (source : Source) → IsLowerable symbols source
        → (turns number : ℕ) (loop : Concurrent)
        → slice_get (program_loops symbols source turns) number ≡ Some loop
        → HasHeader (lowered symbols source) number
        (program_forms symbols source turns number []) }
{}

/// Where a program has no loop of a number, neither has its code: what stands there has no
/// iteration.
pub fn a_code_has_no_other_loops_than_its_program()
    ensures { (symbols : List Symbol) (source : Source) → IsLowerable symbols source
        → (turns number : ℕ) → slice_get (program_loops symbols source turns) number ≡ None
        → HasNoIteration (code_forms (lowered symbols source) turns number [])
        × HasNoIteration (program_forms symbols source turns number []) }
{}

/// A program that is run today has code where it breaks no rule of names and none of types.
pub fn a_program_that_breaks_no_rule_is_lowerable()
    ensures { (source : Source) → scope_findings source ≡ []
        → type_findings (symbols_of source) source ≡ []
        → IsTrue (is_built (symbols_of source) source)
        → IsTrue (list_all is_sound (symbols_of source))
        → IsLowerable (symbols_of source) source }
{}

/// The code of a program that breaks no rule is well formed, where the bounds of its variables are
/// numbers that an instruction holds.
pub fn the_code_of_a_program_is_well_formed()
    ensures { (symbols : List Symbol) (source : Source) → IsLowerable symbols source
        → IsTrue (are_held_symbols symbols) → IsWellFormed (lowered symbols source) }
{}

/// The code that is made of a program is a code of it, where the bounds of its variables are numbers
/// that an instruction holds: well formed, with what the main program does, and with its loops.
pub fn the_code_that_is_made_of_a_program_is_a_code_of_it()
    ensures { (symbols : List Symbol) (source : Source) → IsLowerable symbols source
        → IsTrue (are_held_symbols symbols) → IsCodeOf symbols source (lowered symbols source) }
{}

/// The code of a program takes nothing in, doesn't stop, and enters the loops of the program alone.
pub fn a_code_of_today_enters_its_loops_alone()
    ensures { (symbols : List Symbol) (source : Source) → IsLowerable symbols source
        → list_all (λ instr. is_of_today (length (program_loops symbols source 0)) instr.what)
        (lowered symbols source).instructions ≡ true }
{}
