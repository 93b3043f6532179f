//! What the instructions of expressions and single statements do.

ghost use Rattle.std.specs.Prelude.{◌≡◌, ℕ, List, [], ◌∷◌, length, true};
ghost use Rattle.dc_code.specs.Codes.{CodeLists};
ghost use Rattle.dc_tree.specs.Entities.{Scope, entity};
ghost use Rattle.dc_tree.specs.Statements.{Name, Target};
ghost use Rattle.dc_tree.specs.Syntax.{Tree};
ghost use Rattle.dc_tree.specs.Typing.{sort_of_entity};
ghost use Rattle.dc_meaning.specs.Actions.{assignment, filling, printing};
ghost use Rattle.dc_meaning.specs.Values.{Callee, value};
ghost use Rattle.dc_actions.specs.Assigning.{
  assignment_code,
  filling_code,
  kept_group,
  all_usable,
  takes_values,
  takes_list,
};
ghost use Rattle.dc_actions.specs.Carrying.{LeaveValue, CarryOut, CarryOutKeeping};
ghost use Rattle.dc_actions.specs.Expressions.{value_code, is_usable};
ghost use Rattle.dc_actions.specs.Printing.{printing_code, texts_of_items, TextsStand, give_items};

/// The instructions of an expression leave its value. Its names and functions are used as the rules
/// of names and types leave them.
pub fn instructions_of_an_expression_leave_its_value()
    ensures { (code : CodeLists) (scope : Scope) (call : Callee) (line : ℕ) (tree : Tree)
        → is_usable scope tree ≡ true
        → LeaveValue code scope line (value_code scope tree) (value scope call line tree) }
{}

/// The instructions of an assignment to a variable of the main program carry it out: the value,
/// then the subscripts, and then each element is defined.
pub fn instructions_of_an_assignment_carry_it_out()
    ensures { (code : CodeLists) (scope : Scope) (call : Callee) (line : ℕ)
        → (target : Target) (tree : Tree)
        → is_usable scope tree ≡ true
        → takes_values scope (entity scope target.name) target.subscripts ≡ true
        → CarryOut code scope line (assignment_code scope target tree)
        (assignment scope call line target tree (entity scope target.name)) }
{}

/// The instructions of `a = [list]` carry it out: all values, and then each element is defined in
/// order. The values are kept in the slots of a group that is added for the statement.
pub fn instructions_of_a_list_carry_it_out()
    ensures { (code : CodeLists) (scope : Scope) (call : Callee) (line free : ℕ)
        → (text : Name) (trees : List Tree)
        → all_usable scope trees ≡ true → takes_list (entity scope text) (length trees) ≡ true
        → CarryOutKeeping code scope free
        (kept_group (sort_of_entity (entity scope text)) (length trees) ∷ []) line
        (filling_code scope free trees (entity scope text))
        (filling scope call line trees (entity scope text)) }
{}

/// The instructions of PRINT and WRITE carry it out: all items are evaluated, and then the line is
/// written. The literals stand among the texts of the code from a number on.
pub fn instructions_of_output_carry_it_out()
    ensures { (code : CodeLists) (scope : Scope) (call : Callee) (line next : ℕ) (items : List Tree)
        → give_items scope items ≡ true → TextsStand code next (texts_of_items items)
        → CarryOut code scope line (printing_code scope next items)
        (printing scope call line items) }
{}
