//! What the instructions of branches and loops do.

ghost use Rattle.std.specs.Prelude.{◌≡◌, ◌≤◌, ◌+◌, ℕ, Bool, List, [], Option, true};
ghost use Rattle.dc_code.specs.Codes.{CodeLists};
ghost use Rattle.dc_tree.specs.Blocks.{Items};
ghost use Rattle.dc_tree.specs.Entities.{Scope};
ghost use Rattle.dc_tree.specs.Statements.{Name};
ghost use Rattle.dc_meaning.specs.Execution.{exec_all};
ghost use Rattle.dc_meaning.specs.Values.{Callee};
ghost use Rattle.dc_actions.specs.Printing.{TextsStand};
ghost use Rattle.dc_flows.specs.Flows.{
  Before,
  LoopAround,
  labels_of,
  block_code,
  block_size,
  texts_of_block,
  groups_of_block,
  part_code,
  around_part,
};
ghost use Rattle.dc_flows.specs.FlowsCarried.{RunFlows, RunBlock};
ghost use Rattle.dc_flows.specs.FlowsLowered.{EndBehind, block_is_lowered};

/// The instructions of a block carry it out: its assignments, lists and output, its branches, its
/// loops in rounds, and where a main program has them its DO CONCURRENT loops, which are entered by
/// their numbers. Behind it the run goes on where the block was left for: at its end, or at a loop
/// around.
pub fn instructions_of_a_block_with_branches_carry_it_out()
    ensures { (code : CodeLists) (scope : Scope) (call : Callee) (before : Before) (main : Bool)
        → (around : List LoopAround) (block : Items)
        → block_is_lowered scope main (labels_of around) block ≡ true
        → TextsStand code before.texts (texts_of_block block)
        → EndBehind (before.at + block_size scope block) around
        → RunBlock code scope main before around (groups_of_block scope block)
        (block_size scope block) (block_code scope before around block)
        (exec_all scope call before.loops block) }
{}

/// The instructions of a part that is a block carry it out, and End leaves the turns. Around the
/// block of a DO CONCURRENT this loop is, by its label, and a CYCLE ends an iteration.
pub fn instructions_of_a_part_with_branches_carry_it_out()
    ensures { (code : CodeLists) (scope : Scope) (call : Callee) (before : Before) (main : Bool)
        → (labels : List (Option Name)) (block : Items) (line : ℕ)
        → block_is_lowered scope main labels block ≡ true
        → TextsStand code before.texts (texts_of_block block)
        → RunFlows code scope main before.at before.groups (groups_of_block scope block)
        (part_code scope before (around_part labels (before.at + block_size scope block)) block
        line)
        (exec_all scope call before.loops block) }
{}
