//! Computations over a store, the definitions of a loop over them, and the laws that hold of each: of
//! what a tree means, and of a run of code.
#![tactic(auto)]

mod code;
mod frame;
mod instr;
mod law;
mod loop_law;
mod machine_law;
mod plan;
mod verdict;

pub use code::Code;
pub use frame::{Item, Passed, Place};
pub use instr::{Folding, Instr, Relation, What};
pub use law::{
    a_run_is_its_entries, agreeing_stores_run_alike, first_this_then_that, named_pair_breaks,
    runs_differ_first_at_a_read, untouched_elements_stay,
};
pub use loop_law::{
    a_bad_iteration_ends_its_orders, a_clash_is_a_race,
    a_loop_that_goes_on_ends_alike_in_every_order, a_race_is_in_its_orders,
    a_visit_leaves_a_store_that_fits, plain_blocks_are_framed,
    what_is_said_of_a_loop_holds_in_every_order,
};
pub use machine_law::the_machine_carries_out_one_instruction;
pub use plan::{ConstructCode, DummyPlan, Group, Passing, Plan};
pub use verdict::{Party, Race, Verdict};
