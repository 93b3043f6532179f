//! From trees to the code of the machine: which instructions blocks and whole programs have, the laws
//! that these do what the trees mean, and `lower`, which makes the code of a program.
#![tactic(auto)]

mod blocks;
mod law;
mod loops;
mod lowering;
mod program;
mod variables;

pub use law::{
    a_code_has_no_other_loops_than_its_program, a_code_of_today_enters_its_loops_alone,
    a_program_that_breaks_no_rule_is_lowerable, instructions_of_a_block_carry_it_out,
    the_code_of_a_program_does_what_its_main_program_does, the_code_of_a_program_is_well_formed,
    the_code_that_is_made_of_a_program_is_a_code_of_it, the_header_of_a_loop_leaves_its_limits,
    the_loops_of_a_code_are_the_loops_of_the_program,
};
pub use lowering::lower;
