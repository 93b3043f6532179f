//! The instructions of branches and loops, and the law that they do what blocks mean.
#![tactic(auto)]

mod actions;
mod around;
mod branches;
mod cases;
mod counts;
mod heads;
mod law;
mod looping;
mod lowering;
mod rounds;
mod scalars;
mod sizes;

pub use law::{
    instructions_of_a_block_with_branches_carry_it_out,
    instructions_of_a_part_with_branches_carry_it_out,
};
