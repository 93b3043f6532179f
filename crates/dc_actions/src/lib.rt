//! From trees to the instructions of the machine: which instructions expressions and single
//! statements have, and the laws that these do what the trees mean.
#![tactic(auto)]

mod assigning;
mod count;
mod law;
mod limits;
mod lists;
mod names;
mod operators;
mod printing;
mod references;
mod values;

pub use assigning::assignment;
pub use count::held;
pub use law::{
    instructions_of_a_list_carry_it_out, instructions_of_an_assignment_carry_it_out,
    instructions_of_an_expression_leave_its_value, instructions_of_output_carry_it_out,
};
pub use limits::index_limits;
pub use lists::filling;
pub use names::Names;
pub use printing::output;
pub use values::value;
