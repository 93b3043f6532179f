//! What single instructions of the machine do to a frame and to cells: one function an instruction, or one
//! for several that differ by what they name.
#![tactic(auto)]

mod arguments;
mod arrays;
mod counting;
mod dummies;
mod elements;
mod ended;
mod entering;
mod finding;
mod folding;
mod halt;
mod output;
mod places;
mod positions;
mod values;
mod variables;

pub use arguments::arguments_off;
pub use arrays::{elements_of, filled, slots_filled};
pub use counting::counted;
pub use dc_frame::Frame;
pub use dummies::{dummy_loaded, dummy_stored};
pub use ended::{Ended, Next};
pub use entering::{deepened, entered, result_pushed, unit_left};
pub use finding::{push_dummy, push_outer, push_slot};
pub use folding::{folding_pushed, slot_folding_pushed};
pub use halt::Halt;
pub use output::{all_put, line_ended, text_put, value_put};
pub use positions::{subscript_outer, subscript_slot};
pub use values::{
    arithmetic, compared, conjunction, disjunction, dropped, equivalence, merged, negated,
    non_equivalence, value_off, value_pushed, wrapped,
};
pub use variables::{
    contributed, forget_outer, forget_slot, load_outer, load_slot, store_outer, store_slot,
};
