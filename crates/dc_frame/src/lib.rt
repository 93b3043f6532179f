//! The frame of a running machine: all that it holds beside the store.
#![tactic(auto)]

mod frame;
mod law;
mod open_unit;
mod row;
mod starts;
mod subscripts;

pub use frame::Frame;
pub use law::a_frame_that_is_reset_is_new;
pub use subscripts::Subscripted;
