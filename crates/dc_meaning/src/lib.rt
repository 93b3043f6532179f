//! What a source means: the values of its expressions, the execution of its statements, and its loops.
#![tactic(auto)]

mod arrays;
mod assign;
mod assignment;
mod expressions;
mod indexes;
mod law;
mod reading;
mod reference;
mod settling;
mod stop;
mod walk;
mod wholes;

pub use arrays::{about_array, asked, bounds_of, dimension_named, first_form, form_of};
pub use assignment::act;
pub use expressions::value;
pub use indexes::{block_standing, first_index, index_kind, index_list};
pub use law::what_is_seen_is_a_run;
pub use reading::read;
pub use reference::function_named;
pub use settling::fault;
pub use stop::Stop;
pub use walk::Walk;
