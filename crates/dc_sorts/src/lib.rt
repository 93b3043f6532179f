//! What names stand for, and what is known of expressions without evaluating them: their sorts, and
//! the values of constant expressions.
#![tactic(auto)]

mod called;
mod expressions;
mod form;
mod intrinsic;
mod known;
mod meaning;
mod naming;
mod operating;
mod standing;

pub use called::{about_kind, kind_converted, known_referred};
pub use expressions::{known_args, known_chars, known_expr};
pub use form::{Form, fitted, joined_form, kind_of};
pub use intrinsic::{Intrinsic, intrinsic_named};
pub use known::{Known, known_joined, known_led, known_truth};
pub use meaning::Meaning;
pub use naming::{capped_number, known_name, known_number};
pub use operating::{call_function, join_values, lead_value};
pub use standing::{IndexName, Standing};
