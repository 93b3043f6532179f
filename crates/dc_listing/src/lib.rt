//! The listing of a code as text, and the law that a listing determines its code.
#![tactic(auto)]

mod instruction;
mod law;
mod listed;
mod names;
mod parts;
mod whole;
mod words;

pub use law::a_listing_determines_its_code;
pub use whole::listing;
