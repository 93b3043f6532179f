//! What an iteration taken alone is answered with: `AloneOut`.

use dc_int::{Access, Contribution, Touch, Why};
use dc_text::DcList;

/// What an iteration does alone.
///
/// `ending` is why it doesn't end well, with the line, and `None` where it ends well. `touches` has
/// each touched element once with its last state, in the order of first touch.
#[derive(Drop)]
pub struct AloneOut {
    pub ending: Option<(Why, u32)>,
    pub accesses: DcList<Access>,
    pub touches: DcList<Touch>,
    pub contributions: DcList<Contribution>,
}
