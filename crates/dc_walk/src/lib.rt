//! The walker of blocks, and the plain judge of loops.
#![tactic(auto)]

mod alone_out;
mod block;
mod cases;
mod counting;
mod flow;
mod header;
mod iteration;
mod judge;
mod lines;
mod looped;
mod loops;
mod plain;
mod task;
mod testing;
mod turns;
mod visits;

pub use alone_out::AloneOut;
pub use header::Limits;
pub use iteration::alone;
pub use plain::{PlainVerdict, has_loop, plain_verdict};
pub use visits::visit;
