//! `Standing`, where a run stands, `Task`, what is run, and `Found`, a loop of it.

use crate::ending::Ending;
use crate::variables::Variables;
use dc_code::{Code, Verdict};
use dc_entities::Numbering;
use dc_frame::Frame;
use dc_text::DcText;
use dc_tree::{Block, Lined, Node, Symbols};

/// Where a run stands: its variables, what the machine holds beside them, and what it wrote.
#[derive(Drop)]
pub(crate) struct Standing {
    pub variables: Variables,
    pub frame: Frame,
    pub output: DcText,
}

/// A program that is run: its names, its code, the statements of its main program with the places of the loops
/// among them, in their order, and the turns of each iteration.
#[derive(Clone, Copy)]
pub(crate) struct Task<'a> {
    pub symbols: &'a Symbols,
    pub numbering: &'a Numbering,
    pub code: &'a Code,
    pub nodes: &'a [Node],
    pub loops: &'a [usize],
    pub turns: u64,
}

/// A loop of the main program: its number, its header and its block.
#[derive(Clone, Copy)]
pub(crate) struct Found<'a> {
    pub number: u32,
    pub head: &'a Lined,
    pub body: &'a Block,
}

/// What is said of a loop, and the turns that it leaves.
#[derive(Drop)]
pub(crate) struct Judged {
    pub said: Verdict,
    pub turns: u64,
}

/// What comes behind a pause: the run goes on at a place with so many turns, or it ends.
#[derive(Drop)]
pub(crate) enum Step {
    On { at: u32, turns: u64 },
    Over(Ending),
}
