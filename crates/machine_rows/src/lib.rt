//! The calls of the machine one after another, on small codes: each has an answer other than want of memory.
#![tactic(auto)]

#[cfg(test)]
mod calls;
#[cfg(test)]
mod squares;
#[cfg(test)]
mod stored;
