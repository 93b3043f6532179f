//! Worked examples of the top call as tables: sources, words, and what stands on out and log.
#![tactic(auto)]

#[cfg(test)]
mod calls;
#[cfg(test)]
mod loops;
#[cfg(test)]
mod runs;
#[cfg(test)]
mod top_call;
