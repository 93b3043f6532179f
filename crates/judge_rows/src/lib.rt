//! Iterations that are taken alone and loops that are judged by themselves, as tables: their states, and
//! what is told of them.
#![tactic(auto)]

#[cfg(test)]
mod plain_judge;
