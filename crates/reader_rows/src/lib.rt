//! Worked examples of the readers, as tables: what is spelled, and what is read or refused.
#![tactic(auto)]

#[cfg(test)]
mod expressions;
#[cfg(test)]
mod lexemes;
#[cfg(test)]
mod lines;
#[cfg(test)]
mod nesting;
#[cfg(test)]
mod showing;
#[cfg(test)]
mod values;
