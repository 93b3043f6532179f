//! The trees of a Fortran source, and the refusals that every phase answers with.
#![tactic(auto)]

mod expr;
mod fail;
mod laws;
mod logical_lines;
mod program;
mod stmt;
mod symbols;
mod token;
mod words;

pub use expr::{Arg, Expr};
pub use fail::{Fail, LeastFinding, Refusal};
pub use laws::{
    programs_are_told_apart, statements_are_told_apart, the_least_finding_is_the_first,
    tokens_spell_one_expression, trees_are_told_apart,
};
pub use logical_lines::Logical;
pub use program::{Block, Lined, Node, Part, Procedure, Program};
pub use stmt::{
    Action, Attr, Bound, Counted, Entity, Index, Init, Intent, Local, Prefix, Range, Stmt, Target,
    TypeSpec, Unit, UseForm,
};
pub use symbols::{Role, Symbol, Symbols};
pub use token::{Mark, Suffix, Token};
pub use words::is_name;
