//! From a list of statements to the tree of its program.

ghost use Rattle.std.specs.Prelude.{◌≡◌, None, map};
ghost use Rattle.dc_tree.specs.Blocks.{line_of};
ghost use Rattle.dc_tree.specs.Findings.{least_of};
ghost use Rattle.dc_nest.specs.Judging.{findings};
ghost use Rattle.dc_nest.specs.Answer.{Answers};

use crate::building::program;
use crate::judging::judge;
use dc_text::{DcList, Stack};
use dc_tree::{Fail, Lined, Program};
use std::alloc::Global;

/// The tree of statements that break no rule. So no more than 64 constructs are open.
fn build(alloc: Global, list: DcList<Lined>) -> Result<Program, Fail>
    requires { least_of (findings (map line_of list)) ≡ None }
    ensures { Answers list result }
{
    let mut rest = Stack::from_list(list);
    Ok(program(alloc, &mut rest)?)
}

/// Gives the program whose statements in the order of its text are these, or the first rule of
/// nesting that they break: of those on the least line the least. The list is dropped on a refusal.
pub fn nest(alloc: Global, list: DcList<Lined>) -> Result<Program, Fail>
    ensures { Answers list result }
{
    judge(alloc, list.as_slice())?.pass()?;
    build(alloc, list)
}
