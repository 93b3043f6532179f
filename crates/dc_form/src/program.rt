//! Whether a program is run today.

ghost use Rattle.std.specs.Prelude.{◌≡◌, map, IsTrue};
ghost use Rattle.dc_tree.specs.Blocks.{item, items_from, source_of};
ghost use Rattle.dc_form.specs.BuiltPrograms.{are_built_symbols, is_built_item, are_built_items, is_built};
ghost use Rattle.dc_tree.specs.Entities.{main_scope};

use crate::loops::is_built_loop;
use crate::statements::is_built_line;
use crate::symbols::are_built_symbols;
use dc_tree::{Node, Program, Symbols};

#[tactic(auto, using(dc_tree::proofs::Views::statement_views))]
fn is_built_item(symbols: &Symbols, node: &Node) -> bool
    requires { IsTrue (are_built_symbols symbols.now) }
    ensures { result ≡ is_built_item (main_scope symbols.now) (item node.now) }
{
    match node {
        Node::Plain(lined) => is_built_line(&lined.stmt),
        Node::Loop { head, body, .. } => is_built_loop(symbols, &head.stmt, body),
        _ => false,
    }
}

#[tactic(auto, using(std::proofs::lemmas::List::drop_more))]
fn are_built_items(symbols: &Symbols, nodes: &[Node]) -> bool
    requires { IsTrue (are_built_symbols symbols.now) }
    ensures { result ≡ are_built_items (main_scope symbols.now) (items_from (map item nodes.now)) }
{
    for node in nodes {
        if !is_built_item(symbols, node) {
            return false;
        }
    }
    true
}

/// Whether a program with these symbols is run today.
#[tactic(auto, using(dc_tree::proofs::Views::statement_views))]
pub fn is_built(program: &Program, symbols: &Symbols) -> bool
    ensures { result ≡ is_built symbols.now (source_of program.now) }
{
    match program.procedures.as_slice() {
        [] => {
            program.contains.is_none()
                && (are_built_symbols(symbols.as_slice())
                    && are_built_items(symbols, program.body.nodes.as_slice()))
        }
        [_first, ..] => false,
    }
}
