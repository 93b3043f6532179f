//! DO CONCURRENT loops.

ghost use Rattle.std.specs.Prelude.{◌≡◌, map, IsTrue};
ghost use Rattle.dc_tree.specs.Blocks.{item, items, items_from};
ghost use Rattle.dc_form.specs.BuiltPrograms.{are_built_symbols, is_built_limit, is_built_index, is_built_block, all_spare, is_built_loop};
ghost use Rattle.dc_tree.specs.Entities.{main_scope};
ghost use Rattle.dc_tree.specs.Statements.{statement, index_ranging};
ghost use Rattle.dc_tree.specs.Syntax.{tree};
ghost use Rattle.dc_form.specs.Parts.{is_built_inner, is_plain_loop};

use crate::names::is_whole_scalar;
use crate::statements::{is_built_inside, spares};
use crate::values::{is_held, mentions};
use dc_tree::{Block, Expr, Index, Local, Node, Stmt, Symbols};

/// Whether a limit doesn't refer to the index.
fn is_built_limit(index: &[u8], limit: &Expr) -> bool
    ensures { result ≡ is_built_limit index.now (tree limit.now) }
{
    is_held(limit) && !mentions(index, limit)
}

fn is_built_index(symbols: &Symbols, index: &Index) -> bool
    requires { IsTrue (are_built_symbols symbols.now) }
    ensures { result ≡ is_built_index (main_scope symbols.now) (index_ranging index.now) }
{
    let name = index.name.as_bytes();
    match &index.step {
        None => {
            is_whole_scalar(symbols, name)
                && (is_built_limit(name, &index.first) && is_built_limit(name, &index.last))
        }
        Some(_step) => false,
    }
}

#[tactic(auto, using(dc_tree::proofs::Views::statement_views))]
fn is_built_inner(node: &Node) -> bool
    ensures { result ≡ is_built_inner (item node.now) }
{
    match node {
        Node::Plain(lined) => is_built_inside(&lined.stmt),
        _ => false,
    }
}

#[tactic(auto, using(crate::proofs::Headers::block_first, std::proofs::lemmas::List::drop_more))]
fn is_built_block(nodes: &[Node]) -> bool
    ensures { result ≡ is_built_block (items_from (map item nodes.now)) }
{
    for node in nodes {
        if !is_built_inner(node) {
            return false;
        }
    }
    true
}

/// Whether the statements of a block, up to the first construct, don't define the index.
#[tactic(auto, using(dc_tree::proofs::Views::statement_views, std::proofs::lemmas::List::drop_more))]
fn all_spare(index: &[u8], nodes: &[Node]) -> bool
    ensures { result ≡ all_spare index.now (items_from (map item nodes.now)) }
{
    for node in nodes {
        match node {
            Node::Plain(lined) => {
                if !spares(index, &lined.stmt) {
                    return false;
                }
            }
            _ => return true,
        }
    }
    true
}

/// Whether a loop over these indexes, with this locality and no more in its header, can be run.
#[tactic(auto, using(dc_tree::proofs::Views::statement_views))]
fn is_plain_loop(symbols: &Symbols, indexes: &[Index], locality: &[Local], body: &Block) -> bool
    requires { IsTrue (are_built_symbols symbols.now) }
    ensures { result
        ≡ is_plain_loop (main_scope symbols.now) (map index_ranging indexes.now) locality.now
        (items body.now) }
{
    match indexes {
        [index] => match locality {
            [] => {
                let nodes = body.nodes.as_slice();
                is_built_index(symbols, index)
                    && (is_built_block(nodes) && all_spare(index.name.as_bytes(), nodes))
            }
            [_first, ..] => false,
        },
        _ => false,
    }
}

/// Whether a construct is a loop that can be run.
#[tactic(auto, using(crate::proofs::Headers::loop_of))]
pub(crate) fn is_built_loop(symbols: &Symbols, head: &Stmt, body: &Block) -> bool
    requires { IsTrue (are_built_symbols symbols.now) }
    ensures { result
        ≡ is_built_loop (main_scope symbols.now) (statement head.now) (items body.now) }
{
    match head {
        Stmt::Concurrent {
            spec: None,
            indexes,
            mask: None,
            locality,
            ..
        } => is_plain_loop(symbols, indexes.as_slice(), locality.as_slice(), body),
        _ => false,
    }
}
