//! What declared names stand for.

ghost use Rattle.std.specs.Prelude.{◌≡◌, IsTrue};
ghost use Rattle.std.specs.Option.{option_copied};
ghost use Rattle.dc_form.specs.BuiltPrograms.{is_whole_scalar, are_built_symbols};
ghost use Rattle.dc_tree.specs.Entities.{entity, main_scope};
ghost use Rattle.dc_form.specs.Parts.{is_whole_role, is_whole_symbol};

use dc_tree::{Role, Symbol, Symbols};

fn is_whole_role(role: &Role) -> bool
    ensures { result ≡ is_whole_role role.now }
{
    match role {
        Role::Variable {
            logical: false,
            bounds,
            ..
        } => bounds.is_empty(),
        _ => false,
    }
}

fn is_whole_symbol(symbol: Option<&Symbol>) -> bool
    ensures { result ≡ is_whole_symbol (option_copied symbol.entry) }
{
    match symbol {
        Some(symbol) => is_whole_role(&symbol.role),
        None => false,
    }
}

/// Whether a name of the main program is an INTEGER scalar.
#[tactic(auto, using(crate::proofs::Named::whole_named))]
pub(crate) fn is_whole_scalar(symbols: &Symbols, name: &[u8]) -> bool
    requires { IsTrue (are_built_symbols symbols.now) }
    ensures { result ≡ is_whole_scalar (entity (main_scope symbols.now) name.now) }
{
    is_whole_symbol(symbols.lookup(0, name))
}
