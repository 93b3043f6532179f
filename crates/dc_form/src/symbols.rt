//! The limits on declared names, and on the elements of variables.

ghost use Rattle.std.specs.Prelude.{◌≡◌, nat_le};
ghost use Rattle.std.specs.List.{list_all};
ghost use Rattle.dc_form.specs.BuiltPrograms.{is_filled, is_built_role, is_built_symbol, role_elements, elements_of_all, greatest_elements, are_built_symbols};
ghost use Rattle.dc_form.specs.Capped.{capped};

use crate::capping::{capped, size_of};
use dc_tree::{Role, Symbol};

/// The most names.
const MOST_NAMES: usize = 1_048_576;

/// The most elements of all variables.
const MOST_ELEMENTS: u64 = 4_194_304;

/// Whether there is no value, or one for each element.
#[tactic(auto, using(crate::proofs::Capped::capping))]
fn is_filled(bounds: &[(i64, i64)], given: &[i64]) -> bool
    ensures { result ≡ is_filled bounds.now given.now }
{
    match given {
        [] => true,
        [_first, ..] => given.len() as u64 == size_of(bounds),
    }
}

fn is_built_role(role: &Role) -> bool
    ensures { result ≡ is_built_role role.now }
{
    match role {
        Role::Variable {
            bounds,
            initial,
            ..
        } => is_filled(bounds.as_slice(), initial.as_slice()),
        Role::Constant { .. } => true,
        _ => false,
    }
}

fn is_built_symbol(symbol: &Symbol) -> bool
    ensures { result ≡ is_built_symbol symbol.now }
{
    symbol.scope == 0 && is_built_role(&symbol.role)
}

#[tactic(auto, using(std::proofs::lemmas::List::drop_more))]
fn all_built(symbols: &[Symbol]) -> bool
    ensures { result ≡ list_all is_built_symbol symbols.now }
{
    for symbol in symbols {
        if !is_built_symbol(symbol) {
            return false;
        }
    }
    true
}

fn role_elements(role: &Role) -> u64
    ensures { result ≡ capped (role_elements role.now) }
{
    match role {
        Role::Variable { bounds, .. } => size_of(bounds.as_slice()),
        _ => 0,
    }
}

fn elements_of_all(symbols: &[Symbol]) -> u64
    ensures { result ≡ capped (elements_of_all symbols.now) }
{
    let mut elements: u64 = 0;
    for symbol in symbols {
        elements = capped(u128::from(elements) + u128::from(role_elements(&symbol.role)));
    }
    elements
}

#[tactic(auto, using(crate::proofs::Capped::capping))]
fn has_few_elements(symbols: &[Symbol]) -> bool
    ensures { result ≡ nat_le (elements_of_all symbols.now) greatest_elements }
{
    elements_of_all(symbols) <= MOST_ELEMENTS
}

/// Whether these are names of variables and constants of the main program within the limits.
pub(crate) fn are_built_symbols(symbols: &[Symbol]) -> bool
    ensures { result ≡ are_built_symbols symbols.now }
{
    symbols.len() <= MOST_NAMES && (all_built(symbols) && has_few_elements(symbols))
}
