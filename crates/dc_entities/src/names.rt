//! What a name stands for at a place of a program.

ghost use Rattle.std.specs.Prelude.{◌≡◌, ◌≤◌, length, IsTrue};
ghost use Rattle.dc_int.specs.Store.{elements_in};
ghost use Rattle.dc_form.specs.BuiltPrograms.{is_built_role, role_elements, are_built_symbols};
ghost use Rattle.dc_tree.specs.Entities.{entity, main_scope};
ghost use Rattle.dc_sorts.specs.Standing.{standing_of, index_kind, scope_at};
ghost use Rattle.dc_entities.specs.Found.{entity_of, bounds_found, entity_at, IsNamed};
ghost use Rattle.dc_entities.specs.Numbering.{numbers_of};

use crate::found::Found;
use crate::numbering::Numbering;
use dc_int::Kind;
use dc_sorts::{Form, IndexName, Standing};
use dc_tree::{Role, Symbols};

/// What the symbol with this role and number stands for.
fn declared<'a>(number: u32, role: &'a Role) -> Found<'a>
    requires built { IsTrue (is_built_role role.now) }
    requires few { role_elements role.now ≤ 4194304 }
    ensures found { entity_of result ≡ entity_at number role.now }
    ensures few { elements_in (bounds_found result) ≤ 4194304 }
{
    match role {
        Role::Variable {
            logical,
            kind,
            bounds,
            ..
        } => Found::Variable {
            number,
            form: Form::new(*logical, *kind),
            bounds: bounds.as_slice(),
        },
        Role::Constant {
            logical,
            kind,
            value,
        } => Found::Constant {
            form: Form::new(*logical, *kind),
            value: *value,
        },
        _ => unreachable!(),
    }
}

/// What a name of the main program stands for.
fn outer<'a>(symbols: &'a Symbols, numbering: &Numbering, name: &[u8]) -> Found<'a>
    requires built { IsTrue (are_built_symbols symbols.now) }
    requires numbers { numbering.now ≡ numbers_of symbols.now }
    ensures found { entity_of result ≡ entity (main_scope symbols.now) name.now }
    ensures few { elements_in (bounds_found result) ≤ 4194304 }
{
    let Some(place) = symbols.place(0, name) else {
        return Found::Nothing;
    };
    let Some(symbol) = symbols.as_slice().get(place) else {
        return Found::Nothing;
    };
    match numbering.at(place) {
        Some(number) => declared(number, &symbol.role),
        None => Found::Nothing,
    }
}

/// The kind of the index of this name.
fn index_kind(indexes: &[IndexName], name: &[u8]) -> Option<Kind>
    requires { length indexes.now ≤ 1 }
    ensures { result ≡ index_kind indexes.now name.now }
{
    let [index, ..] = indexes else {
        return None;
    };
    if index.name.as_bytes() == name {
        Some(index.kind)
    } else {
        None
    }
}

/// What a name stands for.
pub fn find<'a>(standing: &Standing<'a>, numbering: &Numbering, name: &[u8]) -> Found<'a>
    requires { IsNamed standing.now numbering.now }
    ensures found { entity_of result ≡ entity (scope_at (standing_of standing.now)) name.now }
    ensures few { elements_in (bounds_found result) ≤ 4194304 }
{
    match index_kind(standing.indexes, name) {
        Some(kind) => Found::Index(kind),
        None => outer(standing.symbols, numbering, name),
    }
}
