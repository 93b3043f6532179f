//! Declared names.

ghost use Rattle.std.specs.Prelude.{◌≡◌, ◌<◌, ◌++◌, ◌∷◌, [], length, None, IsTrue, OnOk, OnErr, option_map};
ghost use Rattle.std.specs.List.{list_all};
ghost use Rattle.std.specs.Option.{option_copied};
ghost use Rattle.dc_tree.specs.Symbols.{symbol_at, declared_sort, is_sound};
ghost use Rattle.dc_tree.specs.Entities.{result_of, result_in, symbols_in};
ghost use Rattle.dc_tree.specs.Places.{place_at, place_in, noted_in, IsSameIndex, HasSameResults, Adds, AddsResult};

use crate::stmt::Intent;
use dc_int::Kind;
use dc_text::{DcList, DcText, NoMemory};
use indexmap::IndexMap;
use std::alloc::Global;
use std::marker::Model;

/// What a name is declared as. A variable with no `bounds` is a scalar. One with no `initial`
/// begins undefined, and else it has one number for each element, in the order of the elements and
/// wrapped to the variable's kind already. A truth is 1 or 0. `place` counts the dummies of a
/// procedure from 0. `Function` and `Subroutine` hold the procedure's number, from 1.
#[derive(Drop)]
pub enum Role {
    Variable {
        logical: bool,
        kind: Kind,
        bounds: DcList<(i64, i64)>,
        initial: DcList<i64>,
    },
    Constant {
        logical: bool,
        kind: Kind,
        value: i64,
    },
    Dummy {
        place: u32,
        logical: bool,
        kind: Kind,
        intent: Intent,
    },
    Result {
        logical: bool,
        kind: Kind,
    },
    Function(u32),
    Subroutine(u32),
}

/// A declared name. Scope 0 is the main program, and scope p the p-th procedure.
#[derive(Drop)]
pub struct Symbol {
    pub scope: u32,
    pub name: DcText,
    pub role: Role,
}

/// The places of a scope's symbols by their names.
type Index = IndexMap<Vec<u8>, usize>;

/// What is kept of a scope: its names, and the type of its first result, if it has one.
#[derive(Drop)]
struct NamedScope {
    names: Index,
    result: Option<(bool, Kind)>,
}

/// The declared names, seen as the list of their symbols in declared order. Every symbol is sound:
/// its values are of its sort, and it stands in a scope where its role may stand.
#[derive(Drop)]
pub struct Symbols {
    symbols: DcList<Symbol>,
    scopes: Vec<NamedScope>,
}

impl Model for Symbols {
    ghost use Rattle.std.specs.Prelude.{List};
    ghost use Rattle.dc_tree.specs.declared.symbols.Symbol.{Symbol};
    ghost use Rattle.dc_tree.specs.Places.{AreScopes};

    ghost Value = { List Symbol };

    ghost view = { λ a. a.symbols };

    ghost invariant = { λ a. AreScopes a.scopes.items a.symbols };
}

impl Symbols {
    /// No symbols. It takes no memory.
    pub fn new(alloc: Global) -> Symbols
        ensures { result ≡ [] }
    {
        Symbols {
            symbols: DcList::new(alloc),
            scopes: Vec::new(alloc),
        }
    }

    /// The symbols in declared order.
    pub fn as_slice(&self) -> &[Symbol]
        ensures symbols { result.now ≡ self.now }
        ensures sound { IsTrue (list_all is_sound self.now) }
    {
        self.symbols.as_slice()
    }

    /// What a name is declared as in this scope alone.
    pub fn lookup(&self, scope: u32, name: &[u8]) -> Option<&Symbol>
        ensures symbol { option_copied result ≡ symbol_at self.now scope name.now }
        ensures sound { IsTrue (list_all is_sound self.now) }
    {
        let place = find(self.scopes.as_slice(), scope, name)?;
        self.symbols.get(place)
    }

    /// Where the symbol of a name stands in declared order, from 0.
    pub fn place(&self, scope: u32, name: &[u8]) -> Option<usize>
        ensures { result ≡ place_at self.now scope name.now }
    {
        find(self.scopes.as_slice(), scope, name)
    }

    /// The type of the result of a procedure, if it is a function: whether it is LOGICAL, and its
    /// kind.
    pub fn result(&self, scope: u32) -> Option<(bool, Kind)>
        ensures { option_map declared_sort result ≡ result_in (symbols_in scope self.now) }
    {
        noted(self.scopes.as_slice(), scope)
    }

    /// Declares a name that its scope hasn't yet. A refused symbol is dropped.
    pub fn push(&mut self, alloc: Global, symbol: Symbol) -> Result<(), NoMemory>
        requires free { symbol_at self.old symbol.scope symbol.name ≡ None }
        requires sound { IsTrue (is_sound symbol) }
        ensures ok { OnOk result (self.new ≡ self.old ++ symbol ∷ []) }
        ensures err { OnErr result (self.new ≡ self.old) }
    {
        let scope = symbol.scope;
        let name = symbol.name.copy(alloc)?.into_vec();
        let form = result_of(&symbol);
        let place = self.symbols.len();
        open(alloc, &mut self.scopes, scope)?;
        self.symbols.push(symbol)?;
        if let Err(error) = note(&mut self.scopes, scope, name, place) {
            let _refused = self.symbols.pop();
            return Err(error);
        }
        note_result(&mut self.scopes, scope, form);
        Ok(())
    }
}

fn result_of(symbol: &Symbol) -> Option<(bool, Kind)>
    ensures { option_map declared_sort result ≡ result_of symbol.now }
{
    match symbol.role {
        Role::Result { logical, kind } => Some((logical, kind)),
        _ => None,
    }
}

fn find(scopes: &[NamedScope], scope: u32, name: &[u8]) -> Option<usize>
    ensures { result ≡ place_in scopes.now scope name.now }
{
    scopes.get(scope as usize)?.names.get(name).copied()
}

fn noted(scopes: &[NamedScope], scope: u32) -> Option<(bool, Kind)>
    ensures { option_map declared_sort result ≡ noted_in scopes.now scope }
{
    scopes.get(scope as usize)?.result
}

/// Makes a scope known, where it isn't yet.
fn open(alloc: Global, scopes: &mut Vec<NamedScope>, scope: u32) -> Result<(), NoMemory>
    ensures same { IsSameIndex scopes.old.items scopes.new.items }
    ensures results { HasSameResults scopes.old.items scopes.new.items }
    ensures open { OnOk result (scope < length scopes.new.items) }
{
    while scopes.len() <= scope as usize {
        scopes.push(NamedScope {
            names: IndexMap::new(alloc),
            result: None,
        })?;
    }
    Ok(())
}

/// Notes the place of a name.
fn note(
    scopes: &mut Vec<NamedScope>,
    scope: u32,
    name: Vec<u8>,
    place: usize,
) -> Result<(), NoMemory>
    requires { scope < length scopes.old.items }
    ensures results { HasSameResults scopes.old.items scopes.new.items }
    ensures open { scope < length scopes.new.items }
    ensures ok { OnOk result (Adds scopes.old.items scope name.items place scopes.new.items) }
    ensures err { OnErr result (IsSameIndex scopes.old.items scopes.new.items) }
{
    let own = &mut scopes[scope as usize];
    own.names.insert(name, place)?;
    Ok(())
}

/// Notes the result of a scope, where it has none yet.
fn note_result(scopes: &mut Vec<NamedScope>, scope: u32, form: Option<(bool, Kind)>)
    requires { scope < length scopes.old.items }
    ensures same { IsSameIndex scopes.old.items scopes.new.items }
    ensures results { AddsResult scopes.old.items scope form scopes.new.items }
{
    let own = &mut scopes[scope as usize];
    own.result = own.result.or(form);
}
