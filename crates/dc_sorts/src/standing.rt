//! Where an expression stands.

ghost use Rattle.std.specs.Prelude.{◌≡◌, map, option_map, IsTrue};
ghost use Rattle.std.specs.List.{list_all};
ghost use Rattle.dc_int.specs.Sorts.{Sort};
ghost use Rattle.dc_tree.specs.Entities.{result_in, symbols_in};
ghost use Rattle.dc_tree.specs.Symbols.{is_sound};
ghost use Rattle.dc_sorts.specs.Forms.{form_of_sort};
ghost use Rattle.dc_sorts.specs.Meanings.{meaning_of_role, symbol_meaning, declared_meaning, is_fixed_meaning};
ghost use Rattle.dc_sorts.specs.Standing.{standing_of, index_kind, meaning, is_counted, is_fixed};

use crate::form::Form;
use crate::meaning::Meaning;
use dc_int::Kind;
use dc_text::{DcList, DcText};
use dc_tree::{Intent, Role, Symbols};

/// An index of a DO CONCURRENT with its kind.
#[derive(Debug, Drop)]
pub struct IndexName {
    pub name: DcText,
    pub kind: Kind,
}

/// The names that can be used at a place. `unit` is 0 in the main program and else the procedure's number;
/// `indexes` are those of the loops DO CONCURRENT around, the innermost first; `counted` are the variables of
/// the counted DOs around; `callees` has for each procedure what its dummies mean in it.
#[derive(Clone, Copy)]
pub struct Standing<'a> {
    pub symbols: &'a Symbols,
    pub unit: u32,
    pub indexes: &'a [IndexName],
    pub counted: &'a [DcText],
    pub callees: &'a [DcList<Meaning>],
}

impl Standing<'_> {
    /// What a name stands for here.
    pub fn meaning(&self, name: &[u8]) -> Meaning
        ensures meaning { result ≡ meaning (standing_of self.now) name.now }
        ensures sound { IsTrue (list_all is_sound (standing_of self.now).symbols) }
    {
        let declared = declared_meaning(self.symbols, self.unit, name);
        match index_kind(self.indexes, name) {
            Some(kind) => Meaning::Index(kind),
            None => declared,
        }
    }

    /// Whether a name may not be defined here.
    pub fn is_fixed(&self, name: &[u8]) -> bool
        ensures { result ≡ is_fixed (standing_of self.now) name.now }
    {
        is_fixed_meaning(self.meaning(name)) || is_counted(self.counted, name)
    }
}

#[tactic(auto, using(std::proofs::lemmas::List::drop_more))]
fn index_kind(indexes: &[IndexName], name: &[u8]) -> Option<Kind>
    ensures { result ≡ index_kind indexes.now name.now }
{
    for index in indexes {
        if index.name.as_bytes() == name {
            return Some(index.kind);
        }
    }
    None
}

fn is_counted(names: &[DcText], name: &[u8]) -> bool
    ensures { result ≡ is_counted names.now name.now }
{
    names.iter().any(|counted| counted.as_bytes() == name)
}

fn is_fixed_meaning(meaning: Meaning) -> bool
    ensures { result ≡ is_fixed_meaning meaning }
{
    matches!(
        meaning,
        Meaning::Index(_)
            | Meaning::Constant { .. }
            | Meaning::Dummy {
                intent: Intent::Into,
                ..
            }
    )
}

/// The form of the result of a procedure, if it is a function.
#[tactic(auto, using(crate::proofs::Entities::result_forms))]
fn result_form(symbols: &Symbols, number: u32) -> Option<Form>
    ensures { result ≡ option_map form_of_sort (result_in (symbols_in number symbols.now)) }
{
    let (logical, kind) = symbols.result(number)?;
    Some(Form::new(logical, kind))
}

fn meaning_of_role(symbols: &Symbols, role: &Role) -> Meaning
    ensures { result ≡ meaning_of_role symbols.now role.now }
{
    match role {
        Role::Variable {
            logical,
            kind,
            bounds,
            ..
        } => Meaning::Variable {
            form: Form::new(*logical, *kind),
            rank: bounds.len(),
        },
        Role::Constant {
            logical,
            kind,
            value,
        } => Meaning::Constant {
            form: Form::new(*logical, *kind),
            value: *value,
        },
        Role::Dummy {
            logical,
            kind,
            intent,
            ..
        } => Meaning::Dummy {
            form: Form::new(*logical, *kind),
            intent: *intent,
        },
        Role::Result { logical, kind } => Meaning::Result(Form::new(*logical, *kind)),
        Role::Function(number) => Meaning::Procedure {
            function: true,
            number: *number,
            result: result_form(symbols, *number),
        },
        Role::Subroutine(number) => Meaning::Procedure {
            function: false,
            number: *number,
            result: result_form(symbols, *number),
        },
    }
}

fn symbol_meaning(symbols: &Symbols, unit: u32, name: &[u8]) -> Option<Meaning>
    ensures meaning { result ≡ symbol_meaning symbols.now unit name.now }
    ensures sound { IsTrue (list_all is_sound symbols.now) }
{
    let symbol = symbols.lookup(unit, name)?;
    Some(meaning_of_role(symbols, &symbol.role))
}

/// What a name is declared as in a unit, or else in the main program.
fn declared_meaning(symbols: &Symbols, unit: u32, name: &[u8]) -> Meaning
    ensures meaning { result ≡ declared_meaning symbols.now unit name.now }
    ensures sound { IsTrue (list_all is_sound symbols.now) }
{
    match symbol_meaning(symbols, unit, name) {
        Some(own) => own,
        None => symbol_meaning(symbols, 0, name).unwrap_or(Meaning::Nothing),
    }
}
