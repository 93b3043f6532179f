//! The outside variables of a code: their shapes and their bounds.

ghost use Rattle.std.specs.Prelude.{◌≡◌, ◌≤◌, ◌++◌, [], ◌∷◌, IfOk, OnOk, IsTrue};
ghost use Rattle.dc_int.specs.Sorts.{sort_with, kind_of};
ghost use Rattle.dc_int.specs.Store.{elements_in};
ghost use Rattle.dc_form.specs.BuiltPrograms.{is_built_symbol, role_elements, are_built_symbols};
ghost use Rattle.dc_actions.specs.Typed.{are_held_bounds};
ghost use Rattle.dc_lower.specs.Lowerable.{is_held_symbol, are_held_symbols};
ghost use Rattle.dc_lower.specs.Lowered.{is_truth};
ghost use Rattle.dc_lower.specs.Variables.{shapes_of, bounds_of_all};

use dc_entities::elements;
use dc_int::{Kind, Shape};
use dc_sorts::{Form, kind_of};
use dc_text::{DcList, NoMemory};
use dc_tree::{Role, Symbol, Symbols};
use std::alloc::Global;

/// The shapes and the bounds of outside variables, in declared order.
#[derive(Drop)]
pub(crate) struct Variables {
    pub shapes: DcList<Shape>,
    pub bounds: DcList<DcList<(i64, i64)>>,
}

/// Whether an instruction holds the bounds of a dimension, as it does every one that a symbol has.
fn hold(dimension: (i64, i64)) -> (i64, i64)
    ensures same { result ≡ dimension }
    ensures held { IsTrue (are_held_bounds (dimension ∷ [])) }
{
    dimension
}

/// The same bounds once more.
#[tactic(auto, using(dc_sorts::proofs::Knowing::gathering))]
fn copied(alloc: Global, bounds: &[(i64, i64)]) -> Result<DcList<(i64, i64)>, NoMemory>
    ensures copy { IfOk result (λ made. made ≡ bounds.now) }
    ensures held { OnOk result (IsTrue (are_held_bounds bounds.now)) }
{
    let mut made = DcList::new(alloc);
    for dimension in bounds {
        made.push(hold(*dimension))?;
    }
    Ok(made)
}

impl Variables {
    /// Adds a variable of a type.
    fn declare(
        &mut self,
        alloc: Global,
        logical: bool,
        kind: Kind,
        bounds: &[(i64, i64)],
    ) -> Result<(), NoMemory>
        requires { elements_in bounds.now ≤ 4194304 }
        ensures shapes { OnOk result ((self.new).shapes ≡ (self.old).shapes ++ record {
          kind = kind_of (sort_with logical kind);
          logical = is_truth (sort_with logical kind);
          elements = elements_in bounds.now;
        } ∷ []) }
        ensures bounds { OnOk result ((self.new).bounds ≡ (self.old).bounds ++ bounds.now ∷ []) }
        ensures held { OnOk result (IsTrue (are_held_bounds bounds.now)) }
    {
        self.shapes.push(Shape {
            kind: kind_of(Form::new(logical, kind)),
            logical,
            elements: elements(bounds),
        })?;
        self.bounds.push(copied(alloc, bounds)?)
    }

    /// Adds what a symbol declares, if that is a variable.
    #[tactic(auto, using(dc_sorts::proofs::Knowing::gathering))]
    fn symbol(&mut self, alloc: Global, symbol: &Symbol) -> Result<(), NoMemory>
        requires built { IsTrue (is_built_symbol symbol.now) }
        requires few { role_elements (symbol.now).role ≤ 4194304 }
        ensures shapes { OnOk result ((self.new).shapes
            ≡ (self.old).shapes ++ shapes_of (symbol.now ∷ [])) }
        ensures bounds { OnOk result ((self.new).bounds
            ≡ (self.old).bounds ++ bounds_of_all (symbol.now ∷ [])) }
        ensures held { OnOk result (IsTrue (is_held_symbol symbol.now)) }
    {
        match &symbol.role {
            Role::Variable {
                logical,
                kind,
                bounds,
                ..
            } => self.declare(alloc, *logical, *kind, bounds.as_slice()),
            _ => Ok(()),
        }
    }
}

/// The outside variables of a program.
#[tactic(auto, using(dc_sorts::proofs::Knowing::gathering))]
pub(crate) fn outside_variables(alloc: Global, symbols: &Symbols) -> Result<Variables, NoMemory>
    requires { IsTrue (are_built_symbols symbols.now) }
    ensures shapes { IfOk result (λ made. made.shapes ≡ shapes_of symbols.now) }
    ensures bounds { IfOk result (λ made. made.bounds ≡ bounds_of_all symbols.now) }
    ensures held { OnOk result (IsTrue (are_held_symbols symbols.now)) }
{
    let mut made = Variables {
        shapes: DcList::new(alloc),
        bounds: DcList::new(alloc),
    };
    for symbol in symbols.as_slice() {
        made.symbol(alloc, symbol)?;
    }
    Ok(made)
}
