//! The variables with which a program begins.

ghost use Rattle.std.specs.Prelude.{IsTrue, IfOk, ◌≡◌, ◌≤◌};
ghost use Rattle.std.specs.List.{list_all};
ghost use Rattle.dc_int.specs.Store.{elements_in};
ghost use Rattle.dc_form.specs.BuiltPrograms.{is_built_symbol, elements_of_all};
ghost use Rattle.dc_plain.specs.FirstStores.{begun, first_cells, first_store};
ghost use Rattle.dc_plain.specs.Views.{variable_of, store_of};

use crate::note::Variable;
use crate::size::size_of;
use dc_text::{DcList, NoMemory};
use dc_tree::{Role, Symbol};
use std::alloc::Global;

/// The cells of a variable with these initial values: undefined where there are none.
fn initial_cells(
    alloc: Global,
    bounds: &[(i64, i64)],
    given: &[i64],
) -> Result<Vec<Option<i64>>, NoMemory>
    requires { elements_in bounds.now ≤ 4194304 }
    ensures { IfOk result (λ made. made.items ≡ first_cells bounds.now given.now) }
{
    if given.is_empty() {
        return Ok(Vec::from_elem(alloc, None, size_of(bounds))?);
    }
    let mut cells = Vec::new(alloc);
    for value in given {
        cells.push(Some(*value))?;
    }
    Ok(cells)
}

fn initial_variable(
    alloc: Global,
    bounds: &[(i64, i64)],
    initial: &[i64],
) -> Result<Variable, NoMemory>
    requires { elements_in bounds.now ≤ 4194304 }
    ensures { IfOk result (λ made. variable_of made ≡ begun bounds.now initial.now) }
{
    let cells = initial_cells(alloc, bounds, initial)?;
    let bounds = DcList::from_vec(Vec::from_slice(alloc, bounds)?);
    Ok(Variable { bounds, cells })
}

/// The variables of a program with their initial values.
pub(crate) fn initial_variables(
    alloc: Global,
    symbols: &[Symbol],
) -> Result<Vec<Variable>, NoMemory>
    requires built { IsTrue (list_all is_built_symbol symbols.now) }
    requires few { elements_of_all symbols.now ≤ 4194304 }
    ensures { IfOk result (λ made. store_of made.items ≡ first_store symbols.now) }
{
    let mut variables = Vec::new(alloc);
    for symbol in symbols {
        if let Role::Variable {
            bounds,
            initial,
            ..
        } = &symbol.role
        {
            variables.push(initial_variable(alloc, bounds.as_slice(), initial.as_slice())?)?;
        }
    }
    Ok(variables)
}
