//! Variables with the states that a loop opens with.

ghost use Rattle.std.specs.Prelude.{◌≡◌, ◌≤◌, Some, IfOk};
ghost use Rattle.dc_form.specs.BuiltPrograms.{elements_of_all};
ghost use Rattle.dc_plain.specs.Views.{variable_of, store_of, store_with};

use crate::note::Variable;
use crate::size::size_of;
use dc_text::{DcList, NoMemory};
use dc_tree::{Role, Symbol};
use std::alloc::Global;

pub(crate) fn variable_with(
    alloc: Global,
    bounds: &[(i64, i64)],
    states: &[Option<i64>],
) -> Result<Variable, NoMemory>
    ensures { IfOk result
        (λ made. variable_of made ≡ record { bounds = Some bounds.now; cells = states.now }) }
{
    let cells = Vec::from_slice(alloc, states)?;
    let bounds = DcList::from_vec(Vec::from_slice(alloc, bounds)?);
    Ok(Variable { bounds, cells })
}

/// The variables, whose elements take these states in store order.
pub(crate) fn variables_with(
    alloc: Global,
    symbols: &[Symbol],
    opening: &[Option<i64>],
) -> Result<Vec<Variable>, NoMemory>
    requires { elements_of_all symbols.now ≤ 4194304 }
    ensures { IfOk result (λ made. store_of made.items ≡ store_with symbols.now opening.now) }
{
    let mut variables = Vec::new(alloc);
    let mut rest = opening;
    for symbol in symbols {
        if let Role::Variable { bounds, .. } = &symbol.role {
            let size = size_of(bounds.as_slice()).min(rest.len());
            let (own, later) = rest.split_at(size);
            variables.push(variable_with(alloc, bounds.as_slice(), own)?)?;
            rest = later;
        }
    }
    Ok(variables)
}
