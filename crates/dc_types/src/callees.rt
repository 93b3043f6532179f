//! What the dummies of the procedures mean in them.

ghost use Rattle.std.specs.Prelude.{◌≡◌, map, IfOk};
ghost use Rattle.dc_tree.specs.Blocks.{subprogram_of};
ghost use Rattle.dc_tree.specs.Statements.{statement};
ghost use Rattle.dc_sorts.specs.Meanings.{declared_meaning};
ghost use Rattle.dc_sorts.specs.Standing.{standing_of};
ghost use Rattle.dc_types.specs.Types.{callees_from, dummies_in, number_behind, standing_in};

use dc_sorts::{Meaning, Standing};
use dc_text::{DcList, DcText, NoMemory};
use dc_tree::{Procedure, Stmt, Symbols};
use std::alloc::Global;

/// The names in a unit, outside of its loops.
pub(crate) fn standing_in<'a>(
    symbols: &'a Symbols,
    callees: &'a [DcList<Meaning>],
    unit: u32,
) -> Standing<'a>
    ensures { standing_of result ≡ standing_in symbols.now callees.now unit }
{
    Standing {
        symbols,
        unit,
        indexes: &[],
        counted: &[],
        callees,
    }
}

/// The number of the next procedure.
pub(crate) fn number_behind(number: u32) -> u32
    ensures { result ≡ number_behind number }
{
    if number < u32::MAX {
        number + 1
    } else {
        number
    }
}

fn dummies_in(stmt: &Stmt) -> &[DcText]
    ensures { result.now ≡ dummies_in (statement stmt.now) }
{
    match stmt {
        Stmt::Procedure { dummies, .. } => dummies.as_slice(),
        _ => &[],
    }
}

#[tactic(auto, using(dc_tree::proofs::Findings::notes, dc_operands::proofs::Gathering::gathering))]
fn meanings(
    alloc: Global,
    symbols: &Symbols,
    number: u32,
    names: &[DcText],
) -> Result<DcList<Meaning>, NoMemory>
    ensures { IfOk result (λ list. list ≡ map (declared_meaning symbols.now number) names.now) }
{
    let standing = standing_in(symbols, &[], number);
    let mut list = DcList::new(alloc);
    for name in names {
        list.push(standing.meaning(name.as_bytes()))?;
    }
    Ok(list)
}

/// What the dummies of each procedure mean in it.
#[tactic(auto, using(dc_tree::proofs::Findings::notes, dc_operands::proofs::Gathering::gathering))]
pub(crate) fn callees(
    alloc: Global,
    symbols: &Symbols,
    procedures: &[Procedure],
) -> Result<DcList<DcList<Meaning>>, NoMemory>
    ensures { IfOk result (λ list. list
        ≡ callees_from symbols.now 1 (map subprogram_of procedures.now)) }
{
    let mut list = DcList::new(alloc);
    let mut number = 1;
    for procedure in procedures {
        let head = &procedure.head;
        list.push(meanings(alloc, symbols, number, dummies_in(&head.stmt))?)?;
        number = number_behind(number);
    }
    Ok(list)
}
