//! The declared names as they grow.

ghost use Rattle.std.specs.Prelude.{◌≡◌, IsTrue, OnOk};
ghost use Rattle.dc_declare.specs.Tables.{declaring, is_taken, with_symbol, taken_findings};
ghost use Rattle.dc_sorts.specs.Standing.{standing_of};
ghost use Rattle.dc_tree.specs.Findings.{least_with_all};
ghost use Rattle.dc_tree.specs.Symbols.{is_sound};

use dc_sorts::Standing;
use dc_text::NoMemory;
use dc_tree::{LeastFinding, Symbol, Symbols};
use std::alloc::Global;

/// Where the expressions of a unit's declarations stand.
pub(crate) fn declaring(symbols: &Symbols, unit: u32) -> Standing<'_>
    ensures { standing_of result ≡ declaring symbols.now unit }
{
    Standing {
        symbols,
        unit,
        indexes: &[],
        counted: &[],
        callees: &[],
    }
}

pub(crate) fn is_taken(symbols: &Symbols, scope: u32, name: &[u8]) -> bool
    ensures { result ≡ is_taken symbols.now scope name.now }
{
    symbols.lookup(scope, name).is_some()
}

/// Declares a name, and notes where its scope has it already. The first symbol of a name stands.
#[tactic(auto, using(dc_tree::proofs::Findings::notes))]
pub(crate) fn declare(
    alloc: Global,
    line: u32,
    symbol: Symbol,
    symbols: &mut Symbols,
    found: &mut LeastFinding,
) -> Result<(), NoMemory>
    requires { IsTrue (is_sound symbol) }
    ensures symbols { OnOk result (symbols.new ≡ with_symbol symbols.old symbol) }
    ensures findings { OnOk result (found.new
        ≡ least_with_all found.old (taken_findings line symbols.old symbol.scope symbol.name)) }
{
    if is_taken(symbols, symbol.scope, symbol.name.as_bytes()) {
        found.note(19, line);
        return Ok(());
    }
    symbols.push(alloc, symbol)
}
