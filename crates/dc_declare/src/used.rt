//! USE of the kinds of ISO_FORTRAN_ENV.

ghost use Rattle.std.specs.Prelude.{◌≡◌, false, IsTrue, MatchOption, OnOk};
ghost use Rattle.dc_declare.specs.Uses.{kind_named, with_kind, with_used, used_findings, each_used, module_findings};
ghost use Rattle.dc_int.specs.declared.kind.Kind.{Kind};
ghost use Rattle.dc_int.specs.Kinds.{value_fits};
ghost use Rattle.dc_tree.specs.Findings.{least_with_all};

use crate::table::is_taken;
use dc_int::Kind;
use dc_text::{DcText, NoMemory};
use dc_tree::{LeastFinding, Role, Symbol, Symbols};
use std::alloc::Global;

fn kind_named(name: &[u8]) -> Option<i64>
    ensures equal { result ≡ kind_named name.now }
    ensures fits { MatchOption result (Unit {0}) (λ value. IsTrue
        (value_fits Kind.K4 false value)) }
{
    if name == b"int8".as_slice() {
        Some(1)
    } else if name == b"int16".as_slice() {
        Some(2)
    } else if name == b"int32".as_slice() {
        Some(4)
    } else if name == b"int64".as_slice() {
        Some(8)
    } else {
        None
    }
}

/// Notes where another module is named.
#[tactic(auto, using(dc_tree::proofs::Findings::notes))]
pub(crate) fn note_module(line: u32, name: &[u8], found: &mut LeastFinding)
    ensures { found.new ≡ least_with_all found.old (module_findings line name.now) }
{
    found.note_if(name != b"iso_fortran_env".as_slice(), 22, line);
}

fn add_kind(alloc: Global, unit: u32, name: &DcText, symbols: &mut Symbols) -> Result<(), NoMemory>
    ensures { OnOk result (symbols.new
        ≡ with_kind symbols.old unit name.now (kind_named name.now)) }
{
    let Some(value) = kind_named(name.as_bytes()) else {
        return Ok(());
    };
    if is_taken(symbols, unit, name.as_bytes()) {
        return Ok(());
    }
    let name = name.copy(alloc)?;
    symbols.push(
        alloc,
        Symbol {
            scope: unit,
            name,
            role: Role::Constant {
                logical: false,
                kind: Kind::K4,
                value,
            },
        },
    )
}

#[tactic(auto, using(dc_tree::proofs::Findings::notes))]
fn note_used(line: u32, symbols: &Symbols, unit: u32, name: &[u8], found: &mut LeastFinding)
    ensures { found.new ≡ least_with_all found.old (used_findings line symbols.now unit name.now) }
{
    found.note_if(is_taken(symbols, unit, name), 19, line);
    found.note_if(kind_named(name).is_none(), 22, line);
}

/// Declares the kinds that a USE statement names.
#[tactic(auto, using(dc_tree::proofs::Findings::notes))]
pub(crate) fn declare_used(
    alloc: Global,
    line: u32,
    unit: u32,
    names: &[DcText],
    symbols: &mut Symbols,
    found: &mut LeastFinding,
) -> Result<(), NoMemory>
    ensures symbols { OnOk result (symbols.new ≡ with_used symbols.old unit names.now) }
    ensures findings { OnOk result (found.new
        ≡ least_with_all found.old (each_used line symbols.old unit names.now)) }
{
    for name in names {
        note_used(line, symbols, unit, name.as_bytes(), found);
        add_kind(alloc, unit, name, symbols)?;
    }
    Ok(())
}
