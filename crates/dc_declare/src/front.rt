//! The declarations of a unit.

ghost use Rattle.std.specs.Prelude.{◌≡◌, IfOk, OnOk, map};
ghost use Rattle.dc_declare.specs.Declarations.{given_in, given_findings, after_declaration, declaring_findings, after_statement, statement_findings, after_front, front_findings, scan_of, symbols_after};
ghost use Rattle.dc_tree.specs.Blocks.{line_of};
ghost use Rattle.dc_tree.specs.Findings.{least_with_all};
ghost use Rattle.dc_tree.specs.Statements.{attribute, declared_of, statement, type_form};

use crate::entity::declare_entities;
use crate::given::{Given, given_with, note_attributes};
use crate::heading::Heading;
use crate::scan::Scan;
use crate::table::declaring;
use crate::types::{note_type, type_of};
use crate::used::{declare_used, note_module};
use dc_text::NoMemory;
use dc_tree::{Attr, Entity, LeastFinding, Lined, Stmt, Symbols, TypeSpec};
use std::alloc::Global;

/// The type and the attributes of a declaration.
fn given_in(
    alloc: Global,
    symbols: &Symbols,
    unit: u32,
    spec: &TypeSpec,
    attrs: &[Attr],
) -> Result<Given, NoMemory>
    ensures { IfOk result (λ given. given
        ≡ given_in symbols.now unit (type_form spec.now) (map attribute attrs.now)) }
{
    let standing = declaring(symbols, unit);
    let form = type_of(alloc, &standing, spec)?;
    given_with(alloc, &standing, form, attrs)
}

#[tactic(auto, using(dc_tree::proofs::Findings::notes))]
fn note_given(
    alloc: Global,
    line: u32,
    symbols: &Symbols,
    unit: u32,
    spec: &TypeSpec,
    attrs: &[Attr],
    found: &mut LeastFinding,
) -> Result<(), NoMemory>
    ensures { OnOk result (found.new
        ≡ least_with_all found.old (given_findings symbols.now unit line (type_form spec.now)
        (map attribute attrs.now))) }
{
    let standing = declaring(symbols, unit);
    note_type(alloc, &standing, line, spec, found)?;
    note_attributes(alloc, &standing, line, attrs, found)
}

/// Declares the names of a declaration.
#[tactic(auto, using(dc_tree::proofs::Findings::notes))]
fn declare_all(
    alloc: Global,
    heading: &Heading,
    line: u32,
    spec: &TypeSpec,
    attrs: &[Attr],
    entities: &[Entity],
    scan: &mut Scan,
    found: &mut LeastFinding,
) -> Result<(), NoMemory>
    ensures scan { OnOk result (scan.new
        ≡ after_declaration heading.now scan.old (type_form spec.now) (map attribute attrs.now)
        (map declared_of entities.now)) }
    ensures findings { OnOk result (found.new
        ≡ least_with_all found.old (declaring_findings heading.now scan.old line
        (type_form spec.now) (map attribute attrs.now) (map declared_of entities.now))) }
{
    let unit = heading.unit;
    note_given(alloc, line, &scan.symbols, unit, spec, attrs, found)?;
    let given = given_in(alloc, &scan.symbols, unit, spec, attrs)?;
    declare_entities(alloc, heading, line, &given, entities, scan, found)
}

#[tactic(auto, using(dc_tree::proofs::Findings::notes))]
fn declare_statement(
    alloc: Global,
    heading: &Heading,
    lined: &Lined,
    scan: &mut Scan,
    found: &mut LeastFinding,
) -> Result<(), NoMemory>
    ensures scan { OnOk result (scan.new
        ≡ after_statement heading.now scan.old (statement lined.now.stmt)) }
    ensures findings { OnOk result (found.new
        ≡ least_with_all found.old (statement_findings heading.now scan.old lined.now.line
        (statement lined.now.stmt))) }
{
    let line = lined.line;
    let unit = heading.unit;
    match &lined.stmt {
        Stmt::Use {
            form: _,
            module,
            only,
        } => {
            note_module(line, module.as_bytes(), found);
            declare_used(alloc, line, unit, only.as_slice(), &mut scan.symbols, found)
        }
        Stmt::Declare {
            spec,
            attrs,
            colons: _,
            entities,
        } => {
            let attrs = attrs.as_slice();
            let entities = entities.as_slice();
            declare_all(alloc, heading, line, spec, attrs, entities, scan, found)
        }
        _ => Ok(()),
    }
}

/// Declares what a unit's declarations name, in their order.
#[tactic(auto, using(dc_tree::proofs::Findings::notes))]
fn declare_front(
    alloc: Global,
    heading: &Heading,
    front: &[Lined],
    scan: &mut Scan,
    found: &mut LeastFinding,
) -> Result<(), NoMemory>
    ensures scan { OnOk result (scan.new
        ≡ after_front heading.now scan.old (map line_of front.now)) }
    ensures findings { OnOk result (found.new
        ≡ least_with_all found.old (front_findings heading.now scan.old (map line_of front.now))) }
{
    for lined in front {
        declare_statement(alloc, heading, lined, scan, found)?;
    }
    Ok(())
}

/// Declares what the declarations of a unit name, which begins with no elements. Gives the symbols
/// with those.
#[tactic(auto, using(dc_tree::proofs::Findings::notes))]
pub(crate) fn declare_unit(
    alloc: Global,
    heading: &Heading,
    front: &[Lined],
    symbols: Symbols,
    found: &mut LeastFinding,
) -> Result<Symbols, NoMemory>
    ensures symbols { IfOk result (λ made. made
        ≡ symbols_after heading.now symbols (map line_of front.now)) }
    ensures findings { OnOk result (found.new
        ≡ least_with_all found.old (front_findings heading.now (scan_of symbols)
        (map line_of front.now))) }
{
    let mut scan = Scan {
        symbols,
        elements: 0,
    };
    declare_front(alloc, heading, front, &mut scan, found)?;
    let Scan {
        symbols,
        elements: _,
    } = scan;
    Ok(symbols)
}
