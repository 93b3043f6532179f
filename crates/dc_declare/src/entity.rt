//! The names of declarations.

ghost use Rattle.std.specs.Prelude.{◌≡◌, IfOk, OnOk, map, option_map};
ghost use Rattle.dc_declare.specs.Entities.{bounds_in, own_findings, intent_or_in, entry_of, entry_findings, total_after, is_too_much, total_findings, initial_of, role_of, after_entry, after_entity, made_findings, found_entry, entity_findings, after_entities, entities_findings};
ghost use Rattle.dc_declare.specs.declared.entry.Nature.{Nature};
ghost use Rattle.dc_declare.specs.Bounds.{is_array};
ghost use Rattle.dc_declare.specs.Tables.{declaring};
ghost use Rattle.dc_declare.specs.Totals.{size_of};
ghost use Rattle.dc_declare.specs.Values.{filled};
ghost use Rattle.dc_sorts.specs.Standing.{standing_of};
ghost use Rattle.dc_tree.specs.Findings.{least_with_all};
ghost use Rattle.dc_tree.specs.Statements.{dimension_of, declared_of, initial};

use crate::bounds::{all_bounds, is_array, note_bounds, shared};
use crate::entry::{Entry, Nature};
use crate::given::Given;
use crate::heading::Heading;
use crate::nature::{is_variable, nature_of, note_nature};
use crate::scan::Scan;
use crate::table::{declare, declaring};
use crate::totals::{is_over, size_of, total_with};
use crate::types::ElementType;
use crate::values::{filled, first_value, is_valued, note_initial, note_list, values_in};
use dc_sorts::Standing;
use dc_text::{DcList, NoMemory};
use dc_tree::{Bound, Entity, Init, Intent, LeastFinding, Role, Symbol};
use std::alloc::Global;

fn bounds_in(
    alloc: Global,
    standing: &Standing,
    given: &Given,
    own: &Option<DcList<Bound>>,
) -> Result<DcList<(i64, i64)>, NoMemory>
    ensures { IfOk result (λ made. made
        ≡ bounds_in (standing_of standing.now) given.now (option_map (map dimension_of) own.now)) }
{
    match own {
        Some(bounds) => all_bounds(alloc, standing, bounds.as_slice()),
        None => shared(alloc, given.bounds.as_slice()),
    }
}

#[tactic(auto, using(dc_tree::proofs::Findings::notes))]
fn note_own(
    alloc: Global,
    standing: &Standing,
    line: u32,
    own: &Option<DcList<Bound>>,
    found: &mut LeastFinding,
) -> Result<(), NoMemory>
    ensures { OnOk result (found.new
        ≡ least_with_all found.old (own_findings (standing_of standing.now) line (option_map
        (map dimension_of) own.now))) }
{
    match own {
        Some(bounds) => note_bounds(alloc, standing, line, bounds.as_slice(), found),
        None => Ok(()),
    }
}

fn intent_or_in(intent: Option<Intent>) -> Intent
    ensures { result ≡ intent_or_in intent }
{
    match intent {
        Some(intent) => intent,
        None => Intent::Into,
    }
}

/// What a name is, with its bounds and values.
fn entry_of(
    alloc: Global,
    heading: &Heading,
    standing: &Standing,
    given: &Given,
    entity: &Entity,
) -> Result<Entry, NoMemory>
    ensures { IfOk result (λ entry. entry
        ≡ entry_of heading.now (standing_of standing.now) given.now (declared_of entity.now)) }
{
    let nature = nature_of(heading, given.constant, entity.name.as_bytes())?;
    let bounds = bounds_in(alloc, standing, given, &entity.bounds)?;
    let values = values_in(alloc, standing, given.form, &entity.init)?;
    Ok(Entry {
        nature,
        bounds,
        values,
    })
}

/// Notes what the bounds and values of a name break by themselves.
#[tactic(auto, using(dc_tree::proofs::Findings::notes))]
fn note_entry(
    alloc: Global,
    standing: &Standing,
    line: u32,
    given: &Given,
    entity: &Entity,
    found: &mut LeastFinding,
) -> Result<(), NoMemory>
    ensures { OnOk result (found.new
        ≡ least_with_all found.old (entry_findings (standing_of standing.now) line given.now
        (declared_of entity.now))) }
{
    note_own(alloc, standing, line, &entity.bounds, found)?;
    note_initial(alloc, standing, line, given.form, &entity.init, found)
}

fn total_after(elements: u32, entry: &Entry) -> u32
    ensures { result ≡ total_after elements entry.now }
{
    if is_variable(entry.nature) {
        total_with(elements, size_of(entry.bounds.as_slice()))
    } else {
        elements
    }
}

fn is_too_much(unit: u32, total: u32, entry: &Entry) -> bool
    ensures { result ≡ is_too_much unit total entry.now }
{
    is_variable(entry.nature) && is_over(unit, total)
}

fn filled_in(
    alloc: Global,
    over: bool,
    init: &Init,
    bounds: &[(i64, i64)],
    values: DcList<i64>,
) -> Result<DcList<i64>, NoMemory>
    ensures { IfOk result (λ made. made
        ≡ filled over (is_array bounds.now) (size_of bounds.now) (initial init.now) values) }
{
    let array = is_array(bounds);
    let size = size_of(bounds);
    filled(alloc, over, array, size, init, values)
}

/// The initial values of a variable with these bounds.
fn initial_of(
    alloc: Global,
    unit: u32,
    total: u32,
    init: &Init,
    bounds: &[(i64, i64)],
    values: DcList<i64>,
) -> Result<DcList<i64>, NoMemory>
    ensures { IfOk result (λ made. made
        ≡ initial_of unit total (initial init.now)
        (record { nature = Nature.Variable; bounds = bounds.now; values = values })) }
{
    if unit == 0 {
        filled_in(alloc, is_over(unit, total), init, bounds, values)
    } else {
        Ok(DcList::new(alloc))
    }
}

/// The role of a name with which the variables of the unit have so many elements.
fn role_of(
    alloc: Global,
    unit: u32,
    total: u32,
    given: &Given,
    init: &Init,
    entry: Entry,
) -> Result<Role, NoMemory>
    ensures { IfOk result (λ role. role ≡ role_of unit total given.now (initial init.now) entry) }
{
    let ElementType { logical, kind } = given.form;
    let Entry {
        nature,
        bounds,
        values,
    } = entry;
    Ok(match nature {
        Nature::Dummy(place) => Role::Dummy {
            place,
            logical,
            kind,
            intent: intent_or_in(given.intent),
        },
        Nature::Result => Role::Result { logical, kind },
        Nature::Constant => Role::Constant {
            logical,
            kind,
            value: first_value(values.as_slice()),
        },
        Nature::Variable => {
            let initial = initial_of(alloc, unit, total, init, bounds.as_slice(), values)?;
            Role::Variable {
                logical,
                kind,
                bounds,
                initial,
            }
        }
    })
}

/// Notes what a name breaks by what it is. The variables of the unit have so many elements with it.
#[tactic(auto, using(dc_tree::proofs::Findings::notes))]
fn note_found(
    line: u32,
    unit: u32,
    total: u32,
    given: &Given,
    entity: &Entity,
    entry: &Entry,
    found: &mut LeastFinding,
)
    ensures { found.new
        ≡ least_with_all found.old (made_findings line unit total given.now
        (declared_of entity.now) entry.now) }
{
    let bounds = entry.bounds.as_slice();
    let array = is_array(bounds);
    let valued = is_valued(&entity.init);
    note_nature(line, entry.nature, given, array, valued, found);
    note_list(line, array, size_of(bounds), &entity.init, found);
    found.note_if(is_too_much(unit, total, entry), 24, line);
}

/// Declares a name that is this in its unit.
#[tactic(auto, using(dc_tree::proofs::Findings::notes))]
fn declare_entry(
    alloc: Global,
    heading: &Heading,
    line: u32,
    given: &Given,
    entity: &Entity,
    entry: Entry,
    scan: &mut Scan,
    found: &mut LeastFinding,
) -> Result<(), NoMemory>
    requires { entry
        ≡ entry_of heading.now (declaring scan.old.symbols heading.now.unit) given.now
        (declared_of entity.now) }
    ensures scan { OnOk result (scan.new
        ≡ after_entry heading.now.unit scan.old given.now (declared_of entity.now) entry) }
    ensures findings { OnOk result (found.new
        ≡ least_with_all found.old (found_entry heading.now.unit line scan.old given.now
        (declared_of entity.now) entry)) }
{
    let unit = heading.unit;
    let total = total_after(scan.elements, &entry);
    note_found(line, unit, total, given, entity, &entry, found);
    let name = entity.name.copy(alloc)?;
    let role = role_of(alloc, unit, total, given, &entity.init, entry)?;
    let symbol = Symbol {
        scope: unit,
        name,
        role,
    };
    declare(alloc, line, symbol, &mut scan.symbols, found)?;
    scan.elements = total;
    Ok(())
}

#[tactic(auto, using(dc_tree::proofs::Findings::notes))]
fn declare_entity(
    alloc: Global,
    heading: &Heading,
    line: u32,
    given: &Given,
    entity: &Entity,
    scan: &mut Scan,
    found: &mut LeastFinding,
) -> Result<(), NoMemory>
    ensures scan { OnOk result (scan.new
        ≡ after_entity heading.now scan.old given.now (declared_of entity.now)) }
    ensures findings { OnOk result (found.new
        ≡ least_with_all found.old (entity_findings heading.now line scan.old given.now
        (declared_of entity.now))) }
{
    let standing = declaring(&scan.symbols, heading.unit);
    note_entry(alloc, &standing, line, given, entity, found)?;
    let entry = entry_of(alloc, heading, &standing, given, entity)?;
    declare_entry(alloc, heading, line, given, entity, entry, scan, found)
}

/// Declares the names of a statement in their order.
#[tactic(auto, using(dc_tree::proofs::Findings::notes))]
pub(crate) fn declare_entities(
    alloc: Global,
    heading: &Heading,
    line: u32,
    given: &Given,
    entities: &[Entity],
    scan: &mut Scan,
    found: &mut LeastFinding,
) -> Result<(), NoMemory>
    ensures scan { OnOk result (scan.new
        ≡ after_entities heading.now scan.old given.now (map declared_of entities.now)) }
    ensures findings { OnOk result (found.new
        ≡ least_with_all found.old (entities_findings heading.now line scan.old given.now
        (map declared_of entities.now))) }
{
    for entity in entities {
        declare_entity(alloc, heading, line, given, entity, scan, found)?;
    }
    Ok(())
}
