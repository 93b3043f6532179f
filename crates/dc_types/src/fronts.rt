//! The numbers in declarations.

ghost use Rattle.std.specs.Prelude.{◌≡◌, map, option_map};
ghost use Rattle.dc_tree.specs.Blocks.{line_of};
ghost use Rattle.dc_tree.specs.Findings.{least_with_all};
ghost use Rattle.dc_tree.specs.Statements.{attribute, declared_of, dimension_of, initial, prefixed, statement, type_form};
ghost use Rattle.dc_tree.specs.Syntax.{tree};
ghost use Rattle.dc_sorts.specs.Standing.{standing_of};
ghost use Rattle.dc_types.specs.Types.{attribute_numbers, bounds_numbers, declaration_numbers, declared_numbers, dimension_numbers, each_attribute_numbers, each_prefix_numbers, entity_numbers, front_numbers, initial_numbers, optional_numbers, prefix_numbers};

use crate::headers::note_type;
use dc_operands::{note_all_numbers, note_numbers};
use dc_sorts::Standing;
use dc_text::DcList;
use dc_tree::{Attr, Bound, Entity, Expr, Init, LeastFinding, Lined, Prefix, Stmt, TypeSpec};

fn note_optional(standing: &Standing, line: u32, expr: &Option<Expr>, found: &mut LeastFinding)
    ensures { found.new ≡ least_with_all found.old
        (optional_numbers (standing_of standing.now) line (option_map tree expr.now)) }
{
    match expr {
        Some(expr) => note_numbers(standing, line, expr, found),
        None => {}
    }
}

#[tactic(auto, using(dc_tree::proofs::Findings::notes))]
fn note_dimensions(standing: &Standing, line: u32, bounds: &[Bound], found: &mut LeastFinding)
    ensures { found.new ≡ least_with_all found.old
        (dimension_numbers (standing_of standing.now) line (map dimension_of bounds.now)) }
{
    for bound in bounds {
        note_optional(standing, line, &bound.low, found);
        note_numbers(standing, line, &bound.high, found);
    }
}

fn note_attribute(standing: &Standing, line: u32, attr: &Attr, found: &mut LeastFinding)
    ensures { found.new ≡ least_with_all found.old
        (attribute_numbers (standing_of standing.now) line (attribute attr.now)) }
{
    match attr {
        Attr::Dimension(bounds) => note_dimensions(standing, line, bounds.as_slice(), found),
        _ => {}
    }
}

#[tactic(auto, using(dc_tree::proofs::Findings::notes))]
fn note_attributes(standing: &Standing, line: u32, attrs: &[Attr], found: &mut LeastFinding)
    ensures { found.new ≡ least_with_all found.old
        (each_attribute_numbers (standing_of standing.now) line (map attribute attrs.now)) }
{
    for attr in attrs {
        note_attribute(standing, line, attr, found);
    }
}

fn note_bounds(
    standing: &Standing,
    line: u32,
    bounds: &Option<DcList<Bound>>,
    found: &mut LeastFinding,
)
    ensures { found.new ≡ least_with_all found.old
        (bounds_numbers (standing_of standing.now) line
        (option_map (map dimension_of) bounds.now)) }
{
    match bounds {
        Some(bounds) => note_dimensions(standing, line, bounds.as_slice(), found),
        None => {}
    }
}

fn note_initial(standing: &Standing, line: u32, init: &Init, found: &mut LeastFinding)
    ensures { found.new ≡ least_with_all found.old
        (initial_numbers (standing_of standing.now) line (initial init.now)) }
{
    match init {
        Init::Scalar(expr) => note_numbers(standing, line, expr, found),
        Init::Listed(exprs) => note_all_numbers(standing, line, exprs.as_slice(), found),
        Init::Absent => {}
    }
}

#[tactic(auto, using(dc_tree::proofs::Findings::notes))]
fn note_entities(standing: &Standing, line: u32, entities: &[Entity], found: &mut LeastFinding)
    ensures { found.new ≡ least_with_all found.old
        (entity_numbers (standing_of standing.now) line (map declared_of entities.now)) }
{
    for entity in entities {
        note_bounds(standing, line, &entity.bounds, found);
        note_initial(standing, line, &entity.init, found);
    }
}

fn note_prefix(standing: &Standing, line: u32, prefix: &Prefix, found: &mut LeastFinding)
    ensures { found.new ≡ least_with_all found.old
        (prefix_numbers (standing_of standing.now) line (prefixed prefix.now)) }
{
    match prefix {
        Prefix::Typed(spec) => note_type(standing, line, spec, found),
        _ => {}
    }
}

#[tactic(auto, using(dc_tree::proofs::Findings::notes))]
fn note_prefixes(standing: &Standing, line: u32, prefixes: &[Prefix], found: &mut LeastFinding)
    ensures { found.new ≡ least_with_all found.old
        (each_prefix_numbers (standing_of standing.now) line (map prefixed prefixes.now)) }
{
    for prefix in prefixes {
        note_prefix(standing, line, prefix, found);
    }
}

#[tactic(auto, using(dc_tree::proofs::Findings::notes))]
fn note_declaration(
    standing: &Standing,
    line: u32,
    spec: &TypeSpec,
    attrs: &[Attr],
    entities: &[Entity],
    found: &mut LeastFinding,
)
    ensures { found.new ≡ least_with_all found.old
        (declaration_numbers (standing_of standing.now) line (type_form spec.now)
        (map attribute attrs.now) (map declared_of entities.now)) }
{
    note_type(standing, line, spec, found);
    note_attributes(standing, line, attrs, found);
    note_entities(standing, line, entities, found);
}

/// Notes the numbers in a declaration, or in front of a procedure.
pub(crate) fn note_declared(standing: &Standing, line: u32, stmt: &Stmt, found: &mut LeastFinding)
    ensures { found.new ≡ least_with_all found.old
        (declared_numbers (standing_of standing.now) line (statement stmt.now)) }
{
    match stmt {
        Stmt::Declare {
            spec,
            attrs,
            entities,
            ..
        } => note_declaration(
            standing,
            line,
            spec,
            attrs.as_slice(),
            entities.as_slice(),
            found,
        ),
        Stmt::Procedure { prefix, .. } => {
            note_prefixes(standing, line, prefix.as_slice(), found)
        }
        _ => {}
    }
}

/// Notes the numbers in the declarations of a unit.
#[tactic(auto, using(dc_tree::proofs::Findings::notes))]
pub(crate) fn note_front(standing: &Standing, front: &[Lined], found: &mut LeastFinding)
    ensures { found.new ≡ least_with_all found.old
        (front_numbers (standing_of standing.now) (map line_of front.now)) }
{
    for lined in front {
        note_declared(standing, lined.line, &lined.stmt, found);
    }
}
