//! The declarations of procedures.

ghost use Rattle.std.specs.Prelude.{◌≡◌, ◌<◌, ◌&&◌, None, IfOk, IsTrue, OnOk, map};
ghost use Rattle.dc_declare.specs.Declarations.{after_procedure, procedure_findings};
ghost use Rattle.dc_declare.specs.Headings.{result_name, heading_of, type_after, type_behind, prefix_findings, each_prefix, procedure_role, with_procedure, with_result, with_heading, result_findings, heading_findings, dummy_findings, untyped_findings, asked_findings};
ghost use Rattle.dc_declare.specs.Names.{each_once};
ghost use Rattle.dc_declare.specs.Tables.{declaring, taken_findings};
ghost use Rattle.dc_sorts.specs.Standing.{standing_of};
ghost use Rattle.dc_tree.specs.Blocks.{subprogram_of};
ghost use Rattle.dc_tree.specs.Findings.{least_with_all};
ghost use Rattle.dc_tree.specs.Statements.{prefixed, statement};
ghost use Rattle.dc_tree.specs.Symbols.{role_fits, stands_in};

use crate::front::declare_unit;
use crate::heading::Heading;
use crate::names::{Names, gather};
use crate::table::{declare, declaring, is_taken};
use crate::types::{ElementType, note_type, type_of};
use dc_sorts::Standing;
use dc_text::{DcText, NoMemory};
use dc_tree::{LeastFinding, Prefix, Procedure, Role, Stmt, Symbol, Symbols};
use std::alloc::Global;

/// The name of a function's result.
fn result_name(
    alloc: Global,
    function: bool,
    name: &DcText,
    given: &Option<DcText>,
) -> Result<Option<DcText>, NoMemory>
    ensures { IfOk result (λ made. made ≡ result_name function name.now given.now) }
{
    if !function {
        return Ok(None);
    }
    let copied = match given {
        Some(text) => text.copy(alloc)?,
        None => name.copy(alloc)?,
    };
    Ok(Some(copied))
}

fn type_after(
    alloc: Global,
    standing: &Standing,
    form: Option<ElementType>,
    prefix: &Prefix,
) -> Result<Option<ElementType>, NoMemory>
    ensures { IfOk result (λ made. made
        ≡ type_after (standing_of standing.now) form (prefixed prefix.now)) }
{
    match prefix {
        Prefix::Typed(spec) => Ok(Some(type_of(alloc, standing, spec)?)),
        Prefix::Pure | Prefix::Recursive => Ok(form),
    }
}

/// The type in front of FUNCTION, if there is one.
#[tactic(auto, using(dc_tree::proofs::Findings::notes))]
fn type_behind(
    alloc: Global,
    standing: &Standing,
    prefixes: &[Prefix],
) -> Result<Option<ElementType>, NoMemory>
    ensures { IfOk result (λ made. made
        ≡ type_behind (standing_of standing.now) None (map prefixed prefixes.now)) }
{
    let mut form = None;
    for prefix in prefixes {
        form = type_after(alloc, standing, form, prefix)?;
    }
    Ok(form)
}

#[tactic(auto, using(dc_tree::proofs::Findings::notes))]
fn note_prefix(
    alloc: Global,
    standing: &Standing,
    line: u32,
    prefix: &Prefix,
    found: &mut LeastFinding,
) -> Result<(), NoMemory>
    ensures { OnOk result (found.new
        ≡ least_with_all found.old (prefix_findings (standing_of standing.now) line
        (prefixed prefix.now))) }
{
    match prefix {
        Prefix::Typed(spec) => note_type(alloc, standing, line, spec, found),
        Prefix::Pure | Prefix::Recursive => Ok(()),
    }
}

#[tactic(auto, using(dc_tree::proofs::Findings::notes))]
fn note_prefixes(
    alloc: Global,
    standing: &Standing,
    line: u32,
    prefixes: &[Prefix],
    found: &mut LeastFinding,
) -> Result<(), NoMemory>
    ensures { OnOk result (found.new
        ≡ least_with_all found.old (each_prefix (standing_of standing.now) line
        (map prefixed prefixes.now))) }
{
    for prefix in prefixes {
        note_prefix(alloc, standing, line, prefix, found)?;
    }
    Ok(())
}

fn procedure_role(function: bool, number: u32) -> Role
    ensures equal { result ≡ procedure_role function number }
    ensures sound { IsTrue (role_fits result && stands_in 0 result) }
{
    if function {
        Role::Function(number)
    } else {
        Role::Subroutine(number)
    }
}

#[tactic(auto, using(dc_tree::proofs::Findings::notes))]
fn declare_name(
    alloc: Global,
    number: u32,
    line: u32,
    function: bool,
    name: &DcText,
    symbols: &mut Symbols,
    found: &mut LeastFinding,
) -> Result<(), NoMemory>
    ensures symbols { OnOk result (symbols.new
        ≡ with_procedure number symbols.old function name.now) }
    ensures findings { OnOk result (found.new
        ≡ least_with_all found.old (taken_findings line symbols.old 0 name.now)) }
{
    let role = procedure_role(function, number);
    let name = name.copy(alloc)?;
    let symbol = Symbol {
        scope: 0,
        name,
        role,
    };
    declare(alloc, line, symbol, symbols, found)
}

/// Declares the result of a function, where its type stands in front of FUNCTION.
fn declare_result(
    alloc: Global,
    number: u32,
    named: &Option<DcText>,
    form: Option<ElementType>,
    symbols: &mut Symbols,
) -> Result<(), NoMemory>
    requires { 0 < number }
    ensures { OnOk result (symbols.new ≡ with_result number symbols.old named.now form) }
{
    let Some(name) = named else {
        return Ok(());
    };
    let Some(form) = form else {
        return Ok(());
    };
    if is_taken(symbols, number, name.as_bytes()) {
        return Ok(());
    }
    let name = name.copy(alloc)?;
    symbols.push(
        alloc,
        Symbol {
            scope: number,
            name,
            role: Role::Result {
                logical: form.logical,
                kind: form.kind,
            },
        },
    )
}

/// Notes where the result has the name of a dummy.
#[tactic(auto, using(dc_tree::proofs::Findings::notes))]
fn note_result(line: u32, dummies: &Names, named: &Option<DcText>, found: &mut LeastFinding)
    ensures { found.new ≡ least_with_all found.old (result_findings line dummies.now named.now) }
{
    if let Some(name) = named {
        found.note_if(dummies.holds(name.as_bytes()), 19, line);
    }
}

/// Declares what the first line of a procedure does.
#[tactic(auto, using(dc_tree::proofs::Findings::notes))]
fn declare_head(
    alloc: Global,
    number: u32,
    line: u32,
    head: &Stmt,
    symbols: &mut Symbols,
    found: &mut LeastFinding,
) -> Result<Heading, NoMemory>
    requires { 0 < number }
    ensures heading { IfOk result (λ heading. heading ≡ heading_of number (statement head.now)) }
    ensures symbols { OnOk result (symbols.new
        ≡ with_heading number symbols.old (statement head.now)) }
    ensures findings { OnOk result (found.new
        ≡ least_with_all found.old (heading_findings number symbols.old line
        (statement head.now))) }
{
    let Stmt::Procedure {
        prefix,
        function,
        name,
        brackets: _,
        dummies,
        result,
    } = head
    else {
        return Ok(Heading::bare(alloc, number));
    };
    let mut gathered = Names::new(alloc);
    declare_name(alloc, number, line, *function, name, symbols, found)?;
    gather(alloc, line, dummies.as_slice(), &mut gathered, found)?;
    let named = result_name(alloc, *function, name, result)?;
    note_result(line, &gathered, &named, found);
    let form = form_in_front(alloc, number, line, prefix.as_slice(), symbols, found)?;
    declare_result(alloc, number, &named, form, symbols)?;
    Ok(Heading {
        unit: number,
        dummies: gathered,
        result: named,
    })
}

/// The type in front of FUNCTION, of which is noted what it breaks.
#[tactic(auto, using(dc_tree::proofs::Findings::notes))]
fn form_in_front(
    alloc: Global,
    number: u32,
    line: u32,
    prefixes: &[Prefix],
    symbols: &Symbols,
    found: &mut LeastFinding,
) -> Result<Option<ElementType>, NoMemory>
    ensures form { IfOk result (λ made. made
        ≡ type_behind (declaring symbols.now number) None (map prefixed prefixes.now)) }
    ensures findings { OnOk result (found.new
        ≡ least_with_all found.old (each_prefix (declaring symbols.now number) line
        (map prefixed prefixes.now))) }
{
    let standing = declaring(symbols, number);
    note_prefixes(alloc, &standing, line, prefixes, found)?;
    type_behind(alloc, &standing, prefixes)
}

/// Notes which dummies aren't declared.
#[tactic(auto, using(dc_tree::proofs::Findings::notes))]
fn note_dummies(
    number: u32,
    symbols: &Symbols,
    line: u32,
    dummies: &[DcText],
    found: &mut LeastFinding,
)
    ensures { found.new
        ≡ least_with_all found.old (dummy_findings number symbols.now line dummies.now) }
{
    for name in dummies {
        found.note_if(!is_taken(symbols, number, name.as_bytes()), 26, line);
    }
}

/// Notes where a function's result has no type.
#[tactic(auto, using(dc_tree::proofs::Findings::notes))]
fn note_untyped(
    number: u32,
    symbols: &Symbols,
    line: u32,
    function: bool,
    name: &DcText,
    given: &Option<DcText>,
    found: &mut LeastFinding,
)
    ensures { found.new
        ≡ least_with_all found.old (untyped_findings number symbols.now line
        (result_name function name.now given.now)) }
{
    if !function {
        return;
    }
    let named = match given {
        Some(text) => text.as_bytes(),
        None => name.as_bytes(),
    };
    found.note_if(!is_taken(symbols, number, named), 20, line);
}

/// Notes what the first line asks of the declarations behind it.
#[tactic(auto, using(dc_tree::proofs::Findings::notes))]
fn note_asked(number: u32, symbols: &Symbols, line: u32, head: &Stmt, found: &mut LeastFinding)
    ensures { found.new
        ≡ least_with_all found.old (asked_findings number symbols.now line (statement head.now)) }
{
    if let Stmt::Procedure {
        prefix: _,
        function,
        name,
        brackets: _,
        dummies,
        result,
    } = head
    {
        note_dummies(number, symbols, line, dummies.as_slice(), found);
        note_untyped(number, symbols, line, *function, name, result, found);
    }
}

/// Declares a procedure and what is declared in it. Gives the symbols with those.
#[tactic(auto, using(dc_tree::proofs::Findings::notes))]
pub(crate) fn declare_procedure(
    alloc: Global,
    number: u32,
    procedure: &Procedure,
    mut symbols: Symbols,
    found: &mut LeastFinding,
) -> Result<Symbols, NoMemory>
    requires { 0 < number }
    ensures symbols { IfOk result (λ made. made
        ≡ after_procedure number symbols (subprogram_of procedure.now)) }
    ensures findings { OnOk result (found.new
        ≡ least_with_all found.old (procedure_findings number symbols
        (subprogram_of procedure.now))) }
{
    let line = procedure.head.line;
    let head = &procedure.head.stmt;
    let heading = declare_head(alloc, number, line, head, &mut symbols, found)?;
    let front = procedure.front.as_slice();
    let symbols = declare_unit(alloc, &heading, front, symbols, found)?;
    note_asked(number, &symbols, line, head, found);
    Ok(symbols)
}
