//! The line of the log that tells how a run ended.

ghost use Rattle.std.specs.Prelude.{◌≡◌, ◌<◌, ◌≤◌, ◌++◌, ◌∷◌, [], ◌+ℤ◌, pos, filter, slice_get, IfOk, OnOk};
ghost use Rattle.std.specs.Option.{option_copied};
ghost use Rattle.dc_int.specs.Store.{extent};
ghost use Rattle.dc_code.specs.Verdicts.{side};
ghost use Rattle.dc_run.specs.declared.ending.Ending.{Ending};
ghost use Rattle.dc_run.specs.Answered.{IsThere, bounds_in_role, variable_of, declared_bounds, sides_text, race_text, failure_text, iteration_text, masked_text, verdict_text, ending_of, NamesThere};
ghost use Rattle.dc_run.specs.ReportLine.{is_outside, outside_names, subscripts_at, index_list, iteration, subscripts, element, action_word, fault_name, cause, line_text, side_text, report_line};

use crate::ending::Ending;
use dc_code::{Party, Race, Verdict};
use dc_int::{Action, ElementId, FaultKind, Why};
use dc_text::{DcList, DcText, NoMemory};
use dc_tree::{Role, Symbol, Symbols};
use std::alloc::Global;

fn action_word(action: Action) -> &'static [u8]
    ensures { result.now ≡ action_word action }
{
    match action {
        Action::Reads => b"reads",
        Action::Defines => b"defines",
        Action::Undefines => b"undefines",
    }
}

fn fault_name(kind: FaultKind) -> &'static [u8]
    ensures { result.now ≡ fault_name kind }
{
    match kind {
        FaultKind::Undefined => b"Undefined",
        FaultKind::Subscript => b"Subscript",
        FaultKind::DivideByZero => b"DivideByZero",
        FaultKind::ShiftRange => b"ShiftRange",
        FaultKind::StepZero => b"StepZero",
        FaultKind::TooManyIterations => b"TooManyIterations",
        FaultKind::TooDeep => b"TooDeep",
        FaultKind::OutputFull => b"OutputFull",
        FaultKind::EndOfInput => b"EndOfInput",
        FaultKind::BadInput => b"BadInput",
        FaultKind::ErrorStop => b"ErrorStop",
    }
}

fn put_cause(text: &mut DcText, why: Why) -> Result<(), NoMemory>
    ensures { OnOk result (text.new ≡ text.old ++ cause why) }
{
    match why {
        Why::Fault(kind) => {
            text.append(b"fault: ")?;
            text.append(fault_name(kind))?;
            text.append(b": ")
        }
        Why::Spent => text.append(b"spent: "),
    }
}

fn put_line(text: &mut DcText, line: u32) -> Result<(), NoMemory>
    ensures { OnOk result (text.new ≡ text.old ++ line_text line) }
{
    text.append(b"line ")?;
    text.put_number(i64::from(line))
}

/// Numbers in brackets, with commas between them.
fn put_index_list(text: &mut DcText, at: &[i64]) -> Result<(), NoMemory>
    ensures { OnOk result (text.new ≡ text.old ++ index_list at.now) }
{
    text.push(b'(')?;
    let mut later = false;
    for number in at {
        if later {
            text.push(b',')?;
        }
        text.put_number(*number)?;
        later = true;
    }
    text.push(b')')
}

fn put_iteration(text: &mut DcText, at: &[i64]) -> Result<(), NoMemory>
    ensures { OnOk result (text.new ≡ text.old ++ iteration (at.now ∷ [])) }
{
    text.append(b"iteration ")?;
    put_index_list(text, at)
}

fn put_side(text: &mut DcText, at: &[i64], party: Party) -> Result<(), NoMemory>
    ensures { OnOk result (text.new ≡ text.old ++ side_text [] (side party at.now)) }
{
    put_iteration(text, at)?;
    text.push(b' ')?;
    text.append(action_word(party.action))?;
    text.append(b" at ")?;
    put_line(text, party.line)
}

/// How many subscripts a dimension has, where it has some and not too many.
fn extent(low: i64, high: i64) -> u32
    requires some { 0 < extent (low, high) }
    requires few { extent (low, high) ≤ 4194304 }
    ensures { result ≡ extent (low, high) }
{
    (i128::from(high) - i128::from(low) + 1) as u32
}

/// The subscript that lies so far above the least one, where the dimension has it.
fn subscript(low: i64, high: i64, offset: u32) -> i64
    requires { offset < extent (low, high) }
    ensures { result ≡ low +ℤ pos offset }
{
    (i128::from(low) + i128::from(offset)) as i64
}

/// The subscripts of the element at a position, the first varying fastest.
fn subscripts_at(
    alloc: Global,
    bounds: &[(i64, i64)],
    position: u32,
) -> Result<DcList<i64>, NoMemory>
    requires { IsThere bounds.now position }
    ensures { IfOk result (λ made. made ≡ subscripts_at bounds.now position) }
{
    let mut made = DcList::new(alloc);
    let mut left = position;
    for (low, high) in bounds {
        let size = extent(*low, *high);
        made.push(subscript(*low, *high, left % size))?;
        left /= size;
    }
    Ok(made)
}

fn put_subscripts(
    alloc: Global,
    text: &mut DcText,
    bounds: &[(i64, i64)],
    position: u32,
) -> Result<(), NoMemory>
    requires { IsThere bounds.now position }
    ensures { OnOk result (text.new ≡ text.old ++ subscripts bounds.now position) }
{
    if bounds.is_empty() {
        return Ok(());
    }
    let at = subscripts_at(alloc, bounds, position)?;
    put_index_list(text, at.as_slice())
}

fn is_outside(symbol: &Symbol) -> bool
    ensures { result ≡ is_outside symbol.now }
{
    symbol.scope == 0 && matches!(symbol.role, Role::Variable { .. })
}

/// The variable of the main program with this number.
fn outside(symbols: &[Symbol], variable: u32) -> Option<&Symbol>
    ensures { option_copied result ≡ slice_get (filter is_outside symbols.now) variable }
{
    let mut left = variable;
    for symbol in symbols {
        if is_outside(symbol) {
            if left == 0 {
                return Some(symbol);
            }
            left -= 1;
        }
    }
    None
}

fn bounds(symbol: &Symbol) -> &[(i64, i64)]
    ensures { result.now ≡ bounds_in_role symbol.now.role }
{
    match &symbol.role {
        Role::Variable { bounds, .. } => bounds.as_slice(),
        _ => &[],
    }
}

/// An element by the name of its variable, and in an array by its subscripts.
fn put_element(
    alloc: Global,
    text: &mut DcText,
    symbols: &[Symbol],
    named: ElementId,
) -> Result<(), NoMemory>
    requires { IsThere (declared_bounds (variable_of symbols.now named)) named.position }
    ensures { let bounds = declared_bounds (variable_of symbols.now named) in
        OnOk result (text.new ≡ text.old ++ element (outside_names symbols.now) bounds named) }
{
    let Some(symbol) = outside(symbols, named.variable) else {
        return Ok(());
    };
    text.append(symbol.name.as_bytes())?;
    put_subscripts(alloc, text, bounds(symbol), named.position)
}

/// What two iterations do, the first before the second.
fn put_sides(
    text: &mut DcText,
    race: Race,
    first_at: &[i64],
    second_at: &[i64],
) -> Result<(), NoMemory>
    ensures { OnOk result (text.new ≡ text.old ++ sides_text race first_at.now second_at.now) }
{
    put_side(text, first_at, race.first)?;
    text.append(b", ")?;
    put_side(text, second_at, race.second)
}

fn put_race(
    alloc: Global,
    text: &mut DcText,
    symbols: &[Symbol],
    race: Race,
    first_at: &[i64],
    second_at: &[i64],
) -> Result<(), NoMemory>
    requires { IsThere (declared_bounds (variable_of symbols.now race.element))
        race.element.position }
    ensures { OnOk result (text.new
        ≡ text.old ++ race_text symbols.now race first_at.now second_at.now) }
{
    text.append(b"race: ")?;
    put_element(alloc, text, symbols, race.element)?;
    text.append(b": ")?;
    put_sides(text, race, first_at, second_at)
}

fn put_failure(text: &mut DcText, why: Why, line: u32) -> Result<(), NoMemory>
    ensures { OnOk result (text.new ≡ text.old ++ failure_text why line) }
{
    put_cause(text, why)?;
    put_line(text, line)
}

fn put_iteration_failure(text: &mut DcText, why: Why, at: &[i64], line: u32) -> Result<(), NoMemory>
    ensures { OnOk result (text.new ≡ text.old ++ iteration_text why at.now line) }
{
    put_cause(text, why)?;
    put_iteration(text, at)?;
    text.append(b": ")?;
    put_line(text, line)
}

fn put_masked(text: &mut DcText, why: Why, mask: &[i64], line: u32) -> Result<(), NoMemory>
    ensures { OnOk result (text.new ≡ text.old ++ masked_text why mask.now line) }
{
    put_cause(text, why)?;
    text.append(b"mask ")?;
    put_index_list(text, mask)?;
    text.append(b": ")?;
    put_line(text, line)
}

fn put_verdict(
    alloc: Global,
    text: &mut DcText,
    symbols: &[Symbol],
    verdict: &Verdict,
) -> Result<(), NoMemory>
    requires { NamesThere symbols.now (Ending.Stopped verdict.now) }
    ensures { OnOk result (text.new ≡ text.old ++ verdict_text symbols.now verdict.now) }
{
    match verdict {
        Verdict::GoOn => Ok(()),
        Verdict::HeaderFault {
            why,
            line,
            mask: None,
        } => put_failure(text, *why, *line),
        Verdict::HeaderFault {
            why,
            line,
            mask: Some(mask),
        } => put_masked(text, *why, mask.as_slice(), *line),
        Verdict::IterFault { why, line, at } => put_iteration_failure(
            text,
            Why::Fault(*why),
            at.as_slice(),
            *line,
        ),
        Verdict::IterSpent { line, at } => put_iteration_failure(
            text,
            Why::Spent,
            at.as_slice(),
            *line,
        ),
        Verdict::Race {
            race,
            first_at,
            second_at,
        } => {
            put_race(
                alloc,
                text,
                symbols,
                *race,
                first_at.as_slice(),
                second_at.as_slice(),
            )
        }
    }
}

/// The line of the log that tells how a run ended, with its line feed; empty where it came to its end.
pub(crate) fn ending_line(
    alloc: Global,
    symbols: &Symbols,
    ending: &Ending,
) -> Result<DcText, NoMemory>
    requires { NamesThere symbols.now ending.now }
    ensures { IfOk result (λ made. made
        ≡ report_line (outside_names symbols.now) (ending_of symbols.now ending.now)) }
{
    let mut text = DcText::new(alloc);
    match ending {
        Ending::Done => {}
        Ending::Bad { why, line } => {
            put_failure(&mut text, *why, *line)?;
            text.push(b'\n')?;
        }
        Ending::Stopped(Verdict::GoOn) => {}
        Ending::Stopped(verdict) => {
            put_verdict(alloc, &mut text, symbols.as_slice(), verdict)?;
            text.push(b'\n')?;
        }
    }
    Ok(text)
}
