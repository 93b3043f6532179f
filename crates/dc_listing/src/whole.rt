//! The listing of a code, line by line.

ghost use Rattle.std.specs.Prelude.{◌≡◌, ◌++◌, IfOk, OnOk};
ghost use Rattle.dc_listing.specs.Listing.{section, told_line, instruction_line, listing};

use crate::instruction::{name, put_operands};
use crate::listed::Listed;
use crate::words::{put_digits, put_number, put_word};
use dc_code::{Code, Instr};
use dc_text::{DcText, NoMemory};
use std::alloc::Global;

/// Adds the line of an instruction with its place.
#[tactic(auto, using(crate::proofs::Fields::adding))]
fn put_instruction(text: &mut DcText, place: usize, instruction: Instr) -> Result<(), NoMemory>
    ensures { OnOk result (text.new ≡ text.old ++ instruction_line place instruction) }
{
    put_digits(text, place as u64)?;
    put_number(text, u64::from(instruction.line))?;
    put_word(text, name(instruction.what))?;
    put_operands(text, instruction.what)?;
    text.push(b'\n')
}

fn put_instructions(text: &mut DcText, instructions: &[Instr]) -> Result<(), NoMemory>
    ensures { OnOk result (text.new ≡ text.old ++ section instruction_line 0 instructions.now) }
{
    for (place, instruction) in instructions.iter().enumerate() {
        put_instruction(text, place, *instruction)?;
    }
    Ok(())
}

/// Adds the line of a numbered item, which a word tells.
#[tactic(auto, using(crate::proofs::Fields::adding))]
fn put_line<T: Listed>(
    text: &mut DcText,
    word: &[u8],
    number: usize,
    item: &T,
) -> Result<(), NoMemory>
    ensures { OnOk result (text.new ≡ text.old ++ told_line word.now T.words number item.now) }
{
    text.append(word)?;
    put_number(text, number as u64)?;
    item.put(text)?;
    text.push(b'\n')
}

fn put_section<T: Listed>(text: &mut DcText, word: &[u8], items: &[T]) -> Result<(), NoMemory>
    ensures { OnOk result
        (text.new ≡ text.old ++ section (told_line word.now T.words) 0 items.now) }
{
    for (number, item) in items.iter().enumerate() {
        put_line(text, word, number, item)?;
    }
    Ok(())
}

/// The code as text: a line for each instruction, and then for each text, shape, list of bounds, plan, entry
/// and construct.
pub fn listing(alloc: Global, code: &Code) -> Result<DcText, NoMemory>
    ensures { IfOk result (λ made. made ≡ listing code.now) }
{
    let mut text = DcText::new(alloc);
    put_instructions(&mut text, code.instructions())?;
    put_section(&mut text, b"text", code.texts())?;
    put_section(&mut text, b"shape", code.shapes())?;
    put_section(&mut text, b"bounds", code.bounds())?;
    put_section(&mut text, b"plan", code.plans())?;
    put_section(&mut text, b"entry", code.entries())?;
    put_section(&mut text, b"construct", code.constructs())?;
    Ok(text)
}
