//! The instructions of output.

ghost use Rattle.std.specs.Prelude.{◌≡◌, ◌++◌, [], ◌∷◌, length, map, OnOk, IsTrue};
ghost use Rattle.std.specs.List.{list_all};
ghost use Rattle.dc_entities.specs.Found.{entity_of};
ghost use Rattle.dc_sorts.specs.Forms.{sort_of_form};
ghost use Rattle.dc_form.specs.BuiltPrograms.{is_held};
ghost use Rattle.dc_tree.specs.Syntax as syntax;
ghost use Rattle.dc_tree.specs.Syntax.{tree};
ghost use Rattle.dc_actions.specs.Naming.{scope_of, AreNamed};
ghost use Rattle.dc_actions.specs.Printing.{
  put_code,
  whole_code,
  item_code,
  printing_code,
  texts_of_item,
  texts_of_items,
};

use crate::count::held;
use crate::names::Names;
use crate::operators::entity;
use crate::values::value;
use dc_code::What;
use dc_entities::{Found, find};
use dc_meaning::{bounds_of, form_of};
use dc_sorts::Form;
use dc_text::{DcList, DcText, NoMemory};
use dc_tree::Expr;
use std::alloc::Global;

fn putting(form: Form) -> What
    ensures { result ≡ put_code (sort_of_form form) }
{
    match form {
        Form::Whole(_) => What::PutNumber,
        Form::Logical => What::PutTruth,
    }
}

/// Adds the output of a literal, which stands among the texts.
fn literal(
    alloc: Global,
    whats: &mut DcList<What>,
    texts: &mut DcList<DcText>,
    text: &DcText,
) -> Result<(), NoMemory>
    ensures code { OnOk result (whats.new ≡ whats.old ++ What.PutChars (length texts.old) ∷ []) }
    ensures texts { OnOk result (texts.new ≡ texts.old ++ text.now ∷ []) }
{
    let x = held(texts.len())?;
    texts.push(text.copy(alloc)?)?;
    whats.push(What::PutChars { x })
}

/// Adds the output of all elements of an array.
#[tactic(auto, using(dc_sorts::proofs::Knowing::gathering))]
fn whole(whats: &mut DcList<What>, found: Found<'_>) -> Result<(), NoMemory>
    ensures { OnOk result (whats.new ≡ whats.old ++ whole_code (entity_of found.entry)) }
{
    match found {
        Found::Variable { number, .. } => whats.push(What::PutAll { v: number }),
        _ => Ok(()),
    }
}

/// Adds the output of what a name stands for.
#[tactic(auto, using(dc_sorts::proofs::Knowing::gathering))]
fn named(names: &Names<'_>, whats: &mut DcList<What>, text: &[u8]) -> Result<(), NoMemory>
    requires { AreNamed names.now }
    ensures { OnOk result (whats.new
        ≡ whats.old ++ item_code (scope_of names.now) 0 (syntax.name text.now)) }
{
    let found = find(&names.standing, names.numbering, text);
    if bounds_of(found).is_empty() {
        entity(whats, found)?;
        whats.push(putting(form_of(found)))
    } else {
        whole(whats, found)
    }
}

/// Adds the output of an item.
#[tactic(auto, using(dc_tree::proofs::Views::expression_views, dc_sorts::proofs::Knowing::gathering))]
fn item(
    alloc: Global,
    names: &Names<'_>,
    whats: &mut DcList<What>,
    texts: &mut DcList<DcText>,
    item: &Expr,
) -> Result<(), NoMemory>
    requires names { AreNamed names.now }
    requires held { IsTrue (is_held (tree item.now)) }
    ensures code { OnOk result (whats.new
        ≡ whats.old ++ item_code (scope_of names.now) (length texts.old) (tree item.now)) }
    ensures texts { OnOk result (texts.new ≡ texts.old ++ texts_of_item (tree item.now)) }
{
    match item {
        Expr::Chars(text) => literal(alloc, whats, texts, text),
        Expr::Name(name) => named(names, whats, name.as_bytes()),
        _ => {
            let known = value(alloc, names, whats, item)?;
            whats.push(putting(known.form))
        }
    }
}

/// Adds the instructions of output: all items, and then the end of the line.
pub fn output(
    alloc: Global,
    names: &Names<'_>,
    whats: &mut DcList<What>,
    texts: &mut DcList<DcText>,
    items: &[Expr],
) -> Result<(), NoMemory>
    requires names { AreNamed names.now }
    requires held { IsTrue (list_all is_held (map tree items.now)) }
    ensures code { OnOk result (whats.new ≡ whats.old
        ++ printing_code (scope_of names.now) (length texts.old) (map tree items.now)) }
    ensures texts { OnOk result (texts.new ≡ texts.old ++ texts_of_items (map tree items.now)) }
{
    for each in items {
        item(alloc, names, whats, texts, each)?;
    }
    whats.push(What::PutEnd)
}
