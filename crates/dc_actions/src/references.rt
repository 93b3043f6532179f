//! The instructions of references behind those of their arguments.

ghost use Rattle.std.specs.Prelude.{◌≡◌, ◌≤◌, ◌++◌, map, option_map, OnOk};
ghost use Rattle.dc_int.specs.Store.{elements_in};
ghost use Rattle.dc_entities.specs.Found.{entity_of, bounds_found};
ghost use Rattle.dc_sorts.specs.Forms.{sort_of_form};
ghost use Rattle.dc_sorts.specs.Functions.{function_of};
ghost use Rattle.dc_sorts.specs.Knowing.{known_args};
ghost use Rattle.dc_tree.specs.Syntax.{arg_tree, args_from};
ghost use Rattle.dc_meaning.specs.Evaluating.{asked_of_array};
ghost use Rattle.dc_meaning.specs.Values as meaning;
ghost use Rattle.dc_actions.specs.Naming.{scope_of, AreNamed};
ghost use Rattle.dc_actions.specs.References.{called_code, behind_code};

use crate::names::Names;
use crate::operators::{entity, folding, operation};
use dc_code::{Folding, What};
use dc_entities::{Found, find};
use dc_int::Kind;
use dc_meaning::{about_array, asked, bounds_of, dimension_named, first_form};
use dc_sorts::{Form, Intrinsic, Known, kind_converted, kind_of};
use dc_text::{DcList, NoMemory};
use dc_tree::{Arg, Expr};

/// What the first of some arguments names.
fn array_named<'a>(names: &Names<'a>, args: &[Arg]) -> Found<'a>
    requires { AreNamed names.now }
    ensures found { entity_of result
        ≡ meaning.array_named (scope_of names.now) (args_from (map arg_tree args.now)) }
    ensures few { elements_in (bounds_found result) ≤ 4194304 }
{
    match args {
        [first, ..] => match &first.value {
            Expr::Name(text) => find(&names.standing, names.numbering, text.as_bytes()),
            _ => Found::Nothing,
        },
        [] => Found::Nothing,
    }
}

/// What is asked about an array.
fn asked_of_array(names: &Names<'_>, function: Intrinsic, args: &[Arg], known: &[Known]) -> i64
    requires names { AreNamed names.now }
    requires known { known.now
        ≡ known_args (scope_of names.now) (args_from (map arg_tree args.now)) }
    ensures { result ≡ asked_of_array (scope_of names.now) (function_of function)
        (args_from (map arg_tree args.now)) }
{
    let bounds = bounds_of(array_named(names, args));
    about_array(function, bounds, dimension_named(bounds, known))
}

/// Adds what a function does behind its arguments, of which the first has a form.
#[tactic(auto, using(dc_sorts::proofs::Knowing::gathering))]
fn called(
    names: &Names<'_>,
    whats: &mut DcList<What>,
    function: Intrinsic,
    form: Form,
    args: &[Arg],
    known: &[Known],
) -> Result<(), NoMemory>
    requires names { AreNamed names.now }
    requires known { known.now
        ≡ known_args (scope_of names.now) (args_from (map arg_tree args.now)) }
    ensures { OnOk result (whats.new ≡ whats.old ++ called_code (scope_of names.now)
        (function_of function) (args_from (map arg_tree args.now)) (sort_of_form form)) }
{
    let k = kind_of(form);
    match function {
        Intrinsic::Operation(op) => operation(whats, op, k),
        Intrinsic::Chosen(_) => Ok(()),
        Intrinsic::Merge => whats.push(What::Merge),
        Intrinsic::Converted => whats.push(What::Wrap {
            k: kind_converted(known),
        }),
        Intrinsic::Huge | Intrinsic::BitSize => whats.push(What::Const {
            k,
            n: asked(function, form),
        }),
        Intrinsic::Kind => whats.push(What::Const {
            k: Kind::K4,
            n: asked(function, form),
        }),
        Intrinsic::Total => folding(whats, Folding::Sum, array_named(names, args)),
        Intrinsic::Count => folding(whats, Folding::Count, array_named(names, args)),
        Intrinsic::Any => folding(whats, Folding::Any, array_named(names, args)),
        Intrinsic::All => folding(whats, Folding::All, array_named(names, args)),
        Intrinsic::Size | Intrinsic::LowerBound | Intrinsic::UpperBound => {
            whats.push(What::Const {
                k: Kind::K4,
                n: asked_of_array(names, function, args, known),
            })
        }
    }
}

/// Adds what a reference does behind its arguments.
pub(crate) fn behind(
    names: &Names<'_>,
    whats: &mut DcList<What>,
    found: Found<'_>,
    function: Option<Intrinsic>,
    args: &[Arg],
    known: &[Known],
) -> Result<(), NoMemory>
    requires names { AreNamed names.now }
    requires known { known.now
        ≡ known_args (scope_of names.now) (args_from (map arg_tree args.now)) }
    ensures { OnOk result (whats.new ≡ whats.old ++ behind_code (scope_of names.now)
        (entity_of found.entry) (option_map function_of function)
        (args_from (map arg_tree args.now))) }
{
    match function {
        None => entity(whats, found),
        Some(function) => called(names, whats, function, first_form(known), args, known),
    }
}
