//! Which arguments procedures take.

ghost use Rattle.std.specs.Prelude.{◌≡◌, ◌||◌};
ghost use Rattle.dc_operands.specs.Arguments.{is_into, fits, fit_all, breaks_fixed, some_breaks_fixed};

use crate::argument::Argument;
use crate::forms::same_form;
use dc_sorts::Meaning;
use dc_tree::Intent;

fn is_into(intent: Intent) -> bool
    ensures { result ≡ is_into intent }
{
    matches!(intent, Intent::Into)
}

fn may_be_given(intent: Intent, is_variable: bool) -> bool
    ensures { result ≡ is_into intent || is_variable }
{
    is_into(intent) || is_variable
}

fn fits(dummy: Meaning, argument: &Argument) -> bool
    ensures { result ≡ fits dummy argument.now }
{
    match dummy {
        Meaning::Dummy { form, intent } => {
            !argument.keyed
                && (same_form(form, argument.form) && may_be_given(intent, argument.is_variable))
        }
        _ => false,
    }
}

/// Whether there are as many arguments as dummies, and each fits.
pub(crate) fn fit_all(dummies: &[Meaning], arguments: &[Argument]) -> bool
    ensures { result ≡ fit_all dummies.now arguments.now }
{
    for (place, argument) in arguments.iter().enumerate() {
        match dummies.get(place) {
            None => return false,
            Some(dummy) if !fits(*dummy, argument) => return false,
            Some(_) => {}
        }
    }
    dummies.len() <= arguments.len()
}

fn breaks_fixed(dummy: Meaning, argument: &Argument) -> bool
    ensures { result ≡ breaks_fixed dummy argument.now }
{
    match dummy {
        Meaning::Dummy { intent, .. } => !is_into(intent) && argument.is_fixed,
        _ => false,
    }
}

/// Whether a variable may be defined through a dummy that may not be.
pub(crate) fn some_breaks_fixed(dummies: &[Meaning], arguments: &[Argument]) -> bool
    ensures { result ≡ some_breaks_fixed dummies.now arguments.now }
{
    for (place, argument) in arguments.iter().enumerate() {
        match dummies.get(place) {
            None => return false,
            Some(dummy) if breaks_fixed(*dummy, argument) => return true,
            Some(_) => {}
        }
    }
    false
}
