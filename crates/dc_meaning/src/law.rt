//! The law that what is seen is a run.

ghost use Rattle.std.specs.Prelude.{◌≡◌};
ghost use Rattle.dc_code.specs.Computation.{Computation, over};
ghost use Rattle.dc_plain.specs.Views.{View};
ghost use Rattle.dc_meaning.specs.Walking.{seen_over, behind_view};

/// What a computation leaves of a view is its run over the view's store, with the entries of the run
/// behind those of the view.
pub fn what_is_seen_is_a_run<E, T, A>()
    ensures { (view : View) (c : Computation E T A) → seen_over view c ≡ behind_view view (over view.store c) }
{}
