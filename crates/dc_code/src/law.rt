//! Laws of computations.

ghost use Rattle.std.specs.Prelude.{◌≡◌, ◌⊎◌, List, true, false};
ghost use Rattle.dc_int.specs.declared.access.ElementId.{ElementId};
ghost use Rattle.dc_int.specs.declared.variable.Locality.{Locality};
ghost use Rattle.dc_int.specs.Store.{Store, cell_of};
ghost use Rattle.dc_int.specs.Entries.{Entry, store_after, touches};
ghost use Rattle.dc_code.specs.Pairs.{clashes, NamesBreak};
ghost use Rattle.dc_code.specs.Computation.{Computation, sequence, over, followed, Agree, SameRun, SameShape, FirstDifference};

/// What a store makes of 'first this, then that': the first, followed by the rest over the store that
/// it leaves.
pub fn first_this_then_that<E, T, A, B>()
    ensures { (store : Store) (c : Computation E T A) (next : A → Computation E T B) → over store (sequence c next) ≡ followed (over store c) next }
{}

/// The store after a run is what the entries of the run make of the store before it.
pub fn a_run_is_its_entries<E, T, A>()
    ensures { (store : Store) (c : Computation E T A) → (over store c).store ≡ store_after (over store c).entries store }
{}

/// An element that no entry touches stays as it was.
pub fn untouched_elements_stay()
    ensures { (entries : List Entry) (store : Store) (x : ElementId) → touches x entries ≡ false → cell_of (store_after entries store) x ≡ cell_of store x }
{}

/// The frame law: over two stores that have the same elements and bounds, and agree on each element
/// with an exposed read, a computation makes the same entries and ends alike.
pub fn agreeing_stores_run_alike<E, T, A>()
    ensures { (c : Computation E T A) (first second : Store) → Agree first second (over first c).entries → SameRun (over first c) (over second c) }
{}

/// Over two stores that have the same elements and bounds, a computation runs alike, or the two runs
/// differ first at a read: of an element that neither touched before, and whose state the stores
/// don't share.
pub fn runs_differ_first_at_a_read<E, T, A>()
    ensures { (c : Computation E T A) (first second : Store) → SameShape first second
        → SameRun (over first c) (over second c) ⊎ FirstDifference first second (over first c).entries (over second c).entries }
{}

/// The pair that is named for a clashing element is a real one: two different iterations that break
/// its restriction.
pub fn named_pair_breaks()
    ensures { (locality : Locality) (x : ElementId) (runs : List (List Entry)) → clashes locality x runs ≡ true → NamesBreak locality x runs }
{}
