//! Laws of loops.

ghost use Rattle.std.specs.Prelude.{◌≡◌, [], ◌∷◌, List, Some, ℤ, ℕ, true};
ghost use Rattle.std.specs.List.Sorted.{IsPermutation};
ghost use Rattle.dc_int.specs.declared.access.ElementId.{ElementId};
ghost use Rattle.dc_int.specs.declared.variable.Shape.{Shape};
ghost use Rattle.dc_int.specs.Shapes.{store_fits};
ghost use Rattle.dc_int.specs.Store.{Store};
ghost use Rattle.dc_code.specs.declared.verdict.Race.{Race};
ghost use Rattle.dc_code.specs.Computation.{over};
ghost use Rattle.dc_code.specs.EveryOrder.{SaysOfOrders};
ghost use Rattle.dc_code.specs.Inner.{Rule, loop_with};
ghost use Rattle.dc_code.specs.Laws.{HasPlainBlocks, IsFramed, DiffersAtRead, KeepLocality, MatchesShapes, KeepsFitting, DefinesFitting, EndWell, alone_runs, EndsAt, BeginsWithRace, NamesIterations, TellsRace, NothingWrong, EndsAlike};
ghost use Rattle.dc_code.specs.Loops.{Form, Copies, Loop, header_of, iterations_of, order};
ghost use Rattle.dc_code.specs.Pairs.{first_clash};
ghost use Rattle.dc_code.specs.Passages.{Entering};
ghost use Rattle.dc_code.specs.Troubles.{Trouble};
ghost use Rattle.dc_code.specs.Verdicts.{verdict, go_on, in_iteration, race};
ghost use Rattle.dc_code.specs.Visits.{visited};

/// A loop whose blocks hold no loop is framed: what an iteration does depends on the elements of which it
/// has exposed reads and on those that LOCAL_INIT entities copy, and two of its runs differ first at a read.
pub fn plain_blocks_are_framed()
    ensures framed { (enter : Entering) (form : Form) → HasPlainBlocks form → IsFramed (loop_with enter form) }
    ensures differs { (enter : Entering) (form : Form) → HasPlainBlocks form → DiffersAtRead (loop_with enter form) }
{}

/// Where the verdict names an iteration that doesn't end well, every order that begins with it ends there,
/// with the trouble that is told.
pub fn a_bad_iteration_ends_its_orders()
    ensures { (loop : Loop) (store : Store) (iterations : List (List ℤ)) (met : Trouble) (at : List ℤ)
        → verdict loop store iterations ≡ in_iteration met at
        → (rest : List (List ℤ)) → EndsAt loop store at met (order loop [] store (at ∷ rest)) }
{}

/// Where the verdict is a race, it names two different iterations, and in every order that begins with
/// them, in this order, these two break the restriction of the element that is named, by the accesses that
/// are named.
pub fn a_race_is_in_its_orders()
    ensures names { (loop : Loop) (store : Store) (iterations : List (List ℤ)) (found : Race) (first second : List ℤ)
        → verdict loop store iterations ≡ race found first second → NamesIterations found iterations first second }
    ensures begins { (loop : Loop) (store : Store) (iterations : List (List ℤ)) (found : Race) (first second : List ℤ)
        → verdict loop store iterations ≡ race found first second
        → (rest : List (List ℤ)) → BeginsWithRace loop.form.localities.locality found (order loop [] store (first ∷ second ∷ rest)) }
{}

/// Where each iteration, alone, ends well and an element clashes, the verdict is a race. So a loop goes on
/// where each iteration ends well and no element clashes, and only there.
pub fn a_clash_is_a_race()
    ensures race { (loop : Loop) (store : Store) → IsFramed loop → DiffersAtRead loop
        → (iterations : List (List ℤ)) → KeepLocality loop store iterations → EndWell loop store iterations
        → (x : ElementId) → first_clash loop.form.localities.locality store (alone_runs loop store iterations) ≡ Some x
        → TellsRace (verdict loop store iterations) }
    ensures only { (loop : Loop) (store : Store) → IsFramed loop → DiffersAtRead loop
        → (iterations : List (List ℤ)) → KeepLocality loop store iterations → verdict loop store iterations ≡ go_on → NothingWrong loop store iterations }
    ensures goes_on { (loop : Loop) (store : Store) (iterations : List (List ℤ))
        → NothingWrong loop store iterations → verdict loop store iterations ≡ go_on }
{}

/// Where the verdict is that the loop goes on, every order of its iterations ends well: each iteration makes
/// the entries that it makes alone, no two break the restriction of an element of the store, and the loop
/// ends with the same store as in ascending order.
pub fn a_loop_that_goes_on_ends_alike_in_every_order()
    ensures { (loop : Loop) (store : Store) → IsFramed loop → DiffersAtRead loop
        → (shapes : List Shape) → MatchesShapes loop.form.localities shapes → store_fits shapes store ≡ true
        → (iterations : List (List ℤ)) → KeepLocality loop store iterations → verdict loop store iterations ≡ go_on
        → (ordered : List (List ℤ)) → IsPermutation iterations ordered → EndsAlike loop store iterations ordered }
{}

/// What is said of a loop of the main program holds in every order of its iterations: where it goes on, each
/// order ends with the one store behind it; an iteration that doesn't end well ends each order that it
/// begins; and two that race break the restriction of the named element in each order that they begin.
pub fn what_is_said_of_a_loop_holds_in_every_order()
    ensures { (loop : Loop) (turns : ℕ) (store : Store) → IsFramed loop → DiffersAtRead loop
        → (shapes : List Shape) → MatchesShapes loop.form.localities shapes → store_fits shapes store ≡ true
        → KeepLocality loop store (iterations_of (over store (header_of loop.form turns)).reached) → SaysOfOrders loop turns store }
{}

/// A visit of a loop keeps the invariant of stores, that they fit the declared variables, where its iterations
/// do; and a loop's iterations do so where its blocks hold no loop and define values that fit.
pub fn a_visit_leaves_a_store_that_fits()
    ensures visit { (shapes : List Shape) (rule : Rule) (loop : Loop) (turns : ℕ) (store : Store) → MatchesShapes loop.form.localities shapes
        → KeepsFitting shapes loop → store_fits shapes store ≡ true → store_fits shapes (visited rule loop turns store).store ≡ true }
    ensures blocks { (shapes : List Shape) (enter : Entering) (form : Form) → HasPlainBlocks form
        → ((copies : Copies) (at : List ℤ) → DefinesFitting shapes (form.block copies at)) → KeepsFitting shapes (loop_with enter form) }
{}
