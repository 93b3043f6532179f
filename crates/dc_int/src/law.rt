//! Laws of the definitions, as contracts of functions that do nothing.
ghost use Rattle.std.specs.Prelude.{◌≡◌, ◌<◌, ℕ, suc, List, map, Option, true, ℤ, pos, negsuc, neg_ℤ, ◌≤ℤ◌, ◌<ℤ◌, int_div};
ghost use Rattle.dc_int.specs.declared.access.ElementId.{ElementId};
ghost use Rattle.dc_int.specs.declared.kind.Kind.{Kind};
ghost use Rattle.dc_int.specs.declared.operation.ReduceOp.{ReduceOp};
ghost use Rattle.dc_int.specs.Entries.{Entry, store_after, last_states, settling};
ghost use Rattle.dc_int.specs.Operations.{power, one_over_power, by_divisor, modulo};
ghost use Rattle.dc_int.specs.Reductions.{identity_of, can_combine, combined};
ghost use Rattle.dc_int.specs.Store.{Store, cell_of};

/// The values that a reduction combines may be combined in any order, and in any groups.
pub fn reductions_combine_in_any_order()
    ensures commute { (op : ReduceOp) (kind : Kind) (a b : ℤ)
        → combined op kind a b ≡ combined op kind b a }
    ensures associate { (op : ReduceOp) (kind : Kind) (a b c : ℤ)
        → can_combine op kind a ≡ true → can_combine op kind b ≡ true → can_combine op kind c ≡ true
        → combined op kind (combined op kind a b) c ≡ combined op kind a (combined op kind b c) }
{}

/// The identity of a reduction changes no value that it combines.
pub fn identities_change_nothing()
    ensures left { (op : ReduceOp) (kind : Kind) (a : ℤ)
        → can_combine op kind a ≡ true → combined op kind (identity_of op kind) a ≡ a }
    ensures right { (op : ReduceOp) (kind : Kind) (a : ℤ)
        → can_combine op kind a ≡ true → combined op kind a (identity_of op kind) ≡ a }
{}

/// The identity of a reduction and what it makes of two values can be combined further.
pub fn combined_values_combine_further()
    ensures identity { (op : ReduceOp) (kind : Kind) → can_combine op kind (identity_of op kind) ≡ true }
    ensures value { (op : ReduceOp) (kind : Kind) (a b : ℤ)
        → can_combine op kind (combined op kind a b) ≡ true }
{}

/// Of the powers and MODULO what the standard says: a negative power is one over the power, rounded toward
/// zero; and MODULO is by a positive number from 0 below it, and by a negative one the negative of what it is
/// for the opposite numbers.
pub fn powers_and_modulo_are_the_standards()
    ensures negative_power { (a : ℤ) (n : ℕ)
        → one_over_power a (suc n) ≡ by_divisor (power a (suc n)) (int_div (pos 1) (power a (suc n))) }
    ensures positive_divisor { (a : ℤ) (b : ℕ)
        → 0 < b → (pos 0 ≤ℤ modulo a (pos b)) × (modulo a (pos b) <ℤ pos b) }
    ensures negative_divisor { (a : ℤ) (b : ℕ)
        → modulo a (negsuc b) ≡ neg_ℤ (modulo (neg_ℤ a) (pos (suc b))) }
{}

/// The last states of some entries leave each cell of a store as the entries leave it.
pub fn last_states_leave_the_same_cells()
    ensures { (entries : List Entry) (line : ℕ) (store : Store) (x : ElementId)
        → cell_of (store_after (map (settling line) (last_states entries)) store) x
        ≡ cell_of (store_after entries store) x }
{}
