//! `Cells`, by which a machine reaches the cells of a store.

ghost use Rattle.std.specs.Prelude.{◌≡◌, List, Some, is_some, IfOk, OnOk, IsTrue};
ghost use Rattle.dc_int.specs.declared.variable.Shape.{Shape};
ghost use Rattle.dc_int.specs.Entries.{Entry, Reads, Defines, Undefines, Contributes, store_after_entry};
ghost use Rattle.dc_int.specs.Shapes.{state_fits};
ghost use Rattle.dc_int.specs.Store.{Store, cell_of, value_at};
ghost use Rattle.dc_store.specs.Keeping.{KeepsElements, KeepsFitting, elements-kept, fitting-kept};

use dc_int::{ElementId, ReduceOp};
use dc_text::NoMemory;
use std::alloc::Global;

/// Cells that show a store. What a form of cells holds is its meaning, and each call that answers Ok
/// leaves the meaning after its one entry. After want of memory the cells are given up.
pub trait Cells {
    // What a form can hold.
    ghost Meaning: { Type 0 };

    // What these cells hold.
    ghost holds: { Self → Meaning };

    // The shapes of the variables.
    ghost shapes: { Meaning → List Shape };

    // The store that is shown.
    ghost shown: { Meaning → Store };

    // The meaning after one entry.
    ghost after: { Entry → Meaning → Meaning };

    /// The state of an element. `None` is undefined.
    fn get(&mut self, alloc: Global, element: ElementId, line: u32) -> Result<Option<i64>, NoMemory>
        requires { IsTrue (is_some (cell_of (shown (holds self.old)) element)) }
        ensures state { IfOk result (λ state. state ≡ value_at (shown (holds self.old)) element) }
        ensures after { OnOk result (holds self.new ≡ after (Reads element line) (holds self.old)) };

    /// Defines an element.
    fn set(
        &mut self,
        alloc: Global,
        element: ElementId,
        value: i64,
        line: u32,
    ) -> Result<(), NoMemory>
        requires element { IsTrue (is_some (cell_of (shown (holds self.old)) element)) }
        requires fits { IsTrue (state_fits (shapes (holds self.old)) element (Some value)) }
        ensures { OnOk result
            (holds self.new ≡ after (Defines element value line) (holds self.old)) };

    /// Makes an element undefined.
    fn forget(&mut self, alloc: Global, element: ElementId, line: u32) -> Result<(), NoMemory>
        requires { IsTrue (is_some (cell_of (shown (holds self.old)) element)) }
        ensures { OnOk result (holds self.new ≡ after (Undefines element line) (holds self.old)) };

    /// Contributes a value to a REDUCE element.
    fn contribute(
        &mut self,
        alloc: Global,
        element: ElementId,
        op: ReduceOp,
        value: i64,
    ) -> Result<(), NoMemory>
        requires element { IsTrue (is_some (cell_of (shown (holds self.old)) element)) }
        requires fits { IsTrue (state_fits (shapes (holds self.old)) element (Some value)) }
        ensures { OnOk result
            (holds self.new ≡ after (Contributes element op value) (holds self.old)) };

    // An entry changes the store shown as it changes any store: a definition gives one element its
    // value, an element that becomes undefined is so, and a read and a contribution change none.
    ghost shows: { (entry : Entry) (meaning : Meaning)
        → shown (after entry meaning) ≡ store_after_entry entry (shown meaning) };

    // It changes no shape.
    ghost keeps_shapes: { (entry : Entry) (meaning : Meaning)
        → shapes (after entry meaning) ≡ shapes meaning };

    // So it keeps the elements, and one that fits keeps the store shown fitting. These two are laws of
    // every form by the two above.
    ghost keeps_elements: { KeepsElements shown after } = { elements-kept shown after shows };

    ghost keeps_fitting: { KeepsFitting shapes shown after } = { fitting-kept shapes shown after
        shows keeps_shapes };
}
