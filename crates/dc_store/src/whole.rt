//! `WholeStore`, the cells of one store.

ghost use Rattle.std.specs.Prelude.{◌≡◌, Some, is_some, IfOk, IsOk, OnOk, IsTrue};
ghost use Rattle.dc_int.specs.Entries.{Reads, Defines, Undefines, Contributes};
ghost use Rattle.dc_int.specs.Shapes.{state_fits};
ghost use Rattle.dc_int.specs.Store.{cell_of, value_at};
ghost use Rattle.dc_store.specs.Shaped.{IsFitting};
ghost use Rattle.dc_store.specs.Whole.{whole_of, after_entry};

use crate::cells::Cells;
use crate::store::Store;
use dc_int::{ElementId, ReduceOp};
use dc_text::NoMemory;
use std::alloc::Global;

/// The cells of one store, which keeps no entries. What it holds is the store.
#[derive(Drop)]
pub struct WholeStore<'a> {
    store: &'a mut Store,
}

impl<'a> WholeStore<'a> {
    /// It takes no memory.
    pub fn new(store: &'a mut Store) -> WholeStore<'a>
        ensures holds { whole_of result
            ≡ record { name = store.entry.ghost_name; shaped = store.old } }
        ensures fitting { IsFitting store.old }
    {
        let _shapes = store.shapes();
        WholeStore { store }
    }
}

impl Cells for WholeStore<'_> {
    ghost use Rattle.std.specs.Prelude.{refl};
    ghost use Rattle.dc_store.specs.Whole.{Whole, after_entry};

    ghost Meaning = { Whole };

    ghost holds = { whole_of };

    ghost shapes = { λ whole. whole.shaped.shapes };

    ghost shown = { λ whole. whole.shaped.store };

    ghost after = { after_entry };

    ghost shows = { λ entry whole. refl };

    ghost keeps_shapes = { λ entry whole. refl };

    fn get(
        &mut self,
        _alloc: Global,
        element: ElementId,
        line: u32,
    ) -> Result<Option<i64>, NoMemory>
        requires { IsTrue (is_some (cell_of (whole_of self.old).shaped.store element)) }
        ensures ok { IsOk result }
        ensures state { IfOk result
            (λ state. state ≡ value_at (whole_of self.old).shaped.store element) }
        ensures after { OnOk result
            (whole_of self.new ≡ after_entry (Reads element line) (whole_of self.old)) }
    {
        Ok(self.store.value(element))
    }

    fn set(
        &mut self,
        _alloc: Global,
        element: ElementId,
        value: i64,
        line: u32,
    ) -> Result<(), NoMemory>
        requires element { IsTrue (is_some (cell_of (whole_of self.old).shaped.store element)) }
        requires fits { IsTrue
            (state_fits (whole_of self.old).shaped.shapes element (Some value)) }
        ensures ok { IsOk result }
        ensures after { OnOk result
            (whole_of self.new ≡ after_entry (Defines element value line) (whole_of self.old)) }
    {
        self.store.put(element, Some(value));
        Ok(())
    }

    fn forget(&mut self, _alloc: Global, element: ElementId, line: u32) -> Result<(), NoMemory>
        requires { IsTrue (is_some (cell_of (whole_of self.old).shaped.store element)) }
        ensures ok { IsOk result }
        ensures after { OnOk result
            (whole_of self.new ≡ after_entry (Undefines element line) (whole_of self.old)) }
    {
        self.store.put(element, None);
        Ok(())
    }

    fn contribute(
        &mut self,
        _alloc: Global,
        element: ElementId,
        op: ReduceOp,
        value: i64,
    ) -> Result<(), NoMemory>
        ensures ok { IsOk result }
        ensures after { OnOk result
            (whole_of self.new ≡ after_entry (Contributes element op value) (whole_of self.old)) }
    {
        Ok(())
    }
}
