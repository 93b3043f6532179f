//! `Variables`, the ledger of a running program as cells of the machine.

ghost use Rattle.std.specs.Prelude.{◌≡◌, Some, IfOk, OnOk};
ghost use Rattle.dc_int.specs.Entries.{Reads, Defines, Undefines, Contributes};
ghost use Rattle.dc_int.specs.Store.{value_at};
ghost use Rattle.dc_run.specs.Variables.{held_by, after_entry};

use dc_int::{ElementId, ReduceOp, Shape};
use dc_plain::Ledger;
use dc_store::Cells;
use dc_text::{DcList, NoMemory};
use std::alloc::Global;

/// The variables of a running program with their shapes. What the machine does to them isn't noted.
#[derive(Drop)]
pub(crate) struct Variables {
    pub ledger: Ledger,
    pub shapes: DcList<Shape>,
}

impl Cells for Variables {
    ghost use Rattle.std.specs.Prelude.{refl};
    ghost use Rattle.dc_run.specs.Variables.{Held, held_by, after_entry};

    ghost Meaning = { Held };

    ghost holds = { held_by };

    ghost shapes = { λ held. held.shapes };

    ghost shown = { λ held. held.store };

    ghost after = { after_entry };

    ghost shows = { λ entry held. refl };

    ghost keeps_shapes = { λ entry held. refl };

    fn get(
        &mut self,
        _alloc: Global,
        element: ElementId,
        line: u32,
    ) -> Result<Option<i64>, NoMemory>
        ensures state { IfOk result
            (λ state. state ≡ value_at ((held_by self.old).store) element) }
        ensures after { OnOk result
            (held_by self.new ≡ after_entry (Reads element line) (held_by self.old)) }
    {
        Ok(self.ledger.value_at(element))
    }

    fn set(
        &mut self,
        _alloc: Global,
        element: ElementId,
        value: i64,
        line: u32,
    ) -> Result<(), NoMemory>
        ensures { OnOk result
            (held_by self.new ≡ after_entry (Defines element value line) (held_by self.old)) }
    {
        self.ledger.put(element, Some(value));
        Ok(())
    }

    fn forget(&mut self, _alloc: Global, element: ElementId, line: u32) -> Result<(), NoMemory>
        ensures { OnOk result
            (held_by self.new ≡ after_entry (Undefines element line) (held_by self.old)) }
    {
        self.ledger.put(element, None);
        Ok(())
    }

    fn contribute(
        &mut self,
        _alloc: Global,
        element: ElementId,
        op: ReduceOp,
        value: i64,
    ) -> Result<(), NoMemory>
        ensures { OnOk result
            (held_by self.new ≡ after_entry (Contributes element op value) (held_by self.old)) }
    {
        Ok(())
    }
}
