//! `OpenUnit`, a program unit that is being executed.

ghost use Rattle.std.specs.Prelude.{◌≡◌, IfOk, IsTrue, map, slice_get, slice_set, Option, ℤ};
ghost use Rattle.std.specs.List.{list_all};
ghost use Rattle.dc_int.specs.Store.{changed_at};
ghost use Rattle.dc_code.specs.declared.plan.Group.{Group};
ghost use Rattle.dc_code.specs.Codes.{blank, is_small};
ghost use Rattle.dc_code.specs.Frames.{fresh_unit, with_returned};
ghost use Rattle.dc_code.specs.Reaching.{group_set};
ghost use Rattle.dc_frame.specs.Units.{state_in, row_in, with_state, with_slot, dummy_set, restarted_unit, slot_set};

use crate::row::Row;
use dc_code::{Code, Group, Passed};
use dc_text::{DcList, NoMemory};
use std::alloc::Global;
use std::marker::Model;

/// A program unit that is being executed: the number of its plan, its slots and dummies, the place in the code
/// to which it returns, and the result of the procedure that it called last.
#[derive(Drop)]
pub(crate) struct OpenUnit {
    plan: u32,
    slots: Vec<Row>,
    dummies: Vec<Passed>,
    back: u32,
    returned: Option<i64>,
}

impl Model for OpenUnit {
    ghost use Rattle.dc_code.specs.Frames.{UnitFrame};

    ghost Value = { UnitFrame };

    ghost view = { λ a. record {
      plan = a.plan;
      slots = a.slots.items;
      dummies = a.dummies.items;
      back = a.back;
      returned = a.returned;
    } };
}

fn blank_rows(alloc: Global, groups: &[Group]) -> Result<Vec<Row>, NoMemory>
    requires { IsTrue (list_all (λ (group : Group). is_small group.bounds) groups.now) }
    ensures { IfOk result (λ rows. rows.items ≡ map blank groups.now) }
{
    let mut rows = Vec::with_capacity(alloc, groups.len())?;
    for group in groups {
        rows.push(Row::new(alloc, group.bounds.as_slice())?)?;
    }
    Ok(rows)
}

/// The group and the position there of a slot, by its number group after group.
fn place_of(rows: &[Row], slot: u32) -> (usize, usize)
    ensures { (state : Option ℤ) → slot_set slot state rows.now
        ≡ changed_at (λ cells. slice_set cells result.1 state) rows.now result.0 }
{
    let mut position = slot as usize;
    for (group, row) in rows.iter().enumerate() {
        if position < row.len() {
            return (group, position);
        }
        position -= row.len();
    }
    (rows.len(), position)
}

impl OpenUnit {
    /// A unit at its start. Its slots are undefined.
    pub(crate) fn new(
        alloc: Global,
        code: &Code,
        plan: u32,
        dummies: DcList<Passed>,
        back: u32,
    ) -> Result<OpenUnit, NoMemory>
        ensures { IfOk result (λ made. made ≡ fresh_unit code.now plan dummies back) }
    {
        let slots = match code.plans().get(plan as usize) {
            Some(found) => blank_rows(alloc, found.groups.as_slice())?,
            None => Vec::new(alloc),
        };
        Ok(OpenUnit {
            plan,
            slots,
            dummies: dummies.into_vec(),
            back,
            returned: None,
        })
    }

    pub(crate) fn plan(&self) -> u32
        ensures { result ≡ self.now.plan }
    {
        self.plan
    }

    pub(crate) fn back(&self) -> u32
        ensures { result ≡ self.now.back }
    {
        self.back
    }

    pub(crate) fn returned(&self) -> Option<i64>
        ensures { result ≡ self.now.returned }
    {
        self.returned
    }

    pub(crate) fn put_returned(&mut self, value: Option<i64>)
        ensures { self.new ≡ with_returned value self.old }
    {
        self.returned = value;
    }

    /// What a dummy is associated with.
    pub(crate) fn dummy(&self, number: usize) -> Option<Passed>
        ensures { result ≡ slice_get self.now.dummies number }
    {
        self.dummies.get(number).copied()
    }

    /// Gives a dummy a value, where there is such a dummy.
    pub(crate) fn put_dummy(&mut self, number: usize, value: i64)
        ensures { self.new ≡ dummy_set number value self.old }
    {
        if number < self.dummies.len() {
            self.dummies[number] = Passed::ByValue(value);
        }
    }

    /// The states of a group's slots, none where there is no such group.
    pub(crate) fn group(&self, group: usize) -> &[Option<i64>]
        ensures { result.now ≡ row_in self.now.slots group }
    {
        match self.slots.get(group) {
            Some(row) => row.as_slice(),
            None => &[],
        }
    }

    /// The state of a slot, undefined where there is none.
    pub(crate) fn state(&self, group: usize, position: usize) -> Option<i64>
        ensures { result ≡ state_in self.now.slots group position }
    {
        self.slots.get(group)?.state(position)
    }

    /// Puts a slot in a state, where there is such a slot.
    pub(crate) fn put_state(&mut self, group: usize, position: usize, state: Option<i64>)
        ensures { self.new ≡ with_state group position state self.old }
    {
        if group < self.slots.len() {
            self.slots[group].put(position, state);
        }
    }

    /// Gives all slots of a group a value.
    pub(crate) fn fill(&mut self, group: usize, value: i64)
        ensures { self.new ≡ group_set group value self.old }
    {
        if group < self.slots.len() {
            self.slots[group].put_all(Some(value));
        }
    }

    /// Puts a slot in a state, where there is such a slot. The slots are numbered group after group.
    pub(crate) fn put_slot(&mut self, slot: u32, state: Option<i64>)
        ensures { self.new ≡ with_slot slot state self.old }
    {
        let (group, position) = place_of(self.slots.as_slice(), slot);
        self.put_state(group, position, state);
    }

    /// Makes all slots undefined, and forgets what was returned.
    pub(crate) fn reset(&mut self)
        ensures { self.new ≡ restarted_unit self.old }
    {
        for row in self.slots.iter_mut() {
            row.put_all(None);
        }
        self.returned = None;
    }
}
