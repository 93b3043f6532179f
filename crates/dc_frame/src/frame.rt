//! `Frame`, all that the machine holds beside the store.

ghost use Rattle.std.specs.Prelude.{◌≡◌, ◌≤◌, ◌<◌, ◌++◌, [], ◌∷◌, ℕ, ℤ, Some, false, length, option_map, slice_get, IfOk, OnOk, OnErr, IsTrue};
ghost use Rattle.dc_int.specs.declared.kind.Kind.{Kind};
ghost use Rattle.dc_int.specs.Sorts.{sort_with};
ghost use Rattle.dc_code.specs.Codes.{is_small};
ghost use Rattle.dc_code.specs.Frames.{UnitFrame, pushed, level, innermost, innermost_changed, entered, fresh_unit, left_unit, slot_of, slot_put, with_units, put, with_line};
ghost use Rattle.dc_code.specs.Machine.{new_frame};
ghost use Rattle.dc_code.specs.Operands.{item_off, value_off, position_off};
ghost use Rattle.dc_code.specs.Reaching.{dummy, group_slots, group_set};
ghost use Rattle.dc_lists.specs.Output.{written};
ghost use Rattle.dc_frame.specs.Taking.{taken, subscripts_off, subscripted, has_value_on_top};
ghost use Rattle.dc_frame.specs.Units.{dummy_set, with_slot, restarted};

use crate::open_unit::OpenUnit;
use crate::starts::plan_at;
use crate::subscripts::{Subscripted, first_position, joined};
use dc_code::{Code, Item, Passed};
use dc_text::{DcList, DcText, NoMemory};
use std::alloc::Global;
use std::marker::Model;

/// All that the machine holds beside the store: its stack, the top last, the units that are being executed, the
/// innermost last, the bytes of the output line so far, and whether an item stands there.
#[derive(Drop)]
pub struct Frame {
    stack: DcList<Item>,
    units: Vec<OpenUnit>,
    line: DcText,
    begun: bool,
}

impl Model for Frame {
    ghost use Rattle.std.specs.Prelude.{◌≤◌, length, reverse};
    ghost use Rattle.dc_code.specs.Frames.{Frame};

    ghost Value = { Frame };

    ghost view = { λ a. record {
      stack = reverse a.stack;
      units = a.units.items;
      line = a.line;
      begun = a.begun;
    } };

    ghost invariant = { λ a. (1 ≤ length a.units.items) × (length a.units.items ≤ 101) };
}

impl Frame {
    /// A frame at the start of the part that begins at a place.
    pub fn new(alloc: Global, code: &Code, entry: u32) -> Result<Frame, NoMemory>
        ensures { IfOk result (λ made. made ≡ new_frame code.now entry) }
    {
        let plan = plan_at(code, entry)?;
        let mut units = Vec::new(alloc);
        units.push(OpenUnit::new(alloc, code, plan, DcList::new(alloc), 0)?)?;
        Ok(Frame {
            stack: DcList::new(alloc),
            units,
            line: DcText::new(alloc),
            begun: false,
        })
    }

    // ---- the stack

    /// Takes the top item off.
    pub fn take(&mut self) -> Option<Item>
        ensures { (line : ℕ) → item_off line self.old ≡ taken line result self.new }
    {
        self.stack.pop()
    }

    /// Takes a value off.
    pub fn take_value(&mut self) -> Option<i64>
        ensures { (line : ℕ) → value_off line self.old ≡ taken line result self.new }
    {
        match self.take()? {
            Item::Value(value) => Some(value),
            Item::Position(_) | Item::Place(_) => None,
        }
    }

    /// Takes a position off.
    pub fn take_position(&mut self) -> Option<u32>
        ensures { (line : ℕ) → position_off line self.old ≡ taken line result self.new }
    {
        match self.take()? {
            Item::Position(position) => Some(position),
            Item::Value(_) | Item::Place(_) => None,
        }
    }

    /// Takes off the value that is on the top.
    pub fn pop(&mut self) -> i64
        requires { IsTrue (has_value_on_top self.old) }
        ensures { self.old ≡ pushed (Item.Value result) self.new }
    {
        match self.stack.pop() {
            Some(Item::Value(value)) => value,
            _ => unreachable!(),
        }
    }

    /// Takes off as many values as there are dimensions, the last subscript first, and finds the element by
    /// them.
    pub fn take_subscripts(&mut self, bounds: &[(i64, i64)]) -> Subscripted
        requires { IsTrue (is_small bounds.now) }
        ensures { (line : ℕ)
            → subscripts_off line bounds.now self.old ≡ subscripted line result self.new }
    {
        let mut position = first_position(bounds);
        let mut rank = bounds.len();
        while rank > 0 {
            rank -= 1;
            let Some(subscript) = self.take_value() else {
                return Subscripted::Missing;
            };
            position = joined(bounds[rank], subscript, position);
        }
        match position {
            Some(position) => Subscripted::At(position),
            None => Subscripted::Out,
        }
    }

    pub fn push_item(&mut self, item: Item) -> Result<(), NoMemory>
        ensures ok { OnOk result (self.new ≡ pushed item self.old) }
        ensures err { OnErr result (self.new ≡ self.old) }
    {
        self.stack.push(item)
    }

    pub fn push(&mut self, value: i64) -> Result<(), NoMemory>
        ensures ok { OnOk result (self.new ≡ pushed (Item.Value value) self.old) }
        ensures err { OnErr result (self.new ≡ self.old) }
    {
        self.push_item(Item::Value(value))
    }

    // ---- the output line

    /// Adds what a value writes. A LOGICAL is false where it is 0.
    pub fn put_value(&mut self, logical: bool, value: i64) -> Result<(), NoMemory>
        ensures ok { OnOk result
            (self.new ≡ put (written (sort_with logical Kind.K8) value) self.old) }
        ensures err { OnErr result (self.new ≡ self.old) }
    {
        dc_lists::put_value(&mut self.line, !self.begun, logical, value)?;
        self.begun = true;
        Ok(())
    }

    /// Adds a text as it is.
    pub fn put_text(&mut self, text: &[u8]) -> Result<(), NoMemory>
        ensures ok { OnOk result (self.new ≡ put text.now self.old) }
        ensures err { OnErr result (self.new ≡ self.old) }
    {
        let alloc = *self.units.allocator();
        dc_lists::put_text(alloc, &mut self.line, !self.begun, text)?;
        self.begun = true;
        Ok(())
    }

    /// Adds a line feed.
    pub fn end_line(&mut self) -> Result<(), NoMemory>
        ensures ok { OnOk result
            (self.new ≡ with_line (self.old.line ++ 10 ∷ []) self.old.begun self.old) }
        ensures err { OnErr result (self.new ≡ self.old) }
    {
        self.line.push(b'\n')
    }

    /// The bytes of the line so far.
    pub fn line(&self) -> &[u8]
        ensures { result.now ≡ self.now.line }
    {
        self.line.as_bytes()
    }

    /// Begins a line anew.
    pub fn clear_line(&mut self)
        ensures { self.new ≡ with_line [] false self.old }
    {
        self.line.clear();
        self.begun = false;
    }

    // ---- the units

    /// How many units are around the innermost.
    pub fn level(&self) -> u32
        ensures level { result ≡ level self.now }
        ensures some { 1 ≤ length self.now.units }
        ensures few { length self.now.units ≤ 101 }
    {
        (self.units.len() - 1) as u32
    }

    fn innermost(&self) -> &OpenUnit
        ensures { result.now ≡ innermost self.now }
    {
        &self.units[self.units.len() - 1]
    }

    /// The number of the innermost unit's plan.
    pub fn plan(&self) -> u32
        ensures { result ≡ (innermost self.now).plan }
    {
        self.innermost().plan()
    }

    /// The number of the plan of a unit, where there is such a unit.
    pub fn plan_of(&self, level: u32) -> Option<u32>
        ensures { result
            ≡ option_map (λ (unit : UnitFrame). unit.plan) (slice_get self.now.units level) }
    {
        Some(self.units.get(level as usize)?.plan())
    }

    /// The place in the code to which the innermost unit returns.
    pub fn back(&self) -> u32
        ensures { result ≡ (innermost self.now).back }
    {
        self.innermost().back()
    }

    /// The result of the procedure that the innermost unit called last.
    pub fn returned(&self) -> Option<i64>
        ensures { result ≡ (innermost self.now).returned }
    {
        self.innermost().returned()
    }

    // ---- slots

    /// The state of a slot of a unit, undefined where there is none.
    pub fn slot(&self, level: u32, group: u32, position: u32) -> Option<i64>
        ensures { result ≡ slot_of self.now.units level group position }
    {
        self.units
            .get(level as usize)?
            .state(group as usize, position as usize)
    }

    /// Puts a slot of a unit in a state, where there is such a slot.
    pub fn put_slot(&mut self, level: u32, group: u32, position: u32, state: Option<i64>)
        ensures { self.new
            ≡ with_units (slot_put level group position state self.old.units) self.old }
    {
        let level = level as usize;
        if level < self.units.len() {
            self.units[level].put_state(group as usize, position as usize, state);
        }
    }

    /// The states of the slots of a group of the innermost unit, none where there is no such group.
    pub fn group(&self, group: u32) -> &[Option<i64>]
        ensures { result.now ≡ group_slots self.now group }
    {
        self.innermost().group(group as usize)
    }

    /// Gives all slots of a group of the innermost unit a value.
    pub fn fill_group(&mut self, group: u32, value: i64)
        ensures { self.new ≡ innermost_changed (group_set group value) self.old }
    {
        let last = self.units.len() - 1;
        self.units[last].fill(group as usize, value);
    }

    /// Puts a slot of the innermost unit in a state, where there is such a slot. The slots are numbered group
    /// after group.
    pub fn set_slot(&mut self, slot: u32, value: Option<i64>)
        ensures { self.new ≡ innermost_changed (with_slot slot value) self.old }
    {
        let last = self.units.len() - 1;
        self.units[last].put_slot(slot, value);
    }

    // ---- dummies

    /// What a dummy of the innermost unit is associated with.
    pub fn dummy(&self, number: u32) -> Option<Passed>
        ensures { result ≡ dummy self.now number }
    {
        self.innermost().dummy(number as usize)
    }

    /// Gives a dummy of the innermost unit a value, where there is such a dummy.
    pub fn put_dummy(&mut self, number: u32, value: i64)
        ensures { self.new ≡ innermost_changed (dummy_set number value) self.old }
    {
        let last = self.units.len() - 1;
        self.units[last].put_dummy(number as usize, value);
    }

    // ---- from one unit to another

    /// Enters a unit, whose slots are undefined.
    pub fn enter(
        &mut self,
        alloc: Global,
        code: &Code,
        plan: u32,
        dummies: DcList<Passed>,
        back: u32,
    ) -> Result<(), NoMemory>
        requires { length self.old.units ≤ 100 }
        ensures ok { OnOk result
            (self.new ≡ entered (fresh_unit code.now plan dummies back) self.old) }
        ensures err { OnErr result (self.new ≡ self.old) }
    {
        let unit = OpenUnit::new(alloc, code, plan, dummies, back)?;
        self.units.push(unit)?;
        Ok(())
    }

    /// Leaves the innermost unit. The one around it gets its result. It takes no memory.
    pub fn leave(&mut self)
        requires { 1 < length self.old.units }
        ensures { self.new ≡ left_unit self.old }
    {
        let Some(unit) = self.units.pop() else {
            unreachable!();
        };
        let last = self.units.len() - 1;
        self.units[last].put_returned(unit.state(0, 0));
    }

    /// Leaves all but the outermost unit, makes its slots undefined, and begins the stack and the line anew. It
    /// takes no memory.
    pub fn reset(&mut self)
        ensures { self.new ≡ restarted self.old }
    {
        self.stack.clear();
        self.units.truncate(1);
        self.units[0].reset();
        self.clear_line();
    }
}
