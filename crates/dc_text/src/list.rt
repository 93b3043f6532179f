//! Lists that grow at their end.

ghost use Rattle.std.specs.Prelude.{◌≡◌, [], ◌∷◌, ◌++◌, ◌<◌, ◌↔◌, length, reverse, slice_get, slice_set, IsTrue, MatchOption, OnOk, OnErr, OnSome};
ghost use Rattle.std.specs.Option.{option_copied};

use crate::memory::NoMemory;
use std::alloc::Global;
use std::marker::Model;
use std::mem;

/// A list that grows at its end, seen as the list of its items.
#[derive(Debug, Drop)]
pub struct DcList<T> {
    items: Vec<T>,
}

impl<T> Model for DcList<T> {
    ghost use Rattle.std.specs.Prelude.{List};
    ghost use Rattle.std.specs.Coded.{coded_list};

    ghost Value = { List T };

    ghost coded = { coded_list T.code };

    ghost view = { λ a. a.items.items };
}

impl<T> DcList<T> {
    /// The empty list. It takes no memory.
    pub fn new(alloc: Global) -> DcList<T>
        ensures { result ≡ [] }
    {
        DcList {
            items: Vec::new(alloc),
        }
    }

    /// Takes no memory.
    pub fn from_vec(items: Vec<T>) -> DcList<T>
        ensures { result ≡ items.items }
    {
        DcList { items }
    }

    /// Takes no memory.
    pub fn into_vec(self) -> Vec<T>
        ensures { result.items ≡ self }
    {
        let DcList { items } = self;
        items
    }

    pub fn as_slice(&self) -> &[T]
        ensures { result.now ≡ self.now }
    {
        self.items.as_slice()
    }

    pub fn len(&self) -> usize
        ensures { result ≡ length self.now }
    {
        self.items.len()
    }

    pub fn is_empty(&self) -> bool
        ensures { IsTrue result ↔ (self.now ≡ []) }
    {
        self.items.is_empty()
    }

    /// The item at a place, counted from 0.
    pub fn get(&self, at: usize) -> Option<&T>
        ensures item { option_copied result ≡ slice_get self.now at }
        ensures within { OnSome result (at < length self.now) }
    {
        self.items.get(at)
    }

    /// Takes the last item off. It takes no memory.
    pub fn pop(&mut self) -> Option<T>
        ensures { MatchOption result ((self.old ≡ []) × (self.new ≡ []))
            (λ last. self.old ≡ self.new ++ last ∷ []) }
    {
        self.items.pop()
    }

    /// Turns the order round. It takes no memory.
    pub fn reverse(&mut self)
        ensures { self.new ≡ reverse self.old }
    {
        self.items.reverse();
    }
}

impl<T: Drop> DcList<T> {
    /// Adds an item at the end. A refused item is dropped.
    pub fn push(&mut self, item: T) -> Result<(), NoMemory>
        ensures ok { OnOk result (self.new ≡ self.old ++ item ∷ []) }
        ensures err { OnErr result (self.new ≡ self.old) }
    {
        self.items.push(item)?;
        Ok(())
    }

    /// Moves the items of `more` to the end. Refused items are dropped.
    pub fn append(&mut self, more: DcList<T>) -> Result<(), NoMemory>
        ensures ok { OnOk result (self.new ≡ self.old ++ more) }
        ensures err { OnErr result (self.new ≡ self.old) }
    {
        let DcList { mut items } = more;
        self.items.append(&mut items)?;
        Ok(())
    }

    /// Puts an item in the place of another, which it gives back. It takes no memory.
    pub fn replace(&mut self, at: usize, item: T) -> T
        requires { at < length self.old }
        ensures old { slice_get self.old at ≡ Some result }
        ensures new { self.new ≡ slice_set self.old at item }
    {
        mem::replace(&mut self.items[at], item)
    }

    /// Drops every item. It takes no memory.
    pub fn clear(&mut self)
        ensures { self.new ≡ [] }
    {
        self.items.clear();
    }
}
