//! Items of which the last is taken first.

ghost use Rattle.std.specs.Prelude.{◌≡◌, [], ◌∷◌, ◌↔◌, reverse, slice_get, IsTrue, MatchOption, OnOk, OnErr, length};
ghost use Rattle.std.specs.Option.{option_copied};

use crate::list::DcList;
use crate::memory::NoMemory;
use std::alloc::Global;
use std::marker::Model;

/// A stack, seen as the list of its items, of which the first is taken first.
#[derive(Debug, Drop)]
pub struct Stack<T> {
    items: DcList<T>,
}

impl<T> Model for Stack<T> {
    ghost use Rattle.std.specs.Prelude.{List, reverse};

    ghost Value = { List T };

    ghost view = { λ s. reverse s.items };
}

impl<T> Stack<T> {
    /// The empty stack. It takes no memory.
    pub fn new(alloc: Global) -> Stack<T>
        ensures { result ≡ [] }
    {
        Stack {
            items: DcList::new(alloc),
        }
    }

    /// The stack from which the items of a list are taken in their order. It takes no memory.
    pub fn from_list(mut items: DcList<T>) -> Stack<T>
        ensures { result ≡ items }
    {
        items.reverse();
        Stack { items }
    }

    pub fn len(&self) -> usize
        ensures { result ≡ length self.now }
    {
        self.items.len()
    }

    pub fn is_empty(&self) -> bool
        ensures { IsTrue result ↔ (self.now ≡ []) }
    {
        self.len() == 0
    }

    /// The items, the one that is taken next last.
    pub fn as_slice(&self) -> &[T]
        ensures { reverse result.now ≡ self.now }
    {
        self.items.as_slice()
    }

    /// The item that is taken next.
    pub fn top(&self) -> Option<&T>
        ensures { option_copied result ≡ slice_get self.now 0 }
    {
        self.items.as_slice().last()
    }

    /// Takes the top item off. It takes no memory.
    pub fn pop(&mut self) -> Option<T>
        ensures { MatchOption result ((self.old ≡ []) × (self.new ≡ []))
            (λ top. self.old ≡ top ∷ self.new) }
    {
        self.items.pop()
    }
}

impl<T: Drop> Stack<T> {
    /// Puts an item on the top. A refused item is dropped.
    pub fn push(&mut self, item: T) -> Result<(), NoMemory>
        ensures ok { OnOk result (self.new ≡ item ∷ self.old) }
        ensures err { OnErr result (self.new ≡ self.old) }
    {
        self.items.push(item)
    }
}
