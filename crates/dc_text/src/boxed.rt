//! A value on the heap, seen as that value.

ghost use Rattle.std.specs.Prelude.{◌≡◌, IfOk};

use crate::memory::NoMemory;
use std::alloc::Global;
use std::marker::Model;

/// A value on the heap, seen as that value, so that a tree of boxes is plain data.
#[derive(Debug, Drop)]
pub struct DcBox<T> {
    inner: Box<T>,
}

impl<T> Model for DcBox<T> {
    ghost Value = { T };

    ghost coded = { T.code };

    ghost view = { λ b. b.inner.value };
}

impl<T> DcBox<T> {
    pub fn get(&self) -> &T
        ensures { result.now ≡ self.now }
    {
        &self.inner
    }

    /// Gives the value and frees the box.
    pub fn into_inner(self) -> T
        ensures { result ≡ self }
    {
        let DcBox { inner } = self;
        Box::into_inner(inner)
    }
}

impl<T: Drop> DcBox<T> {
    /// A refused value is dropped.
    pub fn new(alloc: Global, value: T) -> Result<DcBox<T>, NoMemory>
        ensures { IfOk result (λ made. made ≡ value) }
    {
        let inner = Box::new(alloc, value)?;
        Ok(DcBox { inner })
    }
}
