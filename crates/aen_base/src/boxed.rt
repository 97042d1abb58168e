ghost use Rattle.std.specs.Prelude.{◌≡◌, IfOk};

use crate::NoMem;
use std::alloc::Global;
use std::marker::Model;
use std::mem;

/// A `Box` that contracts see as its value, so that a tree of them is plain data.
#[derive(Debug)]
pub struct Boxed<T> {
    inner: Box<T>,
}

impl<T: Drop> Drop for Boxed<T> {
    fn drop(self) {
        let Boxed { inner: _ } = self;
    }
}

impl<T> Model for Boxed<T> {
    ghost Value = { T };

    ghost coded = { T.code };

    ghost view = { λ b. b.inner.value };
}

impl<T> Boxed<T> {
    /// What the box holds.
    pub fn get(&self) -> &T
        ensures { result.now ≡ self.now }
    {
        &self.inner
    }

    /// Takes the value out of its box.
    pub fn into_inner(self) -> T
        ensures { result ≡ self }
    {
        let Boxed { inner } = self;
        Box::into_inner(inner)
    }

    /// Puts a value in the place of the one that the box holds, and gives that one.
    pub fn replace(&mut self, value: T) -> T
        ensures taken { result ≡ self.old }
        ensures put { self.new ≡ value }
    {
        mem::replace(&mut *self.inner, value)
    }
}

impl<T: Drop> Boxed<T> {
    /// Puts a value into a box. The only error is want of memory.
    pub fn new(alloc: Global, value: T) -> Result<Boxed<T>, NoMem>
        ensures { IfOk result (λ b. b ≡ value) }
    {
        Ok(Boxed {
            inner: Box::new(alloc, value)?,
        })
    }
}
