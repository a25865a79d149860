//! Values in their order.
ghost use Rattle.std.specs.Prelude.{◌≡◌, [], IfOk};

use crate::{Fail, Never};
use std::alloc::Global;
use std::marker::Model;

/// Values in their order. Contracts see the list of them.
#[derive(Drop)]
pub struct Items<T> {
    items: Vec<T>,
}

impl<T> Model for Items<T> {
    ghost use Rattle.std.specs.Prelude.{List};

    ghost Value = { List T };

    ghost view = { λ values. values.items.items };
}

impl<T> Items<T> {
    /// No values. Takes no memory.
    pub fn empty(alloc: Global) -> Self
        ensures { result ≡ [] }
    {
        Items {
            items: Vec::new(alloc),
        }
    }

    /// Of a vector. Takes no memory.
    pub fn of(items: Vec<T>) -> Self
        ensures { result ≡ items.items }
    {
        Items { items }
    }

    /// The values. Takes no memory.
    pub fn items(&self) -> &[T]
        ensures { result.now ≡ self.now }
    {
        &self.items
    }
}

impl<T: Copy> Items<T> {
    /// The same values in items of their own; fails for want of memory alone.
    pub fn copy(&self, alloc: Global) -> Result<Self, Fail<Never>>
        ensures { IfOk result (λ copy. copy ≡ self.now) }
    {
        let mut items = Vec::new(alloc);
        match items.extend_from_slice(&self.items) {
            Ok(()) => Ok(Items { items }),
            Err(_) => Err(Fail::NoMemory),
        }
    }
}
