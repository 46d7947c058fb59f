//! Orders of vertices.
ghost use Rattle.std.specs.Prelude.{◌≡◌, ◌<◌, length, slice_get, Some, IfOk};

use md_graph::Memory;
use std::alloc::Global;
use std::marker::Model;

/// A list of names, the first one first.
#[derive(Drop)]
pub struct Order {
    list: Vec<u32>,
}

impl Model for Order {
    ghost use Rattle.std.specs.Prelude.{List, ℕ};

    ghost Value = { List ℕ };

    ghost view = { λ o. o.list.items };
}

impl Order {
    /// These names, in this order. Errors: want of memory.
    pub fn new(alloc: Global, names: &[u32]) -> Result<Order, Memory>
        ensures { IfOk result (λ order. order ≡ names.now) }
    {
        Ok(Order {
            list: Vec::from_slice(alloc, names)?,
        })
    }

    /// These names, in this order.
    pub fn from_list(list: Vec<u32>) -> Order
        ensures { result ≡ list.items }
    {
        Order { list }
    }

    /// The names, in their order.
    pub fn as_slice(&self) -> &[u32]
        ensures { result.now ≡ self.now }
    {
        self.list.as_slice()
    }

    /// The number of names.
    pub fn len(&self) -> u64
        ensures { result ≡ length self.now }
    {
        self.list.len() as u64
    }

    /// The name at a place, counted from 0. Condition: there are more.
    pub fn get(&self, i: u64) -> u32
        requires { i < length self.now }
        ensures { slice_get self.now i ≡ Some result }
    {
        self.list[i as usize]
    }
}
