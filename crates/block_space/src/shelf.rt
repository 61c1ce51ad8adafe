//! The numbers that were given back, of which the least is found in the logarithm of their number.
//!
//! Contracts see them as a list in rising order, and beside it how many more fit with no more
//! memory.
ghost use Rattle.std.specs.Prelude.{◌≡◌, ◌+◌, ◌-◌, ◌<◌, ◌≤◌, List, [], ◌∷◌, length, max, MatchOption, OnOk, OnErr};
ghost use Rattle.block_space.specs.Numbers.{placed};

use crate::NoMemory;
use std::alloc::Global;
use std::cmp::Reverse;
use std::collections::BinaryHeap;
use std::marker::Model;

/// Numbers that were given back, and the room for `spare` more.
#[derive(Drop)]
pub(crate) struct Shelf {
    heap: BinaryHeap<Reverse<u32>>,
    spare: u32,
}

impl Model for Shelf {
    ghost use Rattle.std.specs.Prelude.{◌+◌, ◌≤◌, map};
    ghost use Rattle.std.specs.BinaryHeap.{IsHeap, heap_items, heap_len, heap_capacity};
    ghost use Rattle.std.specs.Ordering.{nat_cmp};
    ghost use Rattle.block_space.specs.Numbers.{in_order};
    ghost use Rattle.block_space.specs.Views as views;

    ghost Value = { views.Shelf };

    ghost view = { λ s. record {
      numbers = in_order (map (λ r. r.0) (heap_items s.heap));
      spare = s.spare;
    } };

    ghost invariant = { λ s. IsHeap (λ x y. nat_cmp y.0 x.0) (heap_items s.heap)
        × (heap_len s.heap + s.spare ≤ heap_capacity s.heap) };
}

impl Shelf {
    /// No numbers, and no room.
    pub(crate) fn new(alloc: Global) -> Shelf
        ensures { result ≡ record { numbers = []; spare = 0 } }
    {
        Shelf {
            heap: BinaryHeap::new(alloc),
            spare: 0,
        }
    }

    /// How many numbers there are.
    pub(crate) fn len(&self) -> usize
        ensures { result ≡ length self.now.numbers }
    {
        self.heap.as_slice().len()
    }

    /// Makes room for `spare` numbers more, or for as many as there was room for.
    pub(crate) fn reserve(&mut self, spare: u32) -> Result<(), NoMemory>
        ensures ok { OnOk result (self.new ≡ record self.old { spare = max self.old.spare spare }) }
        ensures err { OnErr result (self.new ≡ self.old) }
    {
        if self.spare < spare {
            self.heap.reserve(spare as usize)?;
            self.spare = spare;
        }
        Ok(())
    }

    /// Puts a number among the others, in the room that was made for it.
    pub(crate) fn put(&mut self, number: u32)
        requires { 1 ≤ self.old.spare }
        ensures { self.new ≡ record {
          numbers = placed number self.old.numbers;
          spare = self.old.spare - 1;
        } }
    {
        self.spare -= 1;
        let Ok(()) = self.heap.push(Reverse(number)) else {
            unreachable!();
        };
    }

    /// Takes the least number.
    pub(crate) fn pop_least(&mut self) -> Option<u32>
        ensures { MatchOption result
            ((self.old.numbers ≡ []) × (self.new ≡ self.old))
            (λ least. self.old ≡ record self.new { numbers = least ∷ self.new.numbers }) }
    {
        let Some(least) = self.heap.pop() else {
            return None;
        };
        Some(least.0)
    }
}
