//! The free blocks as their callers see them.
ghost use Rattle.std.specs.Prelude.{◌≡◌, ℕ, ◌+◌, ◌-◌, ◌<◌, ◌≤◌, List, ◌∷◌, length, take, drop, max, All, Contains, IfOk, IfErr, OnOk, OnErr, IsPermutation};
ghost use Rattle.std.specs.List.{range_with_len};
ghost use Rattle.std.specs.List.Sorted.{IsStrictlyIncreasing};
ghost use Rattle.block_space.specs.Numbers.{placed};
ghost use Rattle.block_space.specs.Faults.{IsCause};

use crate::shelf::Shelf;
use crate::{NoMemory, TakeFault};
use std::alloc::Global;
use std::marker::Model;

/// The set of free block numbers below a limit.
///
/// Contracts see it as the limit, the free numbers in rising order, and `spare`, the number of
/// blocks that can be given back before memory has to be reserved again. A new set takes no memory;
/// the numbers given back take four bytes each while they are free again.
#[derive(Drop)]
pub struct BlockSpace {
    alloc: Global,
    returned: Shelf,
    next: u32,
    limit: u32,
}

impl Model for BlockSpace {
    ghost use Rattle.std.specs.Prelude.{◌-◌, ◌≤◌, ◌++◌};
    ghost use Rattle.std.specs.List.{range_with_len};
    ghost use Rattle.block_space.specs.Numbers.{IsRisingWithin};
    ghost use Rattle.block_space.specs.Views.{Space};

    ghost Value = { Space };

    // Those that were given back, and all from `next` on.
    ghost view = { λ s. record {
      limit = s.limit;
      free = s.returned.numbers ++ range_with_len s.next (s.limit - s.next);
      spare = s.returned.spare;
    } };

    ghost invariant = { λ s. (s.next ≤ s.limit) × IsRisingWithin 0 s.next s.returned.numbers };
}

impl BlockSpace {
    /// All numbers below `limit` are free. It keeps `alloc` for what it allocates later, and
    /// allocates nothing itself.
    pub fn new(alloc: Global, limit: u32) -> Result<BlockSpace, NoMemory>
        ensures { IfOk result (λ space. space ≡ record {
          limit = limit;
          free = range_with_len 0 limit;
          spare = 0;
        }) }
    {
        Ok(BlockSpace {
            alloc,
            returned: Shelf::new(alloc),
            next: 0,
            limit,
        })
    }

    /// How many numbers are free.
    pub fn free(&self) -> u32
        ensures count { result ≡ length self.now.free }
        ensures rising { IsStrictlyIncreasing self.now.free }
        ensures below { All (λ block. block < self.now.limit) self.now.free }
    {
        let untouched = self.limit - self.next;
        self.returned.len() as u32 + untouched
    }

    /// Takes the `count` lowest free numbers, and gives them in rising order.
    ///
    /// Each costs about the logarithm of the number of blocks that were given back and are free, or
    /// nothing but an addition where none are. Answers `NoRoom` with the number of free blocks
    /// exactly where fewer than `count` are free, and `NoMemory` where there is no memory for the
    /// list; then nothing has changed.
    pub fn take(&mut self, count: u32) -> Result<Vec<u32>, TakeFault>
        ensures enough { OnOk result (count ≤ length self.old.free) }
        ensures lowest { IfOk result (λ blocks. blocks.items ≡ take count self.old.free) }
        ensures rising { IfOk result (λ blocks. IsStrictlyIncreasing blocks.items) }
        ensures below { IfOk result (λ blocks. All (λ block. block < self.old.limit) blocks.items) }
        ensures gone { IfOk result (λ blocks.
            All (λ block. ¬ Contains self.new.free block) blocks.items) }
        ensures others { OnOk result
            (self.new ≡ record self.old { free = drop count self.old.free }) }
        ensures refused { OnErr result (self.new ≡ self.old) }
        ensures cause { IfErr result (IsCause count (length self.old.free)) }
    {
        let free = self.free();
        if free < count {
            return Err(TakeFault::NoRoom { free });
        }
        let Ok(mut blocks) = Vec::with_capacity(self.alloc, count as usize) else {
            return Err(TakeFault::NoMemory);
        };
        for _ in 0..count {
            let block = self.take_lowest();
            blocks.push_reserved(block);
        }
        Ok(blocks)
    }

    // Takes the lowest free number.
    fn take_lowest(&mut self) -> u32
        requires { 0 < length self.old.free }
        ensures { self.old ≡ record self.new { free = result ∷ self.new.free } }
    {
        if let Some(block) = self.returned.pop_least() {
            return block;
        }
        let block = self.next;
        self.next += 1;
        block
    }

    /// Makes a number free again, in the memory that `reserve` made ready; it needs no more, and
    /// cannot fail.
    ///
    /// The cost is about the logarithm of the number of blocks that were given back and are free.
    pub fn give(&mut self, block: u32)
        requires spare { 1 ≤ self.old.spare }
        requires in_range { block < self.old.limit }
        requires taken { ¬ Contains self.old.free block }
        ensures given { self.new ≡ record self.old {
          free = placed block self.old.free;
          spare = self.old.spare - 1;
        } }
        ensures one_more { IsPermutation (block ∷ self.old.free) self.new.free }
    {
        self.returned.put(block);
    }

    /// Makes memory ready so that `spare` numbers can be given back, those included for which it
    /// was ready already.
    ///
    /// The memory grows by doubling, so that calls before each commit cost a constant for each
    /// number in the long run. Answers `NoMemory` where it cannot grow; then nothing has changed.
    pub fn reserve(&mut self, spare: u32) -> Result<(), NoMemory>
        ensures ok { OnOk result (self.new ≡ record self.old { spare = max self.old.spare spare }) }
        ensures err { OnErr result (self.new ≡ self.old) }
    {
        self.returned.reserve(spare)
    }
}
