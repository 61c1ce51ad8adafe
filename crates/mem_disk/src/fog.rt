//! A disk that tells nothing of its content, and from some call on has other bytes: for tests of
//! code over disks that lie.
ghost use Rattle.std.specs.Prelude.{◌≡◌, ◌≤◌, ◌+◌, ◌^◌, List, ℕ, None, IfOk, length};
ghost use Rattle.tier_outside.specs.Causes.{HasCause};
ghost use Rattle.mem_disk.specs.Fog.{Fog, ReadFrom, fog_counted, is_swapped, seen};

use crate::disk::MemDisk;
use crate::platter::read_part;
use std::marker::Model;
use tier_outside::{Disk, DiskFault};

/// A disk over one in memory, which meets the trait of disks and tells nothing. From its call
/// `swap_at` on, counted from 1, it reads as other bytes, whatever is written; a shorter list reads
/// short. Its faults are those of the disk below, which every call reaches.
#[derive(Drop)]
pub struct FogDisk {
    inner: MemDisk,
    calls: u64,
    swap_at: Option<u64>,
    with: Vec<u8>,
}

impl Model for FogDisk {
    ghost use Rattle.mem_disk.specs.Fog.{Fog};

    ghost Value = { Fog };

    ghost view = { λ d. record {
      inner = d.inner;
      calls = d.calls;
      swap_at = d.swap_at;
      with_bytes = d.with.items;
    } };
}

impl FogDisk {
    /// A disk that reads as `inner` does, and from its call `swap_at` on as `with`. It takes no
    /// memory.
    pub fn new(inner: MemDisk, swap_at: Option<u64>, with: Vec<u8>) -> FogDisk
        ensures { result ≡ record {
          inner = inner;
          calls = 0;
          swap_at = swap_at;
          with_bytes = with.items;
        } }
    {
        FogDisk {
            inner,
            calls: 0,
            swap_at,
            with,
        }
    }

    /// The disk below.
    pub fn into_inner(self) -> MemDisk
        ensures { result ≡ self.inner }
    {
        self.inner
    }

    // Counts a call, and tells whether it finds the other bytes.
    fn next_lies(&mut self) -> bool
        ensures counts { self.new ≡ fog_counted self.old }
        ensures lies { result ≡ is_swapped self.old.swap_at self.new.calls }
    {
        self.calls = self.calls.saturating_add(1);
        match self.swap_at {
            Some(first) => first <= self.calls,
            None => false,
        }
    }
}

impl Disk for FogDisk {
    ghost use Rattle.std.specs.Prelude.{◌≡◌, ◌≤◌, IfOk, length};
    ghost use Rattle.tier_outside.specs.Causes.{HasCause};
    ghost use Rattle.mem_disk.specs.Fog.{ReadFrom, seen};

    ghost moments = { λ _. None };

    ghost faults = { λ d. d.inner.faults };

    fn read_at(&mut self, off: u64, buf: &mut [u8]) -> Result<usize, DiskFault>
        ensures bound { IfOk result (λ n. n ≤ length buf.new) }
        ensures cause { HasCause self.old.inner.faults self.new.inner.faults result }
        ensures bytes { IfOk result (λ n. ReadFrom (seen self.old) off n buf.old buf.new) }
    {
        let lies = self.next_lies();
        match self.inner.read_at(off, buf) {
            Ok(_) if lies => Ok(read_part(&self.with, off as usize, buf)),
            Ok(count) => Ok(count),
            Err(fault) => Err(fault),
        }
    }

    fn write_at(&mut self, off: u64, bytes: &[u8]) -> Result<(), DiskFault> {
        let _ = self.next_lies();
        self.inner.write_at(off, bytes)
    }

    fn cut(&mut self, size: u64) -> Result<(), DiskFault> {
        let _ = self.next_lies();
        self.inner.cut(size)
    }

    fn sync(&mut self) -> Result<(), DiskFault> {
        let _ = self.next_lies();
        self.inner.sync()
    }

    fn size(&mut self) -> Result<u64, DiskFault>
        ensures cause { HasCause self.old.inner.faults self.new.inner.faults result }
        ensures bytes { IfOk result (λ n. n ≡ length (seen self.old)) }
    {
        let lies = self.next_lies();
        match self.inner.size() {
            Ok(_) if lies => Ok(self.with.len() as u64),
            Ok(size) => Ok(size),
            Err(fault) => Err(fault),
        }
    }

    fn restart(&mut self) -> Result<(), DiskFault> {
        let _ = self.next_lies();
        self.inner.restart()
    }
}
