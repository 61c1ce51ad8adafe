//! The disk in memory: which call fails and what a failed call does. It meets the trait of disks
//! whole, images included, so code that is proved over any disk may be run over it with a stop at
//! any call.
ghost use Rattle.std.specs.Prelude.{◌≡◌, ◌≤◌, ◌+◌, ◌/◌, min, max, length, take, IfOk, OnOk, OnErr};
ghost use Rattle.tier_outside.specs.Causes.{HasCause, Rose, one_more};
ghost use Rattle.tier_outside.specs.Disk.{disk_limit, IsImage, Writes, Cuts, Syncs, Restarts};
ghost use Rattle.tier_outside.specs.Disk.{Reads, resized, touch, trim, written};
ghost use Rattle.tier_outside.specs.DiskMoments.{Now, Then, Goes};
ghost use Rattle.mem_disk.specs.Memory.{Answers, Changes, IsSound, Settles, Wakes, fresh, now};
ghost use Rattle.mem_disk.specs.Memory.{told, turn_of, restart_turn};
ghost use Rattle.mem_disk.specs.Memory as mem;

use crate::pick::Pick;
use crate::plan::{Plan, Turn};
use crate::platter::Platter;
use std::alloc::Global;
use std::marker::Model;
use tier_outside::{Disk, DiskFault};

/// There is no memory.
#[derive(Clone, Copy, Debug, PartialEq, Eq)]
pub struct NoMemory;

/// A disk in memory, for tests and for proofs that run. It counts its calls from 1.
///
/// A call whose number is listed fails once. From the call `stop_at` on every call but a restart
/// fails, until a restart; a stop happens once. A write that fails has written the first half of
/// its bytes, rounded down, and a cut that fails has gone half of the way to its size; once the
/// disk has stopped, later calls do nothing. A call that grows may also fail for want of memory,
/// and then nothing changed, but that it counts as a fault and as starved. A write that is done
/// counts its range as unsettled, whatever stood there.
///
/// It keeps the bytes, the bytes when they were last settled, and 16 bytes for each write since. A
/// read copies; a sync copies what was written since the last sync and what stands behind the least
/// size since; so does a restart.
#[derive(Drop)]
pub struct MemDisk {
    platter: Platter,
    plan: Plan,
    faults: u64,
    starved: u64,
    pick: Pick,
}

impl Model for MemDisk {
    ghost use Rattle.tier_outside.specs.DiskMoments.{last};
    ghost use Rattle.mem_disk.specs.Memory.{IsSound, Memory};

    ghost Value = { Memory };

    ghost view = { λ d. record {
      moments = d.platter;
      faults = d.faults;
      starved = d.starved;
      schedule = d.plan;
      pick = d.pick;
    } };

    ghost invariant = { λ d. IsSound (last d.platter) };
}

// Half of the way from a size to another.
fn halfway(from: usize, to: usize) -> usize
    ensures least { min from to ≤ result }
    ensures most { result ≤ max from to }
    ensures is { result ≡ mem.halfway from to }
{
    if from < to {
        from + (to - from) / 2
    } else {
        from - (from - to) / 2
    }
}

impl MemDisk {
    /// A disk of these bytes, all of them settled.
    pub fn new(
        alloc: Global,
        bytes: Vec<u8>,
        fails: Vec<u64>,
        stop_at: Option<u64>,
        pick: Pick,
    ) -> Result<MemDisk, NoMemory>
        ensures { IfOk result (λ d. d ≡ fresh bytes.items fails.items stop_at pick) }
    {
        match Platter::new(alloc, bytes) {
            Ok(platter) => Ok(MemDisk {
                platter,
                plan: Plan::new(fails, stop_at),
                faults: 0,
                starved: 0,
                pick,
            }),
            Err(_) => Err(NoMemory),
        }
    }

    /// How many calls failed for want of memory; it stays at `u64::MAX`.
    pub fn starved(&self) -> u64
        ensures { result ≡ self.now.starved }
    {
        self.starved
    }

    fn fail(&mut self) -> DiskFault
        ensures counts { self.new ≡ record self.old { faults = one_more self.old.faults } }
        ensures later { self.old.faults ≤ self.new.faults }
        ensures rose { Rose self.old.faults self.new.faults }
    {
        self.faults = self.faults.saturating_add(1);
        DiskFault
    }

    fn starve(&mut self) -> DiskFault
        ensures counts { self.new ≡ record self.old {
          faults = one_more self.old.faults;
          starved = one_more self.old.starved;
        } }
        ensures later { self.old.faults ≤ self.new.faults }
        ensures rose { Rose self.old.faults self.new.faults }
    {
        self.faults = self.faults.saturating_add(1);
        self.starved = self.starved.saturating_add(1);
        DiskFault
    }

    fn write(&mut self, off: u64, bytes: &[u8]) -> Result<(), DiskFault>
        requires { off + length bytes.now ≤ disk_limit }
        ensures sound { IsSound (now self.new) }
        ensures cause { HasCause self.old.faults self.new.faults result }
        ensures changes { Changes (turn_of self.old.schedule)
            (touch off (length bytes.now) (written off bytes.now (now self.old).content)
            (now self.old))
            (touch off (length bytes.now) (written off (take (length bytes.now / 2) bytes.now)
            (now self.old).content) (now self.old))
            self.old self.new result }
    {
        match self.plan.turn() {
            Turn::Works => match self.platter.write(off as usize, bytes, bytes.len()) {
                Ok(()) => Ok(()),
                Err(_) => Err(self.starve()),
            },
            Turn::Torn => match self.platter.write(off as usize, bytes, bytes.len() / 2) {
                Ok(()) => Err(self.fail()),
                Err(_) => Err(self.starve()),
            },
            Turn::Off => Err(self.fail()),
        }
    }

    fn resize(&mut self, size: u64) -> Result<(), DiskFault>
        requires { size ≤ disk_limit }
        ensures sound { IsSound (now self.new) }
        ensures cause { HasCause self.old.faults self.new.faults result }
        ensures changes { Changes (turn_of self.old.schedule)
            (trim size (resized size (now self.old).content) (now self.old))
            (trim size (resized (mem.halfway (length (now self.old).content) size)
            (now self.old).content) (now self.old))
            self.old self.new result }
    {
        let size = size as usize;
        match self.plan.turn() {
            Turn::Works => match self.platter.cut(size, size) {
                Ok(()) => Ok(()),
                Err(_) => Err(self.starve()),
            },
            Turn::Torn => match self.platter.cut(size, halfway(self.platter.size(), size)) {
                Ok(()) => Err(self.fail()),
                Err(_) => Err(self.starve()),
            },
            Turn::Off => Err(self.fail()),
        }
    }

    fn settle(&mut self) -> Result<(), DiskFault>
        ensures sound { IsSound (now self.new) }
        ensures cause { HasCause self.old.faults self.new.faults result }
        ensures settles { Settles (turn_of self.old.schedule) self.old self.new result }
    {
        match self.plan.turn() {
            Turn::Works => match self.platter.sync() {
                Ok(()) => Ok(()),
                Err(_) => Err(self.starve()),
            },
            Turn::Torn | Turn::Off => Err(self.fail()),
        }
    }

    fn wake(&mut self) -> Result<(), DiskFault>
        ensures was { IsSound (now self.old) }
        ensures sound { IsSound (now self.new) }
        ensures cause { HasCause self.old.faults self.new.faults result }
        ensures wakes { Wakes (restart_turn self.old.schedule) self.old self.new result }
    {
        match self.plan.restart_turn() {
            Turn::Works => match self.platter.restart(self.pick) {
                Ok(()) => {
                    self.plan.end_stop();
                    Ok(())
                }
                Err(_) => Err(self.starve()),
            },
            Turn::Torn | Turn::Off => Err(self.fail()),
        }
    }
}

impl Disk for MemDisk {
    ghost use Rattle.std.specs.Prelude.{◌≡◌, ◌≤◌, ◌+◌, ◌/◌, length, take, IfOk, OnOk, OnErr};
    ghost use Rattle.tier_outside.specs.Causes.{HasCause};
    ghost use Rattle.tier_outside.specs.Disk.{disk_limit, IsImage, Writes, Cuts, Syncs, Restarts};
    ghost use Rattle.tier_outside.specs.Disk.{Reads, resized, touch, trim, written};
    ghost use Rattle.tier_outside.specs.DiskMoments.{Now, Then, Goes};
    ghost use Rattle.mem_disk.specs.Memory.{Answers, Changes, Settles, Wakes, now, told, turn_of};
    ghost use Rattle.mem_disk.specs.Memory.{restart_turn};
    ghost use Rattle.mem_disk.specs.Memory as mem;

    ghost moments = { λ d. told d };

    ghost faults = { λ d. d.faults };

    fn read_at(&mut self, off: u64, buf: &mut [u8]) -> Result<usize, DiskFault>
        ensures bound { IfOk result (λ n. n ≤ length buf.new) }
        ensures bytes { IfOk result (λ n.
            Now (told self.old) (λ d. Reads off d n buf.old buf.new)) }
        ensures same { told self.new ≡ told self.old }
        ensures image { Now (told self.new) (λ d. IsImage d d.content) }
        ensures cause { HasCause self.old.faults self.new.faults result }
        ensures answers { Answers (turn_of self.old.schedule) self.old self.new result }
    {
        match self.plan.turn() {
            Turn::Works => Ok(self.platter.read(off as usize, buf)),
            Turn::Torn | Turn::Off => Err(self.fail()),
        }
    }

    fn write_at(&mut self, off: u64, bytes: &[u8]) -> Result<(), DiskFault>
        requires { off + length bytes.now ≤ disk_limit }
        ensures step { Goes (Writes off (length bytes.now)) (told self.old) (told self.new) }
        ensures done { OnOk result (Then (told self.old) (told self.new)
            (λ d e. e.content ≡ written off bytes.now d.content)) }
        ensures image { Now (told self.new) (λ d. IsImage d d.content) }
        ensures cause { HasCause self.old.faults self.new.faults result }
        ensures changes { Changes (turn_of self.old.schedule)
            (touch off (length bytes.now) (written off bytes.now (now self.old).content)
            (now self.old))
            (touch off (length bytes.now) (written off (take (length bytes.now / 2) bytes.now)
            (now self.old).content) (now self.old))
            self.old self.new result }
    {
        self.write(off, bytes)
    }

    fn cut(&mut self, size: u64) -> Result<(), DiskFault>
        requires { size ≤ disk_limit }
        ensures step { Goes (Cuts size) (told self.old) (told self.new) }
        ensures done { OnOk result (Then (told self.old) (told self.new)
            (λ d e. e.content ≡ resized size d.content)) }
        ensures image { Now (told self.new) (λ d. IsImage d d.content) }
        ensures cause { HasCause self.old.faults self.new.faults result }
        ensures changes { Changes (turn_of self.old.schedule)
            (trim size (resized size (now self.old).content) (now self.old))
            (trim size (resized (mem.halfway (length (now self.old).content) size)
            (now self.old).content) (now self.old))
            self.old self.new result }
    {
        self.resize(size)
    }

    fn sync(&mut self) -> Result<(), DiskFault>
        ensures step { Goes Syncs (told self.old) (told self.new) }
        ensures done { OnOk result (Then (told self.old) (told self.new) Syncs) }
        ensures kept { OnErr result (told self.new ≡ told self.old) }
        ensures image { Now (told self.new) (λ d. IsImage d d.content) }
        ensures cause { HasCause self.old.faults self.new.faults result }
        ensures settles { Settles (turn_of self.old.schedule) self.old self.new result }
    {
        self.settle()
    }

    fn size(&mut self) -> Result<u64, DiskFault>
        ensures value { IfOk result (λ n. Now (told self.old) (λ d. n ≡ length d.content)) }
        ensures same { told self.new ≡ told self.old }
        ensures image { Now (told self.new) (λ d. IsImage d d.content) }
        ensures cause { HasCause self.old.faults self.new.faults result }
        ensures answers { Answers (turn_of self.old.schedule) self.old self.new result }
    {
        match self.plan.turn() {
            Turn::Works => Ok(self.platter.size() as u64),
            Turn::Torn | Turn::Off => Err(self.fail()),
        }
    }

    fn restart(&mut self) -> Result<(), DiskFault>
        ensures step { Goes Restarts (told self.old) (told self.new) }
        ensures done { OnOk result (Then (told self.old) (told self.new) Restarts) }
        ensures kept { OnErr result (told self.new ≡ told self.old) }
        ensures image { Now (told self.new) (λ d. IsImage d d.content) }
        ensures cause { HasCause self.old.faults self.new.faults result }
        ensures wakes { Wakes (restart_turn self.old.schedule) self.old self.new result }
    {
        self.wake()
    }
}
