//! What a disk in memory holds, at each moment so far. It keeps the moments that the trait of disks
//! asks for; the past is known to proofs alone and takes no memory.
ghost use Rattle.std.specs.Prelude.{◌≡◌, ◌≤◌, ◌+◌, ◌-◌, ℕ, List, [], ◌∷◌, ◌++◌, length, take, drop};
ghost use Rattle.std.specs.Prelude.{min, max, OnOk, OnErr, IfOk};
ghost use Rattle.tier_outside.specs.Disk.{disk_limit, Reads, resized, settled, touch, trim};
ghost use Rattle.tier_outside.specs.Disk.{written};
ghost use Rattle.tier_outside.specs.DiskMoments.{last};
ghost use Rattle.mem_disk.specs.Memory.{IsSound};
ghost use Rattle.mem_disk.specs.Picks.{Picked};
ghost use Rattle.mem_disk.specs.Steps.Moments.{moment_of};

use crate::pick::Pick;
use crate::state::{State, cut, restart, settle, write};
use std::alloc::{AllocError, Global};
use std::marker::Model;
use std::snapshot::Snapshot;

/// The bytes now, and every moment before.
#[derive(Drop)]
pub struct Platter {
    state: State,
    past: Vec<Snapshot<State>>,
}

impl Model for Platter {
    ghost use Rattle.std.specs.Prelude.{List};
    ghost use Rattle.tier_outside.specs.Disk.{DiskMoment};
    ghost use Rattle.mem_disk.specs.Steps.Moments.{moments_of};

    ghost Value = { List DiskMoment };

    ghost view = { λ p. moments_of p.past.items p.state };
}

fn settled_state(alloc: Global, bytes: Vec<u8>) -> Result<State, AllocError>
    ensures { IfOk result (λ s. moment_of s ≡ settled bytes.items) }
{
    let size = bytes.len();
    Ok(State {
        stable: bytes.clone()?,
        content: bytes,
        touched: Vec::new(alloc),
        low: size,
        high: size,
    })
}

/// Reads the bytes from an offset into the buffer, as many as there are and fit.
pub fn read_part(content: &[u8], off: usize, buf: &mut [u8]) -> usize
    ensures count { result ≡ min (length buf.old) (length content.now - off) }
    ensures bytes { take result buf.new ≡ take result (drop off content.now) }
    ensures rest { drop result buf.new ≡ drop result buf.old }
{
    if off >= content.len() {
        return 0;
    }
    let count = buf.len().min(content.len() - off);
    buf[..count].copy_from_slice(&content[off..off + count]);
    count
}

#[tactic(auto, using(crate::proofs::Pushed::now_is))]
impl Platter {
    /// Bytes that are all settled.
    pub fn new(alloc: Global, bytes: Vec<u8>) -> Result<Platter, AllocError>
        ensures { IfOk result (λ p. p ≡ settled bytes.items ∷ []) }
    {
        Ok(Platter {
            state: settled_state(alloc, bytes)?,
            past: Vec::new(alloc),
        })
    }

    /// The number of bytes.
    pub fn size(&self) -> usize
        ensures { result ≡ length (last self.now).content }
    {
        self.state.content.len()
    }

    /// Reads bytes into the buffer, as many as there are and fit.
    pub fn read(&self, off: usize, buf: &mut [u8]) -> usize
        ensures { Reads off (last self.now) result buf.old buf.new }
    {
        read_part(&self.state.content, off, buf)
    }

    /// Writes the first bytes of a piece; without memory nothing changes.
    pub fn write(&mut self, off: usize, bytes: &[u8], done: usize) -> Result<(), AllocError>
        requires room { off + length bytes.now ≤ disk_limit }
        requires part { done ≤ length bytes.now }
        requires sound { IsSound (last self.old) }
        ensures ok { OnOk result (self.new ≡ self.old ++ touch off (length bytes.now) (written off
            (take done bytes.now) (last self.old).content) (last self.old) ∷ []) }
        ensures err { OnErr result (self.new ≡ self.old) }
        ensures sound { IsSound (last self.new) }
    {
        let before = Snapshot::of(&self.state);
        self.past.reserve(1)?;
        write(&mut self.state, off, bytes, done)?;
        self.past.push_reserved(before);
        Ok(())
    }

    /// Sets the size to one on the way to the wanted size; without memory nothing changes.
    pub fn cut(&mut self, size: usize, part: usize) -> Result<(), AllocError>
        requires least { min (length (last self.old).content) size ≤ part }
        requires most { part ≤ max (length (last self.old).content) size }
        requires sound { IsSound (last self.old) }
        ensures ok { OnOk result (self.new ≡ self.old
            ++ trim size (resized part (last self.old).content) (last self.old) ∷ []) }
        ensures err { OnErr result (self.new ≡ self.old) }
        ensures sound { IsSound (last self.new) }
    {
        let before = Snapshot::of(&self.state);
        self.past.reserve(1)?;
        cut(&mut self.state, size, part)?;
        self.past.push_reserved(before);
        Ok(())
    }

    /// Settles all of it; without memory nothing changes.
    pub fn sync(&mut self) -> Result<(), AllocError>
        requires sound { IsSound (last self.old) }
        ensures ok { OnOk result (self.new ≡ self.old ++ settled (last self.old).content ∷ []) }
        ensures err { OnErr result (self.new ≡ self.old) }
        ensures sound { IsSound (last self.new) }
    {
        let before = Snapshot::of(&self.state);
        self.past.reserve(1)?;
        settle(&mut self.state)?;
        self.past.push_reserved(before);
        Ok(())
    }

    /// Settles what a stop leaves by a pick; without memory nothing changes.
    pub fn restart(&mut self, pick: Pick) -> Result<(), AllocError>
        requires sound { IsSound (last self.old) }
        ensures ok { OnOk result ((bytes : List ℕ) × Picked pick (last self.old) bytes
            × (self.new ≡ self.old ++ settled bytes ∷ [])) }
        ensures err { OnErr result (self.new ≡ self.old) }
        ensures sound { IsSound (last self.new) }
    {
        let before = Snapshot::of(&self.state);
        self.past.reserve(1)?;
        restart(&mut self.state, pick)?;
        self.past.push_reserved(before);
        Ok(())
    }
}
