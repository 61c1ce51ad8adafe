//! The bytes of a disk in memory, and what of them is not settled.
ghost use Rattle.std.specs.Prelude.{◌≡◌, ◌≤◌, ◌<◌, ◌+◌, ◌-◌, length, take, OnOk, OnErr, vec_len};
ghost use Rattle.std.specs.Prelude.{vec_capacity, false};
ghost use Rattle.tier_outside.specs.Disk.{disk_limit, IsImage, reach, filled, replaced, written};
ghost use Rattle.tier_outside.specs.Disk.{resized, touch, trim, settled, is_touched};
ghost use Rattle.mem_disk.specs.Steps.Moments.{moment_of};
ghost use Rattle.mem_disk.specs.Picks.{Picked, is_unsettled};
ghost use Rattle.mem_disk.specs.Steps.Choosing.{CopiedIn, SettledBelow, is_between};

use crate::pick::{Pick, choose_unsettled, size_of};
use std::alloc::AllocError;

/// What a disk reads as, what it read as when it was last settled, the ranges written since (each
/// by its first byte and the byte behind its last, one for each write), and the least and the
/// greatest size since.
#[derive(Drop)]
pub struct State {
    pub content: Vec<u8>,
    pub stable: Vec<u8>,
    pub touched: Vec<(usize, usize)>,
    pub low: usize,
    pub high: usize,
}

fn reached(off: usize, count: usize) -> usize
    requires { off + count ≤ disk_limit }
    ensures { result ≡ reach off count }
{
    if count == 0 { 0 } else { off + count }
}

// Room for a size, where the bytes stay.
fn make_room(bytes: &mut Vec<u8>, size: usize) -> Result<(), AllocError>
    ensures same { bytes.new.items ≡ bytes.old.items }
    ensures room { OnOk result (size ≤ vec_capacity bytes.new) }
{
    bytes.reserve(size.saturating_sub(bytes.len()))
}

// Sets the size, where there is room for it.
fn fit(bytes: &mut Vec<u8>, size: usize)
    requires { size ≤ vec_capacity bytes.old }
    ensures { bytes.new.items ≡ resized size bytes.old.items }
{
    let _ = bytes.resize(size, 0);
}

fn fill(bytes: &mut Vec<u8>, size: usize) -> Result<(), AllocError>
    ensures ok { OnOk result (bytes.new.items ≡ filled size bytes.old.items) }
    ensures err { OnErr result (bytes.new.items ≡ bytes.old.items) }
{
    if bytes.len() < size {
        bytes.resize(size, 0)?;
    }
    Ok(())
}

fn replace(content: &mut [u8], off: usize, bytes: &[u8])
    requires { off + length bytes.now ≤ length content.old }
    ensures { content.new ≡ replaced off bytes.now content.old }
{
    content[off..off + bytes.len()].copy_from_slice(bytes);
}

#[tactic(auto, using(tier_outside::proofs::DiskImages::written_none))]
fn overwrite(content: &mut Vec<u8>, off: usize, bytes: &[u8]) -> Result<(), AllocError>
    requires { off + length bytes.now ≤ disk_limit }
    ensures ok { OnOk result (content.new.items ≡ written off bytes.now content.old.items) }
    ensures err { OnErr result (content.new.items ≡ content.old.items) }
{
    if bytes.is_empty() {
        return Ok(());
    }
    fill(content, off + bytes.len())?;
    replace(content, off, bytes);
    Ok(())
}

/// A write that does the first part of its work; without memory nothing changes.
pub fn write(state: &mut State, off: usize, bytes: &[u8], done: usize) -> Result<(), AllocError>
    requires room { off + length bytes.now ≤ disk_limit }
    requires part { done ≤ length bytes.now }
    ensures ok { OnOk result (moment_of state.new ≡ touch off (length bytes.now)
        (written off (take done bytes.now) state.old.content.items) (moment_of state.old)) }
    ensures err { OnErr result (moment_of state.new ≡ moment_of state.old) }
{
    state.touched.reserve(1)?;
    overwrite(&mut state.content, off, &bytes[..done])?;
    state.touched.push_reserved((off, off + bytes.len()));
    state.high = state.high.max(reached(off, bytes.len()));
    Ok(())
}

/// A cut that goes as far as `part`; without memory nothing changes.
pub fn cut(state: &mut State, size: usize, part: usize) -> Result<(), AllocError>
    ensures ok { OnOk result (moment_of state.new ≡ trim size (resized part state.old.content.items)
        (moment_of state.old)) }
    ensures err { OnErr result (moment_of state.new ≡ moment_of state.old) }
{
    state.content.resize(part, 0)?;
    state.low = state.low.min(size);
    state.high = state.high.max(size);
    Ok(())
}

// Copies the bytes of a range, as far as it lies in both.
fn copy_part(to: &mut [u8], from: &[u8], start: usize, end: usize)
    requires { length from.now ≡ length to.old }
    ensures { CopiedIn (is_between start end) from.now to.old to.new }
{
    let last = end.min(to.len());
    if start < last {
        to[start..last].copy_from_slice(&from[start..last]);
    }
}

// Copies the bytes of all the ranges.
fn copy_ranges(to: &mut [u8], from: &[u8], ranges: &[(usize, usize)])
    requires { length from.now ≡ length to.old }
    ensures { CopiedIn (is_touched ranges.now) from.now to.old to.new }
{
    for range in ranges {
        copy_part(to, from, range.0, range.1);
    }
}

// Copies the bytes that are not settled.
fn copy_unsettled(to: &mut [u8], from: &[u8], ranges: &[(usize, usize)], low: usize)
    requires { length from.now ≡ length to.old }
    ensures { CopiedIn (is_unsettled ranges.now low) from.now to.old to.new }
{
    copy_ranges(to, from, ranges);
    let size = to.len();
    copy_part(to, from, low, size);
}

// All that the disk reads as is settled.
fn finish(state: &mut State)
    requires size { length state.old.stable.items ≡ length state.old.content.items }
    requires same { SettledBelow (moment_of state.old) }
    ensures { moment_of state.new ≡ settled state.old.content.items }
{
    let size = state.content.len();
    copy_unsettled(&mut state.stable, &state.content, &state.touched, state.low);
    state.touched.clear();
    state.low = size;
    state.high = size;
}

/// Settles what the disk reads as; without memory nothing changes.
pub fn settle(state: &mut State) -> Result<(), AllocError>
    requires { IsImage (moment_of state.old) state.old.content.items }
    ensures ok { OnOk result (moment_of state.new ≡ settled state.old.content.items) }
    ensures err { OnErr result (moment_of state.new ≡ moment_of state.old) }
{
    let size = state.content.len();
    make_room(&mut state.stable, size)?;
    fit(&mut state.stable, size);
    finish(state);
    Ok(())
}

/// Settles what a stop leaves by a pick; without memory nothing changes.
pub fn restart(state: &mut State, pick: Pick) -> Result<(), AllocError>
    requires content { IsImage (moment_of state.old) state.old.content.items }
    requires stable { IsImage (moment_of state.old) state.old.stable.items }
    ensures ok { OnOk result (Picked pick (moment_of state.old) state.new.content.items
        × (moment_of state.new ≡ settled state.new.content.items)) }
    ensures err { OnErr result (moment_of state.new ≡ moment_of state.old) }
{
    let size = size_of(pick, state.stable.len(), state.content.len());
    make_room(&mut state.content, size)?;
    make_room(&mut state.stable, size)?;
    fit(&mut state.content, size);
    fit(&mut state.stable, size);
    choose_unsettled(
        &mut state.content,
        &state.stable,
        &state.touched,
        state.low,
        pick,
    );
    finish(state);
    Ok(())
}
