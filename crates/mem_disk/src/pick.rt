//! What a stop leaves of bytes that are not settled.
ghost use Rattle.std.specs.Prelude.{◌≡◌, ◌==◌, length, if◌then◌else◌};
ghost use Rattle.mem_disk.specs.Picks.{chosen, is_unsettled, picked_size};
ghost use Rattle.mem_disk.specs.Steps.Choosing.{ChosenIn, is_between};
ghost use Rattle.tier_outside.specs.Disk.{is_touched};

/// What a restart leaves of the bytes that are not settled. The size is the settled one for `Old`,
/// and else the size that the disk had.
#[derive(Clone, Copy, Debug, PartialEq, Eq)]
pub enum Pick {
    /// Each byte is the settled one.
    Old,
    /// Each byte is the one that was written.
    New,
    /// The byte at an offset is the settled one where bit (offset mod 64) is 0, and else the one
    /// that was written.
    Mixed(u64),
    /// Each byte is this one.
    Junk(u8),
}

// The byte that a stop leaves at an offset.
fn choose(pick: Pick, at: usize, old: u8, new: u8) -> u8
    ensures { result ≡ chosen pick at old new }
{
    match pick {
        Pick::Old => old,
        Pick::New => new,
        Pick::Mixed(bits) => choose_bit((bits >> (at % 64)) % 2, old, new),
        Pick::Junk(byte) => byte,
    }
}

fn choose_bit(bit: u64, old: u8, new: u8) -> u8
    ensures { result ≡ (if bit == 0 then old else new) }
{
    if bit == 0 { old } else { new }
}

// Chooses the bytes of a range, as far as it lies in the content.
fn choose_part(content: &mut [u8], stable: &[u8], start: usize, end: usize, pick: Pick)
    requires { length stable.now ≡ length content.old }
    ensures { ChosenIn pick (is_between start end) stable.now content.old content.new }
{
    let last = end.min(content.len()).max(start);
    for at in start..last {
        content[at] = choose(pick, at, stable[at], content[at]);
    }
}

// Chooses the bytes of all the ranges.
fn choose_ranges(content: &mut [u8], stable: &[u8], ranges: &[(usize, usize)], pick: Pick)
    requires { length stable.now ≡ length content.old }
    ensures { ChosenIn pick (is_touched ranges.now) stable.now content.old content.new }
{
    for range in ranges {
        choose_part(content, stable, range.0, range.1, pick);
    }
}

/// The size that a stop leaves.
pub fn size_of(pick: Pick, old: usize, new: usize) -> usize
    ensures { result ≡ picked_size pick old new }
{
    match pick {
        Pick::Old => old,
        _ => new,
    }
}

/// Chooses the bytes that are not settled.
pub fn choose_unsettled(
    content: &mut [u8],
    stable: &[u8],
    ranges: &[(usize, usize)],
    low: usize,
    pick: Pick,
)
    requires { length stable.now ≡ length content.old }
    ensures { ChosenIn pick (is_unsettled ranges.now low) stable.now content.old content.new }
{
    choose_ranges(content, stable, ranges, pick);
    let size = content.len();
    choose_part(content, stable, low, size, pick);
}
