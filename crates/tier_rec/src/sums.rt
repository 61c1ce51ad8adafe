//! The totals of the cache, kept from record to record.
ghost use Rattle.std.specs.Prelude.{◌≡◌, ◌≤◌, ◌^◌};
ghost use Rattle.std.specs.Option.{option_copied};
ghost use Rattle.tier_rec.specs.Records.{bytes_of, dirty_of, exchanged, records_of, totals_after};

use agent_state::Totals;
use tier_types::TierRec;

/// No total is above this.
pub const TOTAL_LIMIT: u64 = 1 << 40;

/// The totals after the record `old` of a name, if there was one, gave place to `new`, if there is
/// one. Each sum stops at 0 and at 2^40.
pub fn totals_with(totals: &Totals, old: Option<&TierRec>, new: Option<&TierRec>) -> Totals
    ensures { result ≡ totals_after totals.now (option_copied old.entry) (option_copied new.entry) }
{
    Totals {
        records: exchange(totals.records, count_in(old), count_in(new)),
        dirty: exchange(totals.dirty, dirty_in(old), dirty_in(new)),
        bytes: exchange(totals.bytes, bytes_in(old), bytes_in(new)),
    }
}

// A sum in which one part gave place to another.
fn exchange(sum: u64, old: u64, new: u64) -> u64
    ensures { result ≡ exchanged sum old new }
{
    sum.saturating_sub(old).saturating_add(new).min(TOTAL_LIMIT)
}

// How many records there are of a name.
fn count_in(held: Option<&TierRec>) -> u64
    ensures { result ≡ records_of (option_copied held.entry) }
{
    match held {
        Some(_) => 1,
        None => 0,
    }
}

// How many of them are dirty.
fn dirty_in(held: Option<&TierRec>) -> u64
    ensures { result ≡ dirty_of (option_copied held.entry) }
{
    match held {
        Some(record) if record.dirty => 1,
        _ => 0,
    }
}

// The bytes of their bodies.
fn bytes_in(held: Option<&TierRec>) -> u64
    ensures { result ≡ bytes_of (option_copied held.entry) }
{
    let Some(record) = held else {
        return 0;
    };
    match &record.state.obj {
        Some(obj) => obj.body.as_slice().len() as u64,
        None => 0,
    }
}
