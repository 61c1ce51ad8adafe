//! Work in its table.
ghost use Rattle.std.specs.Option.{option_copied};
ghost use Rattle.std.specs.Prelude.{◌≡◌, map, vec_capacity, vec_len};
ghost use Rattle.tier_view.specs.Changes.{gone_in};
ghost use Rattle.tier_view.specs.Stops.{gone_at, gone_by};
ghost use Rattle.tier_calls.specs.Turns.{AreByEpoch, IsTheOne, standing};

use crate::calls::place_of;
use tier_view::Flown;

// The work has gone: it goes now, where it has not gone before.
fn go(flown: &mut Flown, now: u64)
    ensures { flown.new ≡ gone_at now flown.old }
{
    if flown.went.is_none() {
        flown.went = Some(now);
    }
}

/// The work of this operation goes, of which so many entries are of earlier epochs.
pub(crate) fn go_at(flown: &mut Vec<Flown>, earlier: u64, opid: u64, now: u64)
    requires { AreByEpoch earlier flown.old.items }
    ensures gone { flown.new.items ≡ gone_in now opid flown.old.items }
    ensures count { vec_len flown.new ≡ vec_len flown.old }
    ensures room { vec_capacity flown.new ≡ vec_capacity flown.old }
{
    let first = earlier as usize;
    if let Some(place) = place_of(opid, flown.len() - first) {
        go(&mut flown[first + place], now);
    }
}

/// The work of this operation, if it stands, of which so many entries are of earlier epochs.
pub(crate) fn standing_at(flown: &[Flown], earlier: u64, opid: u64) -> Option<&Flown>
    requires { AreByEpoch earlier flown.now }
    ensures { IsTheOne opid flown.now (option_copied result) }
{
    let first = earlier as usize;
    match place_of(opid, flown.len() - first) {
        Some(place) => standing(&flown[first + place]),
        None => None,
    }
}

// The work, if it has not gone.
fn standing(flown: &Flown) -> Option<&Flown>
    ensures { option_copied result ≡ standing flown.now }
{
    match flown.went {
        Some(_) => None,
        None => Some(flown),
    }
}

/// All work goes, of which so many entries are of earlier epochs.
pub(crate) fn go_all(flown: &mut Vec<Flown>, earlier: u64, now: u64)
    requires { AreByEpoch earlier flown.old.items }
    ensures gone { flown.new.items ≡ map (gone_at now) flown.old.items }
    ensures count { vec_len flown.new ≡ vec_len flown.old }
    ensures room { vec_capacity flown.new ≡ vec_capacity flown.old }
{
    for place in earlier as usize..flown.len() {
        go(&mut flown[place], now);
    }
}
