//! Calls in their table.
ghost use Rattle.std.specs.Prelude.{◌≡◌, ◌+◌, ◌<◌, cond, MatchOption, vec_len};
ghost use Rattle.tier_view.specs.Changes.{adopted_in, ended_in};
ghost use Rattle.tier_calls.specs.Going.{going_in, is_going};
ghost use Rattle.tier_calls.specs.Turns.{AreInTurn, HasNoPlace};

use tier_view::Entry;

/// The place of a number among so many that are in turn from 1 on, if it is one of them.
pub(crate) fn place_of(number: u64, count: usize) -> Option<usize>
    ensures { MatchOption result (HasNoPlace number count)
        (λ place. (number ≡ 1 + place) × (place < count)) }
{
    if number == 0 {
        return None;
    }
    if (count as u64) < number {
        return None;
    }
    Some((number - 1) as usize)
}

// Whether the call is in flight and has a line.
fn is_going(entry: &Entry) -> bool
    ensures { result ≡ is_going entry.now }
{
    entry.line.is_some() && !entry.ended
}

/// The call of this number is over. Answers whether it was in flight and had a line.
pub(crate) fn end(entries: &mut Vec<Entry>, number: u64) -> bool
    requires { AreInTurn (λ e. e.number) 1 entries.old.items }
    ensures ended { entries.new.items ≡ ended_in number entries.old.items }
    ensures count { vec_len entries.new ≡ vec_len entries.old }
    ensures going { going_in entries.old.items
        ≡ going_in entries.new.items + cond result 1 0 }
{
    match place_of(number, entries.len()) {
        Some(place) => {
            let was_going = is_going(&entries[place]);
            entries[place].ended = true;
            was_going
        }
        None => false,
    }
}

/// The call of this number has taken over a write request.
pub(crate) fn adopt(entries: &mut Vec<Entry>, number: u64)
    requires { AreInTurn (λ e. e.number) 1 entries.old.items }
    ensures adopted { entries.new.items ≡ adopted_in number entries.old.items }
    ensures count { vec_len entries.new ≡ vec_len entries.old }
{
    if let Some(place) = place_of(number, entries.len()) {
        entries[place].adopted = true;
    }
}
