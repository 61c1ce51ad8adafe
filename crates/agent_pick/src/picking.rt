//! The pick over a list of rows.
ghost use Rattle.std.specs.Prelude.{◌≡◌, ◌<◌, ◌≤◌, length};
ghost use Rattle.std.specs.List.{position};
ghost use Rattle.std.specs.Option.{option_copied};
ghost use Rattle.agent_pick.specs.Rules.{is_aged, qualifies, rule_of, wants_evict, wants_flush};
ghost use Rattle.agent_pick.specs.Picks.{chosen_at, first_from, is_behind, pick_of, start_of};
ghost use Rattle.agent_pick.specs.Steps.{IsLimit};

use crate::temperatures::cold_limit;
use crate::{Row, Rule};
use agent_state::{EvictMode, FlushMode, Modes};
use obj_model::{Name, PoolValues};

/// What the agent does next, with the row at this place.
#[derive(Clone, Copy, Debug, PartialEq, Eq)]
pub enum Chosen {
    Evict(usize),
    Flush(usize),
    /// No row qualifies.
    Nothing,
}

/// The first row that qualifies in the cyclic order behind the cursor, and from the first row on
/// without a cursor. The rows stand in rising order of their names. A pass over the rows, and some
/// 30 more in evict mode some, where the temperatures are ranked; it takes no memory.
pub fn pick(
    rows: &[Row],
    cursor: Option<&Name>,
    modes: &Modes,
    values: &PoolValues,
    now: u64,
) -> Chosen
    ensures { result ≡ pick_of rows.now (option_copied cursor.entry)
        (rule_of modes.now values.now now) }
{
    if rows.is_empty() {
        return Chosen::Nothing;
    }
    let rule = Rule {
        modes: *modes,
        values: *values,
        moment: now,
    };
    let limit = limit_for(rows, &rule);
    choice_at(
        rows,
        first_place(rows, start_at(rows, cursor), &rule, limit),
    )
}

// What is done at the place, if there is one.
fn choice_at(rows: &[Row], place: Option<usize>) -> Chosen
    ensures { result ≡ chosen_at rows.now place }
{
    let Some(place) = place else {
        return Chosen::Nothing;
    };
    match rows.get(place) {
        Some(row) if row.dirty => Chosen::Flush(place),
        Some(_) => Chosen::Evict(place),
        None => Chosen::Nothing,
    }
}

// The limit of cold temperatures, where the rule asks for it.
fn limit_for(rows: &[Row], rule: &Rule) -> u128
    requires { 0 < length rows.now }
    ensures { IsLimit rows.now rule.now result }
{
    match rule.modes.evict {
        EvictMode::Some => cold_limit(rows, rule.modes.effort),
        EvictMode::Idle | EvictMode::Full => 0,
    }
}

// How many rows are passed over at first.
fn start_at(rows: &[Row], cursor: Option<&Name>) -> usize
    ensures value { result ≡ start_of (option_copied cursor.entry) rows.now }
    ensures within { result ≤ length rows.now }
{
    match cursor {
        None => 0,
        Some(cursor) => match first_behind(rows, cursor) {
            Some(place) => place,
            None => rows.len(),
        },
    }
}

// The first row behind the cursor.
fn first_behind(rows: &[Row], cursor: &Name) -> Option<usize>
    ensures { result ≡ position (is_behind cursor.now) rows.now }
{
    rows.iter().position(|row| comes_behind(row, cursor))
}

// Whether a row comes behind the cursor.
fn comes_behind(row: &Row, cursor: &Name) -> bool
    ensures { result ≡ is_behind cursor.now row.now }
{
    *cursor < row.name
}

// The first place from the start on that qualifies, else the first before it.
fn first_place(rows: &[Row], start: usize, rule: &Rule, limit: u128) -> Option<usize>
    requires start { start ≤ length rows.now }
    requires limit { IsLimit rows.now rule.now limit }
    ensures value { result ≡ first_from (qualifies rows.now rule.now) start rows.now }
{
    let (before, behind) = rows.split_at(start);
    match first_in(behind, rows, rule, limit) {
        Some(place) => Some(start + place),
        None => first_in(before, rows, rule, limit),
    }
}

// The first place in a part of the rows that qualifies among all.
fn first_in(part: &[Row], rows: &[Row], rule: &Rule, limit: u128) -> Option<usize>
    requires { IsLimit rows.now rule.now limit }
    ensures { result ≡ position (qualifies rows.now rule.now) part.now }
{
    part.iter()
        .position(|row| is_wanted(row, rows, rule, limit))
}

// Whether a row qualifies among all.
fn is_wanted(row: &Row, _rows: &[Row], rule: &Rule, limit: u128) -> bool
    requires { IsLimit _rows.now rule.now limit }
    ensures { result ≡ qualifies _rows.now rule.now row.now }
{
    !row.busy
        && if row.dirty {
            is_flushed(row, rule)
        } else {
            is_evicted(row, _rows, rule, limit)
        }
}

// Whether a dirty row is flushed.
fn is_flushed(row: &Row, rule: &Rule) -> bool
    ensures { result ≡ wants_flush rule.now row.now }
{
    match (rule.modes.flush, rule.modes.evict) {
        (FlushMode::High, _) | (FlushMode::Low, EvictMode::Full) => true,
        (FlushMode::Low, _) => has_age(row.mtime, rule.values.cache_min_flush_age, rule.moment),
        (FlushMode::Idle, _) => false,
    }
}

// Whether a clean row is evicted.
fn is_evicted(row: &Row, _rows: &[Row], rule: &Rule, limit: u128) -> bool
    requires { IsLimit _rows.now rule.now limit }
    ensures { result ≡ wants_evict _rows.now rule.now row.now }
{
    match rule.modes.evict {
        EvictMode::Full => true,
        EvictMode::Some => {
            has_age(row.mtime, rule.values.cache_min_evict_age, rule.moment)
                && u128::from(row.temperature) < limit
        }
        EvictMode::Idle => false,
    }
}

// Whether a moment lies so far back.
fn has_age(moment: u64, age: u64, now: u64) -> bool
    ensures { result ≡ is_aged moment age now }
{
    u128::from(moment) + u128::from(age) <= u128::from(now)
}
