//! The rows by their temperature. A rank is never computed row by row: since it rises with the
//! temperature, the cold rows are those below one limit, which some 30 passes over the rows find
//! without any memory.
ghost use Rattle.std.specs.Prelude.{◌≡◌, ◌<◌, ◌≤◌, ◌-◌, ◌^◌, nat_lt, length};
ghost use Rattle.agent_pick.specs.Rules.{colder, is_cold};
ghost use Rattle.agent_pick.specs.Steps.{IsBetween, IsColdLimit};

use crate::Row;

const MILLION: u128 = 1_000_000;

// Above every temperature.
const TOP: u128 = 1 << 64;

// How many rows are colder.
fn colder(rows: &[Row], temperature: u128) -> usize
    ensures { result ≡ colder rows.now temperature }
{
    rows.iter()
        .filter(|row| u128::from(row.temperature) < temperature)
        .count()
}

// Whether a temperature ranks below the effort.
fn ranks_below(rows: &[Row], effort: u64, temperature: u128) -> bool
    requires { 0 < length rows.now }
    ensures { result ≡ is_cold rows.now effort temperature }
{
    let rank = MILLION * colder(rows, temperature) as u128 / rows.len() as u128;
    rank < u128::from(effort)
}

// The greatest temperature.
fn warmest(rows: &[Row]) -> u64 {
    let mut greatest = 0;
    for row in rows {
        greatest = row.temperature.max(greatest);
    }
    greatest
}

// What is known of the limit: it lies from `low` to `high`.
#[derive(Clone, Copy, Drop)]
struct Between {
    low: u128,
    high: u128,
}

// Halves what is not known, by one more temperature.
fn narrowed(rows: &[Row], effort: u64, between: Between, probe: u128) -> Between
    requires some { 0 < length rows.now }
    requires between { IsBetween rows.now effort between }
    requires inside { (between.low ≤ probe) × (probe < between.high) }
    ensures known { IsBetween rows.now effort result }
    ensures less { result.high - result.low < between.high - between.low }
{
    if ranks_below(rows, effort, probe) {
        Between {
            low: probe + 1,
            high: between.high,
        }
    } else {
        Between {
            low: between.low,
            high: probe,
        }
    }
}

// The temperature in the middle of what is not known.
fn middle(between: Between) -> u128
    requires ordered { between.low ≤ between.high }
    requires top { between.high ≤ 2 ^ 64 }
    ensures { between.low < between.high → (between.low ≤ result) × (result < between.high) }
{
    between.low + (between.high - between.low) / 2
}

// The limit below which temperatures are cold. The first probe is the greatest temperature, so that
// the others stay within those that occur.
pub(crate) fn cold_limit(rows: &[Row], effort: u64) -> u128
    requires { 0 < length rows.now }
    ensures { IsColdLimit rows.now effort result }
{
    let mut between = Between { low: 0, high: TOP };
    let mut probe = u128::from(warmest(rows));
    while between.low < between.high {
        between = narrowed(rows, effort, between, probe);
        probe = middle(between);
    }
    between.low
}
