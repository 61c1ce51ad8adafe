//! When the calls of a disk in memory fail.
ghost use Rattle.std.specs.Prelude.{◌≡◌};
ghost use Rattle.mem_disk.specs.Memory.{counted, restart_turn, restarted, torn_where, turn_at, turn_of};

use std::marker::Model;

/// What a call does.
#[derive(Clone, Copy, Debug, PartialEq, Eq)]
pub enum Turn {
    /// It works.
    Works,
    /// It fails, and a write or a cut does half of its work.
    Torn,
    /// It fails and does nothing: the disk has stopped.
    Off,
}

/// The calls so far, counted from 1, and which of them fail.
#[derive(Drop)]
pub struct Plan {
    calls: u64,
    fails: Vec<u64>,
    stop_at: Option<u64>,
}

impl Model for Plan {
    ghost use Rattle.mem_disk.specs.Memory.{Schedule};

    ghost Value = { Schedule };

    ghost view = { λ p. record { calls = p.calls; fails = p.fails.items; stop = p.stop_at } };
}

impl Plan {
    pub fn new(fails: Vec<u64>, stop_at: Option<u64>) -> Plan
        ensures { result ≡ record { calls = 0; fails = fails.items; stop = stop_at } }
    {
        Plan {
            calls: 0,
            fails,
            stop_at,
        }
    }

    /// Counts the next call, which is no restart.
    pub fn turn(&mut self) -> Turn
        ensures counted { self.new ≡ counted self.old }
        ensures turn { result ≡ turn_of self.old }
    {
        self.calls = self.calls.saturating_add(1);
        turn_at(self.stop_at, self.calls, self.fails.contains(&self.calls))
    }

    /// Counts the next call, which is a restart.
    pub fn restart_turn(&mut self) -> Turn
        ensures counted { self.new ≡ counted self.old }
        ensures turn { result ≡ restart_turn self.old }
    {
        self.calls = self.calls.saturating_add(1);
        torn_where(self.fails.contains(&self.calls))
    }

    /// A restart was done, which ends a stop that has begun.
    pub fn end_stop(&mut self)
        ensures { self.new ≡ restarted self.old }
    {
        if let Some(first) = self.stop_at {
            if first <= self.calls {
                self.stop_at = None;
            }
        }
    }
}

fn turn_at(stop_at: Option<u64>, call: u64, listed: bool) -> Turn
    ensures { result ≡ turn_at stop_at call listed }
{
    match stop_at {
        Some(first) if first < call => Turn::Off,
        Some(first) => torn_where(first == call || listed),
        None => torn_where(listed),
    }
}

fn torn_where(listed: bool) -> Turn
    ensures { result ≡ torn_where listed }
{
    if listed { Turn::Torn } else { Turn::Works }
}
