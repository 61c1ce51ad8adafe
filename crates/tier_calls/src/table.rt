//! The table of calls.
ghost use Rattle.std.specs.Prelude.{◌≡◌, ◌≤◌, ◌+◌, ◌-◌, false, [], length, map, max, IfOk, OnErr, OnOk};
ghost use Rattle.std.specs.List.{AllByRecursion};
ghost use Rattle.std.specs.Option.{option_copied};
ghost use Rattle.tier_view.specs.Calls.{entry_of};
ghost use Rattle.tier_view.specs.Changes.{adopted_in, ended_in, gone_in, with_flown};
ghost use Rattle.tier_view.specs.Steps.{with_call};
ghost use Rattle.tier_view.specs.Stops.{gone_at};
ghost use Rattle.tier_calls.specs.Going.{going_in};
ghost use Rattle.tier_calls.specs.Turns.{HasGone, IsTheOne};

use crate::calls::{adopt, end, place_of};
use crate::work::{go_all, go_at, standing_at};
use obj_model::NoMemory;
use std::alloc::Global;
use std::marker::Model;
use tier_chron::Asked;
use tier_view::{Entry, Flown};

/// The calls of a group, in their order, and the work that they began. Both tables only grow.
///
/// Contracts see it as these tables with the last call's number. Beside them they see for how many
/// new entries of work there is memory (`spare`), and how many entries of work are of earlier
/// epochs (`earlier`). How many calls are in flight and have a line is counted as they come and go.
#[derive(Drop)]
pub struct CallTable {
    entries: Vec<Entry>,
    going: u64,
    flown: Vec<Flown>,
    room: u64,
    first: u64,
}

impl Model for CallTable {
    ghost use Rattle.std.specs.Prelude.{◌≡◌, ◌≤◌, ◌+◌, vec_len, vec_capacity};
    ghost use Rattle.tier_calls.specs.Going.{going_in};
    ghost use Rattle.tier_calls.specs.Tables.{TableView, coded_table};
    ghost use Rattle.tier_calls.specs.Turns.{AreByEpoch, AreInTurn};

    ghost Value = { TableView };

    ghost coded = { coded_table };

    ghost view = { λ t. record {
      calls = record { entries = t.entries.items; last = vec_len t.entries; flown = t.flown.items };
      spare = t.room;
      earlier = t.first;
    } };

    ghost invariant = { λ t. AreInTurn (λ e. e.number) 1 t.entries.items
        × AreByEpoch t.first t.flown.items
        × (vec_len t.flown + t.room ≤ vec_capacity t.flown)
        × (t.going ≡ going_in t.entries.items) };
}

impl CallTable {
    /// No call and no work, and no memory for work.
    pub fn new(alloc: Global) -> CallTable
        ensures { result ≡ record {
          calls = record { entries = []; last = 0; flown = [] };
          spare = 0;
          earlier = 0;
        } }
    {
        CallTable {
            entries: Vec::new(alloc),
            going: 0,
            flown: Vec::new(alloc),
            room: 0,
            first: 0,
        }
    }

    /// The last call's number, which is how many calls there are.
    pub fn last(&self) -> u64
        ensures number { result ≡ self.now.calls.last }
        ensures count { result ≡ length self.now.calls.entries }
    {
        self.entries.len() as u64
    }

    /// How many calls are in flight and have a line. It is a running count.
    pub fn going(&self) -> u64
        ensures { result ≡ going_in self.now.calls.entries }
    {
        self.going
    }

    /// The entry of a call, if there is one of this number.
    pub fn get(&self, number: u64) -> Option<&Entry>
        ensures { option_copied result ≡ entry_of self.now.calls.entries number }
    {
        match place_of(number, self.entries.len()) {
            Some(place) => Some(&self.entries[place]),
            None => None,
        }
    }

    /// Enters a call under the next number, which it answers. Without memory nothing changes.
    pub fn enter(
        &mut self,
        line: Option<u32>,
        asked: Asked,
        epoch: u64,
        begin: u64,
    ) -> Result<u64, NoMemory>
        ensures number { IfOk result (λ number. number ≡ self.old.calls.last + 1) }
        ensures entered { OnOk result (self.new ≡ record self.old {
          calls = with_call (record {
            number = self.old.calls.last + 1;
            line = line;
            asked = asked;
            epoch = epoch;
            begin = begin;
            adopted = false;
            ended = false;
          }) self.old.calls;
        }) }
        ensures refused { OnErr result (self.new ≡ self.old) }
    {
        let number = self.entries.len() as u64 + 1;
        let going = self.going + line.is_some() as u64;
        self.entries.push(Entry {
            number,
            line,
            asked,
            epoch,
            begin,
            adopted: false,
            ended: false,
        })?;
        self.going = going;
        Ok(number)
    }

    /// The call of this number is over. Where there is none, nothing changes.
    pub fn end(&mut self, number: u64)
        ensures { self.new ≡ record self.old {
          calls = record self.old.calls { entries = ended_in number self.old.calls.entries };
        } }
    {
        self.going -= end(&mut self.entries, number) as u64;
    }

    /// The call of this number has taken over a write request that was left. Where there is none,
    /// nothing changes.
    pub fn adopt(&mut self, number: u64)
        ensures { self.new ≡ record self.old {
          calls = record self.old.calls { entries = adopted_in number self.old.calls.entries };
        } }
    {
        adopt(&mut self.entries, number);
    }

    /// The work of this operation, where it has not gone. It is found by its number.
    pub fn standing(&self, opid: u64) -> Option<&Flown>
        ensures { IsTheOne opid self.now.calls.flown (option_copied result) }
    {
        standing_at(self.flown.as_slice(), self.first, opid)
    }

    /// Takes memory for so many new entries of work. Without it nothing changes.
    pub fn reserve_work(&mut self, entries: u64) -> Result<(), NoMemory>
        ensures ok { OnOk result (self.new ≡ record self.old {
          spare = max self.old.spare entries;
        }) }
        ensures err { OnErr result (self.new ≡ self.old) }
    {
        if self.room < entries {
            self.flown.reserve(entries as usize)?;
            self.room = entries;
        }
        Ok(())
    }

    /// Enters work, which is the next operation of its epoch. It takes no memory.
    pub fn work_comes(&mut self, flown: Flown)
        requires room { 1 ≤ self.old.spare }
        requires next { flown.opid + self.old.earlier ≡ length self.old.calls.flown + 1 }
        ensures { self.new ≡ record self.old {
          calls = with_flown flown self.old.calls;
          spare = self.old.spare - 1;
        } }
    {
        self.room -= 1;
        self.flown.push_reserved(flown);
    }

    /// The work of this operation goes at this number of answers, where it has not gone. It is
    /// found by its number. It takes no memory.
    pub fn work_goes(&mut self, opid: u64, now: u64)
        ensures { self.new ≡ record self.old {
          calls = record self.old.calls { flown = gone_in now opid self.old.calls.flown };
        } }
    {
        go_at(&mut self.flown, self.first, opid, now);
    }

    /// All work that has not gone goes at this number of answers. The time is that of the work of
    /// the present epoch.
    pub fn all_go(&mut self, now: u64)
        ensures all { self.new ≡ record self.old {
          calls = record self.old.calls { flown = map (gone_at now) self.old.calls.flown };
        } }
        ensures gone { AllByRecursion HasGone self.new.calls.flown }
    {
        go_all(&mut self.flown, self.first, now);
    }

    /// A new epoch begins, in which operations have the numbers 1, 2, 3 .. anew. All work has gone.
    pub fn new_epoch(&mut self)
        requires { AllByRecursion HasGone self.old.calls.flown }
        ensures { self.new ≡ record self.old { earlier = length self.old.calls.flown } }
    {
        self.first = self.flown.len() as u64;
    }
}
