//! What a group tells of its calls, of its work, and of what the agent goes by.
ghost use Rattle.std.specs.Option.{option_copied};
ghost use Rattle.std.specs.Prelude.{◌≡◌};
ghost use Rattle.tier_traffic.specs.Waits.{awaited_of, begun_of, noted_of};
ghost use Rattle.tier_view.specs.Calls.{entry_of};

use crate::Group;
use agent_state::{Modes, Share, Totals};
use obj_model::{Mode, Name, PoolValues};
use store_face::Store;
use tier_traffic::BegunAt;
use tier_view::{Entry, Noted};

impl<P: Store> Group<P> {
    /// The call of this number, as it was entered and as it stands, if there was one. What it asked
    /// is told also when it is over.
    pub fn call(&self, number: u64) -> Option<&Entry>
        ensures { option_copied result ≡ entry_of self.now.calls.entries number }
    {
        self.calls.get(number)
    }

    /// The message whose reply a call awaits, if it awaits one.
    pub fn awaited(&self, call: u64) -> Option<u64>
        ensures { result ≡ awaited_of self.now.traffic.awaited call }
    {
        self.wires.awaited(call)
    }

    /// How far a call's drain has come, if it noted that.
    pub fn noted(&self, call: u64) -> Option<&Noted>
        ensures { option_copied result ≡ noted_of self.now.traffic.noted call }
    {
        self.wires.noted(call)
    }

    /// When the flush of a name was begun alone, if one was and no call finished it.
    pub fn begun(&self, name: &Name) -> Option<BegunAt>
        ensures { result ≡ begun_of self.now.traffic.begun name.now }
    {
        self.wires.begun(name)
    }

    /// The number that the next operation between the pools takes, from 1 in each epoch.
    pub fn next_opid(&self) -> u64
        ensures { result ≡ self.now.standing.next_opid }
    {
        self.start.next_opid
    }

    /// The mode of the cache.
    pub fn mode(&self) -> Mode
        ensures { result ≡ self.now.agent.mode }
    {
        self.agent.mode
    }

    /// What the agent does, with the two ratios that it follows from.
    pub fn modes(&self) -> &Modes
        ensures { result.now ≡ self.now.agent.modes }
    {
        &self.agent.modes
    }

    /// The pool's values, which never change.
    pub fn values(&self) -> &PoolValues
        ensures { result.now ≡ self.now.agent.values }
    {
        &self.agent.values
    }

    /// The group's share of the pool's targets, which never changes.
    pub fn share(&self) -> &Share
        ensures { result.now ≡ self.now.agent.share }
    {
        &self.agent.share
    }

    /// The present moment, in seconds.
    pub fn moment(&self) -> u64
        ensures { result ≡ self.now.agent.moment }
    {
        self.agent.moment
    }

    /// The sums over the cache's records: how many there are, how many of them are dirty, and the
    /// bytes of all bodies.
    pub fn totals(&self) -> &Totals
        ensures { result.now ≡ self.now.agent.totals }
    {
        &self.agent.totals
    }
}
