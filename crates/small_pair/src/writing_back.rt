//! Records that are written back to the base, and taken out of the cache.
ghost use Rattle.std.specs.Prelude.{◌≡◌, true, false, IfSome, OnOk, OnErr, Some};
ghost use Rattle.std.specs.Option.{option_copied};
ghost use Rattle.tier_protocol.specs.Moves.{MayEvict};
ghost use Rattle.obj_ops.specs.Stores.{state_of};
ghost use Rattle.small_pair.specs.Steps.{Cleans, Delivers, EndsFlush, Evicts, IsInstalledBy, installed};

use crate::SmallPair;
use obj_model::{Name, NameMap, NameState, NoMemory};
use tier_types::{BaseMsg, BaseReply, Flight, TierRec};

impl SmallPair {
    /// The base takes an Install that is on the wire, or leaves it, and tells that it is installed;
    /// the message stays on the wire. Where there is no Install of the base's epoch at this place,
    /// or no memory, nothing changes.
    pub fn deliver_install(&mut self, at: usize) -> Result<bool, NoMemory>
        ensures { Delivers self.old result self.new }
    {
        let Some(
            BaseMsg::Install {
                epoch,
                opid,
                name,
                state,
            },
        ) = self.wire.get(at)
        else {
            return Ok(false);
        };
        if !is_served(self.base_epoch, *epoch) {
            return Ok(false);
        }
        self.replies.reserve(1)?;
        let reply = BaseReply::Installed {
            epoch: *epoch,
            opid: *opid,
            seq: state.seq,
        };
        install(&mut self.base, name, state)?;
        self.replies.push_reserved(reply);
        Ok(true)
    }

    /// Takes a clean record of a name without work out of the cache, and says whether it did.
    pub fn evict(&mut self, name: &Name) -> bool
        ensures { Evicts name.now self.old result self.new }
    {
        if !self.may_evict(name) {
            return false;
        }
        self.recs.remove(name);
        true
    }

    // Whether the name's record is clean, if it has one, and nothing is under way on it.
    fn may_evict(&self, name: &Name) -> bool
        ensures { result ≡ true → MayEvict self.now name.now }
    {
        self.is_up() && self.flights.get(name).is_none() && !self.is_dirty(name)
    }

    /// Ends a name's flush by the reply at this place, and says whether it did: the record is
    /// clean, if no request acted on it since the flush began. Without memory nothing changes.
    pub fn finish(&mut self, name: &Name, at: usize) -> Result<bool, NoMemory>
        ensures { Cleans name.now self.old result self.new }
    {
        let Some(rec) = self.finished(name, at) else {
            return Ok(false);
        };
        let clean = TierRec {
            state: rec.state.copy()?,
            dirty: false,
            mtime: rec.mtime,
        };
        let Ok(_) = self.recs.swap(name, clean) else {
            return Ok(false);
        };
        self.flights.remove(name);
        Ok(true)
    }

    // The record that a name's flush may mark clean by the reply at this place.
    #[tactic(auto, using(crate::proofs::Lists::is_in))]
    fn finished(&self, name: &Name, at: usize) -> Option<&TierRec>
        ensures { IfSome (option_copied result) (EndsFlush name.now self.now) }
    {
        let Some(Flight::Flush { opid, seq, .. }) = self.flights.get(name) else {
            return None;
        };
        if !self.is_installed(at, *opid) {
            return None;
        }
        match self.recs.get(name) {
            Some(rec) if rec.state.seq == *seq => Some(rec),
            _ => None,
        }
    }

    // Whether the reply at this place tells that what this operation sent is installed.
    #[tactic(auto, using(crate::proofs::Lists::is_in))]
    fn is_installed(&self, at: usize, opid: u64) -> bool
        ensures { result ≡ true → IsInstalledBy opid self.now.net }
    {
        match self.replies.get(at) {
            Some(
                BaseReply::Installed {
                    epoch,
                    opid: told,
                    ..
                },
            ) => *epoch == self.cache_epoch && *told == opid,
            _ => false,
        }
    }
}

// Whether a base of this epoch serves messages of that one.
fn is_served(have: u64, epoch: u64) -> bool
    ensures { result ≡ true → epoch ≡ have }
{
    epoch == have
}

// Gives a name a state in the base, where it is a later one.
fn install(base: &mut NameMap<NameState>, name: &Name, state: &NameState) -> Result<(), NoMemory>
    ensures taken { OnOk result (base.new ≡ installed name.now state.now base.old) }
    ensures refused { OnErr result (base.new ≡ base.old) }
{
    if seq_of(base, name) < state.seq {
        base.insert(name.copy()?, state.copy()?)?;
    }
    Ok(())
}

// The number of requests that acted on a name, as its pool has it.
fn seq_of(base: &NameMap<NameState>, name: &Name) -> u64
    ensures { result ≡ (state_of base.now name.now).seq }
{
    match base.get(name) {
        None => 0,
        Some(state) => state.seq,
    }
}
