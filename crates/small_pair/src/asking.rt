//! Write requests that go to the base, and calls that end before they are answered.
ghost use Rattle.std.specs.Prelude.{◌≡◌, false, true};
ghost use Rattle.tier_protocol.specs.Moves.{Loses, MayBegin};
ghost use Rattle.tier_protocol.specs.Tiers.{BaseMsg, cell_of};
ghost use Rattle.tier_types.specs.Flights.{is_write};
ghost use Rattle.tier_types.specs.declared.phase.Phase.{Phase};
ghost use Rattle.small_pair.specs.Steps.{BeginsWrite};
ghost use Rattle.std.specs.Prelude.{IfOk, None};

use crate::SmallPair;
use obj_model::{Name, NoMemory, Req};
use tier_types::{BaseMsg, Flight};

impl SmallPair {
    /// Sends a write request of a call to the base, where the cache is up and neither a record nor
    /// other work stands in the way, and says whether it did. Without memory nothing changes.
    pub fn begin_write(&mut self, call: u64, req: &Req) -> Result<bool, NoMemory>
        ensures { BeginsWrite call req.now self.old result self.new }
    {
        if !self.may_write(&req.name) || self.next_opid == u64::MAX {
            return Ok(false);
        }
        let opid = self.next_opid;
        let message = write_message(self.cache_epoch, opid, req)?;
        let flight = Flight::Write {
            driver: Some(call),
            owner: call,
            opid,
            req: req.copy()?,
        };
        self.wire.reserve(1)?;
        self.flights.insert(req.name.copy()?, flight)?;
        self.next_opid = opid + 1;
        self.wire.push_reserved(message);
        Ok(true)
    }

    // Whether a write request may go to the base: there is neither a record nor work.
    fn may_write(&self, name: &Name) -> bool
        ensures up { result ≡ true → self.now.net.phase ≡ Phase.Up }
        ensures free { result ≡ true → (cell_of self.now name.now).flight ≡ None }
        ensures bare { result ≡ true → (cell_of self.now name.now).rec ≡ None }
    {
        self.is_up() && self.flights.get(name).is_none() && self.recs.get(name).is_none()
    }

    /// Drops the work on a name whose call has ended. A write request stays with the base: it may
    /// act yet.
    pub fn drop_work(&mut self, name: &Name)
        ensures { Loses self.old self.new }
    {
        if self.is_writing(name) {
            return;
        }
        self.flights.remove(name);
    }

    // Whether a write request is with the base.
    fn is_writing(&self, name: &Name) -> bool
        ensures { result ≡ is_write (cell_of self.now name.now).flight }
    {
        matches!(self.flights.get(name), Some(Flight::Write { .. }))
    }
}

// The message that brings a write request to the base.
fn write_message(epoch: u64, opid: u64, req: &Req) -> Result<BaseMsg, NoMemory>
    ensures { IfOk result (λ m. m ≡ BaseMsg.Write epoch opid req.now) }
{
    let number = opid;
    Ok(BaseMsg::Write {
        epoch,
        opid: number,
        req: req.copy()?,
    })
}
