//! Whether a reply to work would change anything, where the group is ready.
ghost use Rattle.std.specs.Prelude.{◌↔◌, IsTrue};
ghost use Rattle.tier_core.specs.Lacks.{IsLackedOf};
ghost use Rattle.tier_core.specs.Lands.{IsToldOf};

use crate::Group;
use crate::lacks::{driven_by, lacking};
use crate::lands::wrote_in;
use store_face::Store;
use tier_calls::CallTable;
use tier_chron::History;
use tier_traffic::Wires;

// Whether the reply of this number tells of a write request under way that a call drives.
fn is_told_of(wires: &Wires, epoch: u64, number: u64) -> bool
    ensures { IsTrue result ↔ IsToldOf wires.now.traffic epoch number }
{
    match wrote_in(epoch, wires.reply_of(number)) {
        None => false,
        Some(wrote) => {
            let flights = wires.flights();
            driven_by(flights, wrote.opid, flights.by_opid(wrote.opid)).is_some()
        }
    }
}

// Whether it tells of want of room for one that a client's call drives.
fn is_lacked_of(
    history: &History,
    calls: &CallTable,
    wires: &Wires,
    epoch: u64,
    number: u64,
) -> bool
    ensures { IsTrue result ↔ IsLackedOf history.now.log calls.now.calls.entries wires.now.traffic
        epoch number }
{
    lacking(history, calls, wires, epoch, number).is_some()
}

impl<P: Store> Group<P> {
    /// Whether the reply of this number tells what became of a write request under way that a call
    /// drives. It is for `land_write` then.
    pub fn tells_landing(&self, reply: u64) -> bool
        ensures { IsTrue result ↔ IsToldOf self.now.traffic self.now.standing.cache_epoch reply }
    {
        is_told_of(&self.wires, self.start.cache_epoch, reply)
    }

    /// Whether it tells of want of room for one that a client's call drives. It is for
    /// `lack_write` then.
    pub fn tells_lack(&self, reply: u64) -> bool
        ensures { IsTrue result ↔ IsLackedOf self.now.log self.now.calls.entries self.now.traffic
            self.now.standing.cache_epoch reply }
    {
        let epoch = self.start.cache_epoch;
        is_lacked_of(&self.history, &self.calls, &self.wires, epoch, reply)
    }
}
