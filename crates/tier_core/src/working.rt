//! What work stands, and which calls began nothing.
ghost use Rattle.std.specs.FinMap as fin;
ghost use Rattle.std.specs.Option.{option_copied};
ghost use Rattle.std.specs.Prelude.{◌≡◌, ◌↔◌, IsTrue};
ghost use Rattle.tier_core.specs.Blocks.{IsFresh};

use crate::Group;
use crate::blocking::is_fresh;
use obj_model::Name;
use store_face::Store;
use tier_flight::Flight;

impl<P: Store> Group<P> {
    /// The work on a name, if there is any.
    pub fn work_on(&self, name: &Name) -> Option<&Flight>
        ensures { option_copied result ≡ fin.get self.now.traffic.flights name.now }
    {
        self.wires.flights().get(name)
    }

    /// Whether a call began nothing yet: no work waits for it, and no message is its own; it has no
    /// act, and was answered nothing but faults. The messages are gone through.
    pub fn is_fresh(&self, call: u64) -> bool
        ensures { IsTrue result ↔ IsFresh self.now.log self.now.traffic call }
    {
        is_fresh(&self.history, &self.wires, call)
    }
}
