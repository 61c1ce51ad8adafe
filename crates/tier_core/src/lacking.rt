//! The base told of want of room for a proxied write.
ghost use Rattle.std.specs.Prelude.{◌≡◌, IfOk, OnErr, OnOk};
ghost use Rattle.tier_core.specs.Lacks.{LacksWrite};
ghost use Rattle.tier_view.specs.Answers.{KeepsQuietly};

use crate::Group;
use crate::lacks::{lack, lacking};
use obj_model::NoMemory;
use store_face::Store;

impl<P: Store> Group<P> {
    /// Takes the reply of this number, if it tells of want of room for a write request under way
    /// that a client's call drives: that call, which it answers, is answered so and is over, its
    /// request is left, and the reply is forgotten. Else, and without memory, nothing changes.
    pub fn lack_write(&mut self, reply: u64) -> Result<Option<u64>, NoMemory>
        ensures lacks { IfOk result (LacksWrite reply self.old self.new) }
        ensures step { OnOk result (KeepsQuietly self.old self.new) }
        ensures refused { OnErr result (self.new ≡ self.old) }
    {
        let Group {
            history,
            calls,
            wires,
            start,
            ..
        } = self;
        history.reserve(1)?;
        let logged = lacking(history, calls, wires, start.cache_epoch, reply);
        Ok(lack(history, calls, wires, reply, logged))
    }
}
