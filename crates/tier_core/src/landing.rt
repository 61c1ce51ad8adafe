//! The base told what became of a proxied write.
ghost use Rattle.std.specs.Prelude.{◌≡◌, None, IfOk, OnErr, OnOk};
ghost use Rattle.tier_core.specs.Lands.{HearsWrite};
ghost use Rattle.tier_view.specs.Answers.{KeepsQuietly};

use crate::Group;
use crate::lands::{land_told, told_of};
use obj_model::NoMemory;
use store_face::Store;

/// What a reply to a proxied write came to.
#[derive(Clone, Copy, Debug, PartialEq, Eq)]
pub enum Landing {
    /// It landed, and this call, whose request it is, was answered and is over.
    Answered { call: u64 },
    /// It landed, and this call, which had taken it over, goes on with its own request.
    GoesOn { call: u64 },
    /// The reply is of no write request under way that a call drives, and nothing has changed.
    Nothing,
}

impl<P: Store> Group<P> {
    /// Takes the reply of this number, if it tells of a write request under way that a call drives:
    /// the work is gone, with the reply. Its owner, where it drives it, is answered by its own act
    /// where the request acted just now, else by what the base told at the present number of acts,
    /// and is over. Any other call that drives it goes on. Without memory nothing changes.
    ///
    /// The own act is looked for from the last act back, which costs a step for each act that came
    /// since.
    pub fn land_write(&mut self, reply: u64) -> Result<Landing, NoMemory>
        requires settled { self.old.stores.pending ≡ None }
        ensures lands { IfOk result (HearsWrite reply self.old self.new) }
        ensures step { OnOk result (KeepsQuietly self.old self.new) }
        ensures refused { OnErr result (self.new ≡ self.old) }
    {
        let Group {
            history,
            calls,
            wires,
            start,
            ..
        } = self;
        history.reserve(1)?;
        let told = told_of(wires, start.cache_epoch, reply)?;
        Ok(land_told(history, calls, wires, reply, told))
    }
}
