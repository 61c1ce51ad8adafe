//! The base is read.
ghost use Rattle.std.specs.Prelude.{◌≡◌, true, None, IfOk};
ghost use Rattle.obj_model.specs.States.{IsState};
ghost use Rattle.tier_core.specs.Reads.{ReadsThere};
ghost use Rattle.tier_join.specs.Promises.{as_it_is};
ghost use Rattle.tier_join.specs.Steps.{HasState};
ghost use Rattle.tier_view.specs.Laws.{Keeps};
ghost use Rattle.tier_view.specs.Views.{joined};

use crate::Group;
use base_pool::BaseFault;
use obj_model::{Name, NameState};
use store_face::Store;

impl<P: Store> Group<P> {
    /// The state that the base has of a name, which is the unknown one where it has none. A reading
    /// changes nothing of the group but the base's store, which is not live any more where its disk
    /// failed.
    pub fn read_there(&mut self, name: &Name) -> Result<NameState, BaseFault>
        requires live { self.old.stores.base.live ≡ true }
        requires settled { self.old.stores.pending ≡ None }
        ensures read { ReadsThere name.now self.old self.new result }
        ensures found { IfOk result (λ s. HasState (joined self.new) name.now s) }
        ensures lawful { IfOk result IsState }
        ensures step { Keeps as_it_is None self.old self.new }
    {
        self.base.state(self.alloc, name)
    }
}
