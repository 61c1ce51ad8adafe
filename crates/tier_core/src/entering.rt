//! A call is entered.
ghost use Rattle.std.specs.Prelude.{◌≡◌, ◌+◌, None, Some, true, IfOk, OnErr, OnOk};
ghost use Rattle.tier_core.specs.Keeps.{MayBeAsked};
ghost use Rattle.tier_core.specs.Steps.{IsStep};
ghost use Rattle.tier_view.specs.Steps.{opened_call};
ghost use Rattle.tier_view.specs.Tables.{goes_without};

use crate::Group;
use obj_model::NoMemory;
use store_face::Store;
use tier_chron::Asked;

impl<P: Store> Group<P> {
    /// Enters a call under the next number, which it answers: with this line, at the present epoch
    /// and number of acts. It may come at any moment, in a doubt too. Only what is no request of a
    /// client goes without a line. Without memory nothing changes.
    pub fn enter_call(&mut self, line: Option<u32>, asked: Asked) -> Result<u64, NoMemory>
        requires lined { line ≡ None → goes_without asked ≡ true }
        requires lawful { MayBeAsked asked }
        ensures number { IfOk result (λ number. number ≡ self.old.calls.last + 1) }
        ensures entered { OnOk result (self.new ≡ opened_call line asked self.old) }
        ensures step { OnOk result
            (IsStep (Some (record { line = line; asked = asked })) self.old self.new) }
        ensures refused { OnErr result (self.new ≡ self.old) }
    {
        let begin = self.history.acts().len() as u64;
        self.calls.enter(line, asked, self.start.cache_epoch, begin)
    }
}
