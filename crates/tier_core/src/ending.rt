//! A call ends, with an answer or without one.
ghost use Rattle.std.specs.Prelude.{◌≡◌, true, None, Some, OnErr, OnOk};
ghost use Rattle.tier_chron.specs.Laws.{MayLog};
ghost use Rattle.tier_chron.specs.Shapes.{is_fault};
ghost use Rattle.tier_core.specs.Ends.{IsEnded, MayAnswer};
ghost use Rattle.tier_view.specs.Answered.{HasFaultCause};
ghost use Rattle.tier_view.specs.Answers.{KeepsQuietly};
ghost use Rattle.tier_view.specs.Views.{calls_in};

use crate::Group;
use crate::ends::end_parts;
use obj_model::NoMemory;
use store_face::Store;
use tier_chron::Logged;

impl<P: Store> Group<P> {
    /// Ends a call with an answer that may be logged and tells the truth. It may come at any moment,
    /// in a doubt too. Without memory nothing changes.
    pub fn answer_call(&mut self, logged: Logged) -> Result<(), NoMemory>
        requires { MayAnswer self.old logged }
        ensures ended { OnOk result (IsEnded logged.call (Some logged) self.old self.new) }
        ensures step { OnOk result (KeepsQuietly self.old self.new) }
        ensures refused { OnErr result (self.new ≡ self.old) }
    {
        let Group {
            history,
            calls,
            wires,
            ..
        } = self;
        history.reserve(1)?;
        end_parts(history, calls, wires, logged.call, Some(logged));
        Ok(())
    }

    /// Ends a call with a fault, which says nothing of objects. Without memory nothing changes.
    pub fn fail_call(&mut self, logged: Logged) -> Result<(), NoMemory>
        requires may { MayLog (calls_in self.old.calls.entries) self.old.log logged }
        requires fault { is_fault logged.answer ≡ true }
        requires cause { HasFaultCause self.old logged logged.answer }
        ensures ended { OnOk result (IsEnded logged.call (Some logged) self.old self.new) }
        ensures step { OnOk result (KeepsQuietly self.old self.new) }
        ensures refused { OnErr result (self.new ≡ self.old) }
    {
        // What always holds is a fact that a field brings along.
        let _calls = &self.calls;
        self.answer_call(logged)
    }

    /// Ends a call without an answer. It takes no memory.
    pub fn drop_call(&mut self, call: u64)
        ensures ended { IsEnded call None self.old self.new }
        ensures step { KeepsQuietly self.old self.new }
    {
        let Group {
            history,
            calls,
            wires,
            ..
        } = self;
        end_parts(history, calls, wires, call, None);
    }
}
