//! A reading is answered from a record of the cache.
ghost use Rattle.std.specs.Prelude.{◌≡◌, false, None, Some, OnErr, OnOk};
ghost use Rattle.std.specs.List.{list_any};
ghost use Rattle.obj_model.specs.SubOps.{is_write};
ghost use Rattle.tier_core.specs.Ends.{IsEnded};
ghost use Rattle.tier_core.specs.Turns.{IsTurn, looked_here};
ghost use Rattle.tier_chron.specs.declared.asked.Asked.TheVariants.{Read};
ghost use Rattle.tier_join.specs.Steps.{HasRec};
ghost use Rattle.tier_view.specs.Answered.{looked_answer};
ghost use Rattle.tier_view.specs.Answers.{KeepsQuietly};
ghost use Rattle.tier_view.specs.Views.{joined};

use crate::{Group, Turn};
use obj_model::{Name, NoMemory, Path, Vector};
use obj_ops::{Looked, look};
use store_face::Store;
use tier_chron::{Answer, Logged};
use tier_types::TierRec;

// What a reading is told, which is never kept.
fn looked_answer(looked: Looked) -> Answer
    ensures { result ≡ looked_answer looked }
{
    match looked {
        Looked::Values { ver, outs } => Answer::Values { ver, outs },
        Looked::Refused { at, why, ver } => Answer::Refused {
            at,
            why,
            ver,
            kept: false,
        },
    }
}

impl<P: Store> Group<P> {
    /// Answers a reading in flight from the record that was read of its name, at the present number
    /// of acts, and ends it. Without memory nothing changes.
    pub fn look_here(
        &mut self,
        turn: Turn,
        client: u16,
        name: &Name,
        vector: &Vector,
        held: &TierRec,
    ) -> Result<(), NoMemory>
        requires settled { self.old.stores.pending ≡ None }
        requires turn { IsTurn self.old turn (Read client name.now vector.now) }
        requires has { HasRec (joined self.old) name.now (Some held.now) }
        requires reads { list_any is_write vector.now ≡ false }
        ensures ended { OnOk result (IsEnded turn.call
            (Some (looked_here turn self.old.log held.now.state vector.now)) self.old self.new) }
        ensures step { OnOk result (KeepsQuietly self.old self.new) }
        ensures refused { OnErr result (self.new ≡ self.old) }
    {
        let looked = look(self.alloc, &held.state, vector)?;
        let acts = self.history.acts().len() as u64;
        self.answer_call(Logged {
            call: turn.call,
            line: turn.line,
            begin: turn.begin,
            place: acts,
            end: acts,
            path: Some(Path::Hit),
            answer: looked_answer(looked),
        })
    }
}
