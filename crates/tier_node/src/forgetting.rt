//! A message or a reply is lost.
ghost use Rattle.tier_node.specs.Runs.{IsRun};
ghost use Rattle.tier_node.specs.Steps.{Forgets, ForgetsReply};

use crate::Outcome;
use store_face::Store;
use tier_core::Group;

/// Loses a message.
pub(crate) fn forget<P: Store>(g: &mut Group<P>, message: u64) -> Outcome
    ensures steps { Forgets message g.old g.new result }
    ensures run { IsRun g.old g.new }
{
    if g.message(message).is_none() {
        return Outcome::Nothing;
    }
    g.forget_message(message);
    Outcome::Set
}

/// Loses a reply.
pub(crate) fn forget_reply<P: Store>(g: &mut Group<P>, reply: u64) -> Outcome
    ensures steps { ForgetsReply reply g.old g.new result }
    ensures run { IsRun g.old g.new }
{
    if g.reply(reply).is_none() {
        return Outcome::Nothing;
    }
    g.forget_reply(reply);
    Outcome::Set
}
