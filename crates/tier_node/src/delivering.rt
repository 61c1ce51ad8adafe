//! A message reaches the base.
ghost use Rattle.std.specs.Prelude.{◌≡◌, ◌↔◌, IsTrue};
ghost use Rattle.tier_node.specs.Runs.{IsRun};
ghost use Rattle.tier_node.specs.Steps.{AreLive, Delivers, HandsFence, HandsOver, told_delivered};

use crate::keeping::{fail_kept, is_own_fence};
use crate::{Fault, Outcome};
use base_pool::BaseFault;
use store_face::{Store, StoreFault};
use tier_core::{Delivered, Group};

// Whether both stores of a group are live, run, and have no commit in doubt.
fn are_live<P: Store>(g: &Group<P>) -> bool
    ensures { IsTrue result ↔ AreLive g.now.stores }
{
    let live = g.is_cache_live() && g.is_base_live();
    let runs = !g.is_cache_stopped() && !g.is_base_stopped();
    live && runs && !g.has_doubt()
}

// What is told of a message that was delivered.
fn told_delivered(delivered: Delivered) -> Outcome
    ensures { result ≡ told_delivered delivered }
{
    match delivered {
        Delivered::Carried(reply) => Outcome::Carried { reply },
        Delivered::Void => Outcome::Failed(Fault::Void),
        Delivered::NoMemory => Outcome::NoMemory,
        Delivered::Failed(BaseFault::Store(StoreFault::NoMemory)) => Outcome::NoMemory,
        Delivered::Failed(fault) => Outcome::Failed(Fault::Base(fault)),
        Delivered::Nothing => Outcome::Nothing,
    }
}

// Hands a Fence of the cache's epoch to the base. Those whom it keeps are told that it failed.
fn deliver_fence<P: Store>(g: &mut Group<P>, message: u64) -> Outcome
    requires { AreLive g.old.stores }
    ensures steps { HandsFence message g.old g.new result }
    ensures run { IsRun g.old g.new }
{
    g.rest();
    match g.deliver(message) {
        Delivered::Failed(fault) => fail_kept(g, fault),
        Delivered::Carried(reply) => Outcome::Carried { reply },
        Delivered::Void => Outcome::Failed(Fault::Void),
        Delivered::NoMemory => Outcome::NoMemory,
        Delivered::Nothing => Outcome::Nothing,
    }
}

// Hands any other message to the base.
fn hand_over<P: Store>(g: &mut Group<P>, message: u64) -> Outcome
    requires { AreLive g.old.stores }
    ensures steps { HandsOver message g.old g.new result }
    ensures run { IsRun g.old g.new }
{
    told_delivered(g.deliver(message))
}

/// Hands a message to the base, where both stores are live. Of a Fence of the cache's epoch those
/// whom it keeps are told that it failed.
pub(crate) fn deliver<P: Store>(g: &mut Group<P>, message: u64) -> Outcome
    ensures steps { Delivers message g.old g.new result }
    ensures run { IsRun g.old g.new }
{
    let fence = match g.message(message) {
        Some(sent) => is_own_fence(g.epoch(), &sent.message),
        None => return Outcome::Nothing,
    };
    if !are_live(g) {
        return Outcome::NotReady;
    }
    if fence {
        deliver_fence(g, message)
    } else {
        hand_over(g, message)
    }
}
