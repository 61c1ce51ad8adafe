//! The step of one event.
ghost use Rattle.tier_node.specs.Runs.{IsRun};
ghost use Rattle.tier_node.specs.Steps.{Steps, Stops};
ghost use Rattle.tier_view.specs.Starts.{with_base_stopped};
ghost use Rattle.tier_view.specs.Stops.{with_cache_stopped};

use crate::advancing::advance;
use crate::calling::begin;
use crate::delivering::deliver;
use crate::forgetting::{forget, forget_reply};
use crate::receiving::receive;
use crate::starting::start;
use crate::{Event, Outcome};
use store_face::Store;
use tier_core::Group;

// The cache stops.
fn stop_cache<P: Store>(g: &mut Group<P>) -> Outcome
    ensures steps { Stops with_cache_stopped g.old g.new result }
    ensures run { IsRun g.old g.new }
{
    g.stop_cache();
    Outcome::Set
}

// The base stops.
fn stop_base<P: Store>(g: &mut Group<P>) -> Outcome
    ensures steps { Stops with_base_stopped g.old g.new result }
    ensures run { IsRun g.old g.new }
{
    g.stop_base();
    Outcome::Set
}

/// Makes the step of one event, and answers what came of it.
pub fn step<P: Store>(g: &mut Group<P>, event: &Event) -> Outcome
    ensures steps { Steps event.now g.old g.new result }
    ensures run { IsRun g.old g.new }
{
    match event {
        Event::Client { line, ask } => begin(g, *line, ask),
        Event::Deliver { message } => deliver(g, *message),
        Event::Receive { reply } => receive(g, *reply),
        Event::Forget { message } => forget(g, *message),
        Event::ForgetReply { reply } => forget_reply(g, *reply),
        Event::StopCache => stop_cache(g),
        Event::StopBase => stop_base(g),
        Event::Advance { call } => advance(g, *call),
        Event::Start { line, call } => start(g, *line, *call),
    }
}
