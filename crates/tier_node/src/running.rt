//! A list of events.
ghost use Rattle.std.specs.Prelude.{◌≡◌, IfOk, OnErr, OnOk};
ghost use Rattle.tier_node.specs.Runs.{EventsHold, Runs};

use crate::{Event, Outcome, step};
use obj_model::NoMemory;
use store_face::Store;
use tier_core::Group;

/// Makes the steps of all events, one behind the other, and answers an outcome for each, in order.
/// The memory for the outcomes is taken first; without it nothing changes.
pub fn run_events<P: Store>(g: &mut Group<P>, events: &[Event]) -> Result<Vec<Outcome>, NoMemory>
    ensures runs { IfOk result (λ outcomes. Runs events.now g.old g.new outcomes.items) }
    ensures holds { OnOk result (EventsHold g.old g.new) }
    ensures refused { OnErr result (g.new ≡ g.old) }
{
    g.rest();
    let mut outcomes = Vec::with_capacity(g.alloc(), events.len())?;
    for event in events {
        outcomes.push_reserved(step(g, event));
    }
    Ok(outcomes)
}
