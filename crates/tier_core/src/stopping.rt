//! Either pool stops.
ghost use Rattle.std.specs.FinMap as fin;
ghost use Rattle.std.specs.Prelude.{◌≡◌, None, length};
ghost use Rattle.tier_core.specs.Steps.{IsStep};
ghost use Rattle.tier_core.specs.Stops.{all_gone, down};
ghost use Rattle.tier_traffic.specs.Wires.{with_flights};
ghost use Rattle.tier_view.specs.Starts.{with_base_stopped};
ghost use Rattle.tier_view.specs.Stops.{with_cache_stopped};

use crate::Group;
use crate::parts::Start;
use std::alloc::Global;
use store_face::Store;
use tier_calls::CallTable;
use tier_chron::History;
use tier_traffic::Wires;
use tier_types::Phase;

/// What the stop of a cache makes of the parts: its work goes at the present number of answers, and
/// it is down.
pub(crate) fn drop_cache(
    alloc: Global,
    history: &History,
    calls: &mut CallTable,
    wires: &mut Wires,
    start: &mut Start,
)
    ensures calls { calls.new ≡ all_gone (length history.now.log.answers) calls.old }
    ensures wires { wires.new ≡ with_flights fin.empty wires.old }
    ensures start { start.new ≡ down start.old }
{
    let answers = history.answers().len() as u64;
    calls.all_go(answers);
    wires.drop_work(alloc);
    start.phase = Phase::Down;
    start.fenced = false;
}

impl<P: Store> Group<P> {
    /// The cache stops: it is down, and its work is gone. Messages, replies and flushes that were
    /// begun alone stay. It may come at any moment, in a doubt too, and takes no memory.
    pub fn stop_cache(&mut self)
        ensures stopped { self.new ≡ with_cache_stopped self.old }
        ensures step { IsStep None self.old self.new }
    {
        let Group {
            alloc,
            cache_stopped,
            history,
            calls,
            wires,
            start,
            ..
        } = self;
        *cache_stopped = true;
        drop_cache(*alloc, history, calls, wires, start);
    }

    /// The base stops: it has to tell its epoch anew. All that is under way stays. It may come at
    /// any moment, in a doubt too, and takes no memory.
    pub fn stop_base(&mut self)
        ensures stopped { self.new ≡ with_base_stopped self.old }
        ensures step { IsStep None self.old self.new }
    {
        let Group {
            base_stopped,
            start,
            ..
        } = self;
        *base_stopped = true;
        start.fenced = false;
    }
}
