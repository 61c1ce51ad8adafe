//! The way of a client's call whose name has no record.
ghost use Rattle.std.specs.Prelude.{◌≡◌, ◌↔◌, IsTrue};
ghost use Rattle.tier_moves.specs.Ways.{Goes, GoesBy, IsFullCache, MayGo, MayGoBy, MayTellFull, TellsFull, asks_sets, way_of};
ghost use Rattle.tier_view.specs.Answers.{KeepsQuietly};
ghost use Rattle.tier_view.specs.Whole.{HasTarget};

use crate::asking::writes;
use crate::ending::{acts_of, drop_as, failed_here};
use crate::{Begun, Unbuilt};
use agent_state::{EvictMode, Share};
use obj_model::{Mode, Path};
use store_face::Store;
use tier_chron::Answer;
use tier_core::{Group, Turn};
use tier_route::{Routed, route};
use tier_types::Ask;

// The whole of a target, in millionths.
const MILLION: u64 = 1_000_000;

// Whether the group has a share of a target.
fn has_target(share: &Share) -> bool
    ensures { IsTrue result ↔ HasTarget share.now }
{
    share.objects != 0 || share.bytes != 0
}

// Whether the cache is full: its modes say so, by a ratio above the whole of a target.
fn is_full_cache<P: Store>(g: &Group<P>) -> bool
    ensures { IsTrue result ↔ IsFullCache g.now.agent }
{
    let modes = g.modes();
    matches!(modes.evict, EvictMode::Full) && MILLION < modes.full_micro && has_target(g.share())
}

// Whether the hit sets decide on the way of a name without a record.
fn asks_sets(mode: Mode, full: bool, count: u32) -> bool
    ensures { result ≡ asks_sets mode full count }
{
    match (mode, full) {
        (Mode::Writeback, false) => count != 0,
        _ => false,
    }
}

// The way of a name without a record, where no hit set decides on it.
fn way_of(full: bool, mode: Mode, count: u32, write: bool) -> Option<Routed>
    ensures { result ≡ way_of full mode count write }
{
    if asks_sets(mode, full, count) {
        return None;
    }
    let evict = if full {
        EvictMode::Full
    } else {
        EvictMode::Idle
    };
    Some(route(mode, evict, count, write, false, false))
}

// Answers a request that writes with how full the cache is, and ends its call. Without memory it
// ends without an answer.
fn tell_full<P: Store>(g: &mut Group<P>, turn: Turn) -> Begun
    requires { MayTellFull g.old turn }
    ensures full { TellsFull turn g.old g.new result }
    ensures step { KeepsQuietly g.old g.new }
{
    g.rest();
    let acts = acts_of(g);
    let told = Answer::Full {
        micro: g.modes().full_micro,
    };
    match g.answer_call(failed_here(turn, acts, None, told)) {
        Ok(()) => Begun::Answered { call: turn.call },
        Err(_) => drop_as(g, turn, Begun::NoMemory),
    }
}

// Goes on with a call on its way.
fn go_by<P: Store>(g: &mut Group<P>, turn: Turn, way: Option<Routed>) -> Begun
    requires { MayGoBy g.old turn way }
    ensures goes { GoesBy way turn g.old g.new result }
    ensures step { KeepsQuietly g.old g.new }
{
    match way {
        None => drop_as(g, turn, Begun::Unbuilt(Unbuilt::Recency)),
        Some(Routed::Full) => tell_full(g, turn),
        Some(Routed::Go(Path::Promote)) => drop_as(g, turn, Begun::Unbuilt(Unbuilt::Promotion)),
        Some(Routed::Go(_)) => drop_as(g, turn, Begun::Unbuilt(Unbuilt::Proxying)),
    }
}

/// Goes on with a client's call whose name has no record, on the way of the group's mode. Where the
/// cache is full, and the mode lets a request neither in nor round it, the call is told so. Other
/// ways are not served yet: there it ends without an answer.
pub(crate) fn go<P: Store>(g: &mut Group<P>, turn: Turn, ask: &Ask) -> Begun
    requires { MayGo g.old turn ask.now }
    ensures goes { Goes turn ask.now g.old g.new result }
    ensures step { KeepsQuietly g.old g.new }
{
    let full = is_full_cache(g);
    let way = way_of(full, g.mode(), g.values().hit_set_count, writes(ask));
    go_by(g, turn, way)
}
