//! The group's own type.
use crate::parts::{Agent, Start};
use base_pool::Base;
use std::alloc::Global;
use std::marker::Model;
use store_face::Store;
use tier_calls::CallTable;
use tier_chron::History;
use tier_traffic::Wires;
use tier_view::Pending;

/// Two pools with one history, and all that is kept in memory beside them.
///
/// Contracts see it as the plain data of a group. Its base counts as live only where the base's
/// epoch was read since its store was opened.
#[derive(Drop)]
pub struct Group<P: Store> {
    pub(crate) alloc: Global,
    pub(crate) cache: P,
    pub(crate) base: Base<P>,
    /// Whether the cache was stopped since its store was opened last.
    pub(crate) cache_stopped: bool,
    /// The same of the base.
    pub(crate) base_stopped: bool,
    /// The one commit of which it is not known whether it was made.
    pub(crate) pending: Option<Pending>,
    pub(crate) history: History,
    pub(crate) calls: CallTable,
    pub(crate) wires: Wires,
    pub(crate) start: Start,
    pub(crate) agent: Agent,
}

impl<P: Store> Model for Group<P> {
    ghost use Rattle.tier_core.specs.Keeps.{IsKept};
    ghost use Rattle.tier_core.specs.Parts.{group_of, stores_of};
    ghost use Rattle.tier_view.specs.Codes.{coded_group};
    ghost use Rattle.tier_view.specs.Views.{GroupView};

    ghost Value = { GroupView };

    ghost coded = { coded_group };

    ghost view = { λ g. group_of
        (stores_of (P.state g.cache) g.base g.cache_stopped g.base_stopped g.pending) g.history.log
        g.calls.calls g.wires.traffic g.start g.agent };

    ghost invariant = { λ g. IsKept (group_of
        (stores_of (P.state g.cache) g.base g.cache_stopped g.base_stopped g.pending) g.history.log
        g.calls.calls g.wires.traffic g.start g.agent) g.base g.calls };
}
