//! A group is attached over two stores.
ghost use Rattle.std.specs.Prelude.{◌≡◌, true, IfErr, IfOk};
ghost use Rattle.tier_core.specs.Founds.{Attaches, MayBeFound, Refuses, found_over};

use crate::Group;
use crate::parts::{Agent, Start};
use agent_state::{Modes, Share};
use base_pool::{Base, BaseFault};
use obj_model::{Mode, PoolValues};
use pool_survey::{Survey, SurveyFault, survey};
use std::alloc::Global;
use store_face::Store;
use tier_calls::CallTable;
use tier_chron::History;
use tier_traffic::Wires;
use tier_types::Phase;

/// What a group is attached with, beside its stores.
#[derive(Clone, Copy, Debug, PartialEq, Eq)]
pub struct Setup {
    /// The pool's values, which never change.
    pub values: PoolValues,
    /// The group's share of the pool's targets, which never changes.
    pub share: Share,
    pub mode: Mode,
    /// The present moment, in seconds.
    pub moment: u64,
}

/// Why no group is attached.
#[derive(Debug, Drop)]
pub enum AttachFault {
    /// What the two stores hold is no group, or was not read.
    Survey(SurveyFault),
    /// The base's epoch was not read again: its store's fault, or over a disk that tells nothing
    /// another value than before.
    Base(BaseFault),
}

impl<P: Store> Group<P> {
    /// Attaches a group over two live stores, each of which is read once: at the epochs that they
    /// have, with the sums over the cache's records, without a history. Its cache is down, and its
    /// base has told no epoch. Where both stores tell what they hold, a group that is attached
    /// begins at the plain store that they stand for, and the first cause why there is none is the
    /// fault. With a fault both stores are handed back.
    pub fn attach(
        alloc: Global,
        cache: P,
        base: P,
        setup: Setup,
    ) -> Result<Group<P>, (AttachFault, P, P)>
        requires cache_live { (P.state cache).live ≡ true }
        requires base_live { (P.state base).live ≡ true }
        ensures attached { IfOk result (Attaches (P.state cache) (P.state base) setup) }
        ensures refused { IfErr result
            (λ e. Refuses (P.state cache) (P.state e.1) (P.state base) (P.state e.2) e.0) }
    {
        let mut cache = cache;
        let mut base = base;
        match survey(alloc, &mut cache, &mut base) {
            Err(fault) => Err((AttachFault::Survey(fault), cache, base)),
            Ok(told) => match Base::attach(alloc, base) {
                Err((fault, base)) => Err((AttachFault::Base(fault), cache, base)),
                Ok(base) => Ok(Group::found(alloc, cache, base, told, setup)),
            },
        }
    }

    // A group over stores that were read.
    fn found(alloc: Global, cache: P, base: Base<P>, told: Survey, setup: Setup) -> Group<P>
        requires { MayBeFound (P.state cache) base told setup }
        ensures { result ≡ found_over (P.state cache) base told setup }
    {
        let base_epoch = base.epoch();
        Group {
            alloc,
            cache,
            base,
            cache_stopped: false,
            base_stopped: false,
            pending: None,
            history: History::new(alloc),
            calls: CallTable::new(alloc),
            wires: Wires::new(alloc),
            start: Start {
                cache_epoch: told.cache_epoch,
                base_epoch,
                next_opid: 1,
                phase: Phase::Down,
                fenced: false,
                kept: None,
            },
            agent: Agent {
                values: setup.values,
                share: setup.share,
                mode: setup.mode,
                modes: Modes::idle(),
                moment: setup.moment,
                cursor: None,
                totals: told.totals,
            },
        }
    }
}
