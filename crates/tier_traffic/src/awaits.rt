//! The messages that calls await.
ghost use Rattle.std.specs.Prelude.{◌≡◌, [], OnErr, OnOk};
ghost use Rattle.tier_view.specs.Changes.{unawaited};
ghost use Rattle.tier_traffic.specs.Waits.{awaited_of, awaiting};

use obj_model::NoMemory;
use std::alloc::Global;
use std::collections::BTreeMap;
use std::marker::Model;

/// The message that each call awaits, in the order of the calls.
#[derive(Drop)]
pub(crate) struct Awaits {
    inner: BTreeMap<u64, u64>,
}

impl Model for Awaits {
    ghost use Rattle.std.specs.Coded.{coded_list};
    ghost use Rattle.std.specs.BTreeMap.{IsOrdered};
    ghost use Rattle.std.specs.Ordering.{nat_cmp};
    ghost use Rattle.std.specs.Prelude.{List, map};
    ghost use Rattle.tier_view.specs.declared.parts.Awaited.{Awaited};
    ghost use Rattle.tier_view.specs.contracts.parts.Awaited as awaited;

    ghost Value = { List Awaited };

    ghost coded = { coded_list awaited.the_row.coded };

    ghost view = { λ a. map (λ e. record { call = e.0; message = e.1 }) a.inner.entries };

    ghost invariant = { λ a. IsOrdered nat_cmp a.inner };
}

impl Awaits {
    /// No call awaits anything.
    pub(crate) fn new(alloc: Global) -> Awaits
        ensures { result ≡ [] }
    {
        Awaits {
            inner: BTreeMap::new(alloc),
        }
    }

    /// The message that a call awaits, if it awaits one.
    pub(crate) fn get(&self, call: u64) -> Option<u64>
        ensures { result ≡ awaited_of self.now call }
    {
        self.inner.get(&call).copied()
    }

    /// Lets a call await this message and no other. Without memory nothing changes.
    pub(crate) fn set(&mut self, call: u64, message: u64) -> Result<(), NoMemory>
        ensures ok { OnOk result (self.new ≡ awaiting call message self.old) }
        ensures err { OnErr result (self.new ≡ self.old) }
    {
        self.inner.insert(call, message)?;
        Ok(())
    }

    /// Lets a call await nothing.
    pub(crate) fn remove(&mut self, call: u64)
        ensures { self.new ≡ unawaited call self.old }
    {
        self.inner.remove(&call);
    }
}
