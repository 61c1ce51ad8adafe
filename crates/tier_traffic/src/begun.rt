//! The flushes that were begun alone.
ghost use Rattle.std.specs.Prelude.{◌≡◌, [], OnErr, OnOk};
ghost use Rattle.tier_traffic.specs.Waits.{beginning, begun_of, without_begun};

use obj_model::{Name, NoMemory};
use std::alloc::Global;
use std::collections::BTreeMap;
use std::marker::Model;
use tier_view::Begun;

/// When a flush was begun alone: the epoch, and the number of its message.
#[derive(Clone, Copy, Debug, PartialEq, Eq)]
pub struct BegunAt {
    pub epoch: u64,
    pub message: u64,
}

/// The flush of each name that was begun alone, in the order of the names.
#[derive(Drop)]
pub(crate) struct BegunFlushes {
    inner: BTreeMap<Name, BegunAt>,
}

impl Model for BegunFlushes {
    ghost use Rattle.std.specs.Coded.{coded_list};
    ghost use Rattle.std.specs.BTreeMap.{IsOrdered};
    ghost use Rattle.std.specs.Prelude.{List, map};
    ghost use Rattle.obj_model.specs.Names.{name_cmp};
    ghost use Rattle.tier_view.specs.declared.parts.Begun.{Begun};
    ghost use Rattle.tier_view.specs.contracts.parts.Begun as begun;

    ghost Value = { List Begun };

    ghost coded = { coded_list begun.the_row.coded };

    ghost view = { λ b. map
        (λ e. record { name = e.0; epoch = e.1.epoch; message = e.1.message }) b.inner.entries };

    ghost invariant = { λ b. IsOrdered name_cmp b.inner };
}

impl BegunFlushes {
    /// No flush was begun.
    pub(crate) fn new(alloc: Global) -> BegunFlushes
        ensures { result ≡ [] }
    {
        BegunFlushes {
            inner: BTreeMap::new(alloc),
        }
    }

    /// When the flush of a name was begun, if one was.
    pub(crate) fn get(&self, name: &Name) -> Option<BegunAt>
        ensures { result ≡ begun_of self.now name.now }
    {
        self.inner.get(name).copied()
    }

    /// Enters a flush, in place of one of the same name. Without memory nothing changes.
    pub(crate) fn set(&mut self, begun: Begun) -> Result<(), NoMemory>
        ensures ok { OnOk result (self.new ≡ beginning begun self.old) }
        ensures err { OnErr result (self.new ≡ self.old) }
    {
        let Begun {
            name,
            epoch,
            message,
        } = begun;
        self.inner.insert(name, BegunAt { epoch, message })?;
        Ok(())
    }

    /// Takes the flush of a name out, and answers when it was begun, if one was.
    pub(crate) fn take(&mut self, name: &Name) -> Option<BegunAt>
        ensures before { result ≡ begun_of self.old name.now }
        ensures taken { self.new ≡ without_begun name.now self.old }
    {
        self.inner.remove(name)
    }
}
