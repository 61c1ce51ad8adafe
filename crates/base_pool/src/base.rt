//! The base itself: its store, its epoch, and the state that was read last.
ghost use Rattle.std.specs.Prelude.{◌≡◌, ◌↔◌, true, false, IfOk, IfErr, Err};
ghost use Rattle.store_face.specs.Views.{Sound};
ghost use Rattle.base_pool.specs.Opens.{Attaches, ReadsEpoch, ReadsSeq, ReadsState, ReopensBase};
ghost use Rattle.base_pool.specs.Serves.{IsMsg, Serves};
ghost use Rattle.base_pool.specs.Views.{IsLive, SoundBase};

use crate::BaseFault;
use crate::kept::{Kept, find_value, recall};
use crate::kinds::answer;
use crate::opening::read_epoch_of;
use obj_model::{Name, NameState};
use std::alloc::Global;
use std::marker::Model;
use store_face::Store;
use tier_types::{BaseMsg, BaseReply};

/// A base pool over a store: a state for each name, and an epoch, below which messages are refused.
///
/// It is live from the call that attached it until a call answers the store's Disk, or `reopen`
/// anything but Ok. The last state that was read is kept in memory, so that the chunks of an object
/// are had in one reading of it.
#[derive(Drop)]
pub struct Base<P: Store> {
    store: P,
    epoch: u64,
    opened: bool,
    kept: Option<Kept>,
}

impl<P: Store> Model for Base<P> {
    ghost use Rattle.base_pool.specs.Steps.{IsKept, base_of};
    ghost use Rattle.base_pool.specs.Views.{BaseView, SoundBase, coded_base};

    ghost Value = { BaseView };

    ghost coded = { coded_base };

    ghost view = { λ b. base_of (P.state b.store) b.epoch b.opened };

    ghost invariant = { λ b. SoundBase (base_of (P.state b.store) b.epoch b.opened)
        × IsKept (P.state b.store) b.kept };
}

impl<P: Store> Base<P> {
    /// A base over a live store, whose epoch is read. After an error the store is handed back.
    pub fn attach(alloc: Global, store: P) -> Result<Base<P>, (BaseFault, P)>
        requires live { (P.state store).live ≡ true }
        ensures attached { IfOk result (λ base. Attaches (P.state store) base) }
        ensures sound { IfOk result SoundBase }
        ensures refused { IfErr result (λ e. ReadsEpoch (P.state store) (P.state e.1) (Err e.0)) }
    {
        let mut store = store;
        // Whether it is live is known; that a live store is sound is a fact that the call brings.
        let _live = store.is_live();
        match read_epoch_of(alloc, &mut store) {
            Ok(epoch) => Ok(Base {
                store,
                epoch,
                opened: true,
                kept: None,
            }),
            Err(fault) => Err((fault, store)),
        }
    }

    /// Whether messages can be served.
    pub fn is_live(&self) -> bool
        ensures live { (result ≡ true) ↔ IsLive self.now }
        ensures sound { SoundBase self.now }
    {
        self.opened && self.store.is_live()
    }

    /// The epoch: the greatest that a Fence was taken of, 0 where there was none. While the base is
    /// live, it is the one of its store.
    pub fn epoch(&self) -> u64
        ensures epoch { result ≡ self.now.epoch }
        ensures sound { SoundBase self.now }
    {
        self.epoch
    }

    /// The state of a name, which is the unknown one where the base has none.
    pub fn state(&mut self, alloc: Global, name: &Name) -> Result<NameState, BaseFault>
        requires live { IsLive self.old }
        ensures read { ReadsState name.now self.old self.new result }
        ensures sound { SoundBase self.new }
    {
        let Base { store, kept, .. } = self;
        match recall(alloc, store, kept.take(), name) {
            Err(fault) => Err(fault),
            Ok(held) => {
                let copy = held.state.state().copy();
                *kept = Some(held);
                Ok(copy?)
            }
        }
    }

    /// Answers a message.
    ///
    /// A message of an older epoch is refused as OldEpoch, one of an epoch that the base was not
    /// told of as NotFenced, and both leave everything as it is. A Fence, a request that acts and
    /// an Install of a greater `seq` are in the store before they are answered, or are answered
    /// with want of room. BadRecord comes only where the value that was read for this message
    /// spells no state, Worn where the store is worn out or a Fence is above 2^62, Disk where the
    /// disk failed, when the message was served or not.
    pub fn serve(&mut self, alloc: Global, message: &BaseMsg) -> Result<BaseReply, BaseFault>
        requires live { IsLive self.old }
        requires lawful { IsMsg message.now }
        ensures served { Serves message.now self.old self.new result }
        ensures sound { SoundBase self.new }
    {
        let Base {
            store,
            epoch,
            kept,
            ..
        } = self;
        answer(alloc, store, epoch, kept, message)
    }

    /// Opens the base anew, as after a crash: its store, and then its epoch. Until it answers Ok
    /// the base is not live.
    pub fn reopen(&mut self, alloc: Global) -> Result<(), BaseFault>
        ensures reopened { ReopensBase self.old self.new result }
        ensures sound { SoundBase self.new }
    {
        let Base {
            store,
            epoch,
            opened,
            kept,
        } = self;
        *kept = None;
        *opened = false;
        match store.reopen() {
            Err(fault) => Err(BaseFault::Store(fault)),
            Ok(()) => match read_epoch_of(alloc, store) {
                Err(fault) => Err(fault),
                Ok(found) => {
                    *epoch = found;
                    *opened = true;
                    Ok(())
                }
            },
        }
    }

    /// The `seq` of a name's state; none where the base has no value for the name. No state is
    /// copied, and none is kept.
    #[tactic(auto, using(crate::proofs::Found::seq_rules))]
    pub fn seq_of(&mut self, alloc: Global, name: &Name) -> Result<Option<u64>, BaseFault>
        requires live { IsLive self.old }
        ensures read { ReadsSeq name.now self.old self.new result }
        ensures sound { SoundBase self.new }
    {
        let Base { store, .. } = self;
        match find_value(alloc, store, name) {
            Err(fault) => Err(fault),
            Ok(Some(state)) => Ok(Some(state.seq)),
            Ok(None) => Ok(None),
        }
    }

    /// The base is not live until it is opened anew.
    pub fn close(&mut self)
        ensures closed { self.new ≡ record self.old { opened = false } }
        ensures sound { SoundBase self.new }
    {
        self.opened = false;
    }

    /// The store.
    pub fn into_store(self) -> P
        ensures { P.state result ≡ self.store }
    {
        let Base { store, .. } = self;
        store
    }
}
