//! The trait that each store meets.
ghost use Rattle.std.specs.Prelude.{◌≡◌, true};
ghost use Rattle.std.specs.Option.{option_copied};
ghost use Rattle.store_face.specs.Views.{StoreView, Sound};
ghost use Rattle.obj_model.specs.Changes.{IsTxn};
ghost use Rattle.store_face.specs.Calls.{Got, Listed, Committed, Reopened};

use crate::StoreFault;
use obj_model::{Bytes, Change, Items};

/// A finite map from keys to values on a disk. A key has 1 to 256 bytes, a value at most
/// 16,777,216, and all of them together at most 2^40.
///
/// A store is live from the call that opened it until a call answers Disk, or `reopen` anything but
/// Ok. Where its disk tells its content, a live store has one map; after Disk a crash may leave the
/// map before or the map after the changes of that call.
///
/// Each call promises (`sound`) that a store which is live after it has one map within these
/// limits, and counts what is used up of its room.
pub trait Store: Drop {
    /// What a crash may have left at each moment since the store was opened, where its disk tells
    /// its content; whether it is live; how often its disk failed; its room, which never changes,
    /// and what is used up of it.
    ghost state: { Self → StoreView };

    /// Whether it can be read and changed.
    fn is_live(&self) -> bool
        ensures live { result ≡ (state self.now).live }
        ensures sound { Sound (state self.now) };

    /// The value of a key, if it has one. Over a disk that does not tell its content a value may
    /// come short.
    fn get(&mut self, key: &[u8]) -> Result<Option<Bytes>, StoreFault>
        requires { (state self.old).live ≡ true }
        ensures got { Got key.now (state self.old) (state self.new) result }
        ensures sound { Sound (state self.new) };

    /// The keys above this one (without one: all), in the order of their bytes, at most `max` of
    /// them.
    fn keys_after(&mut self, after: Option<&[u8]>, max: u32) -> Result<Items<Bytes>, StoreFault>
        requires { (state self.old).live ≡ true }
        ensures listed { Listed (option_copied after.entry) max
            (state self.old) (state self.new) result }
        ensures sound { Sound (state self.new) };

    /// Makes 1 to 8 changes on distinct keys, all of them or none: at each moment a crash leaves
    /// the map before or the map after them, and once this answers Ok each later crash leaves the
    /// latter. The changes are handed over, so that a store which keeps their values need not copy
    /// them.
    ///
    /// `NoSpace` comes exactly where there is no room for the changes, with what is used, what they
    /// need, and the limit; `Worn` only where a number that each rewriting of the store raises is
    /// at its end. These two and `NoMemory` change nothing.
    fn commit(&mut self, changes: Vec<Change>) -> Result<(), StoreFault>
        requires live { (state self.old).live ≡ true }
        requires lawful { IsTxn changes.items }
        ensures committed { Committed changes.items (state self.old) (state self.new) result }
        ensures sound { Sound (state self.new) };

    /// Opens the store anew, as after a crash: it has one of the maps that a crash might have left,
    /// and goes on with the room that was left there.
    fn reopen(&mut self) -> Result<(), StoreFault>
        ensures reopened { Reopened (state self.old) (state self.new) result }
        ensures sound { Sound (state self.new) };
}
