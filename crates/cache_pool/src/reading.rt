//! Reading the record of a name, and the epoch.
ghost use Rattle.std.specs.Prelude.{◌≡◌, true};
ghost use Rattle.rec_codec.specs.Spelling.{SpellsTier};
ghost use Rattle.store_face.specs.Views.{Sound};
ghost use Rattle.cache_pool.specs.Reads.{ReadsEpoch, ReadsRecord};
ghost use Rattle.cache_pool.specs.Steps.{Decodes};

use crate::CacheFault;
use obj_model::Name;
use pool_keys::{epoch_name, find_epoch, record_key};
use rec_codec::read_tier;
use std::alloc::Global;
use store_face::{Store, StoreFault};
use tier_types::TierRec;

// The record that a value spells.
fn decoded(alloc: Global, bytes: &[u8]) -> Result<Option<TierRec>, StoreFault>
    ensures { Decodes bytes.now result }
{
    match read_tier(alloc, bytes) {
        Ok(Some((state, dirty, mtime))) => Ok(Some(TierRec {
            state,
            dirty,
            mtime,
        })),
        Ok(None) => Ok(None),
        Err(_) => Err(StoreFault::NoMemory),
    }
}

/// The record of a name, or none. BadRecord comes only where the value that was read spells none.
#[tactic(auto, using(crate::proofs::Found::record_rules))]
pub fn read_record<P: Store>(
    alloc: Global,
    store: &mut P,
    name: &Name,
) -> Result<Option<TierRec>, CacheFault>
    requires live { (P.state store.old).live ≡ true }
    requires sound { Sound (P.state store.old) }
    ensures read { ReadsRecord name.now (P.state store.old) (P.state store.new) result }
    ensures sound { Sound (P.state store.new) }
{
    let key = record_key(alloc, name)?;
    match store.get(key.as_slice()) {
        Err(fault) => Err(CacheFault::Store(fault)),
        Ok(None) => Ok(None),
        Ok(Some(value)) => match decoded(alloc, value.as_slice()) {
            Err(fault) => Err(CacheFault::Store(fault)),
            Ok(Some(record)) => Ok(Some(record)),
            Ok(None) => Err(CacheFault::BadRecord { name: name.copy()? }),
        },
    }
}

/// The epoch that a cache's map is at, 0 where it has none.
pub fn read_epoch_of<P: Store>(alloc: Global, store: &mut P) -> Result<u64, CacheFault>
    requires live { (P.state store.old).live ≡ true }
    requires sound { Sound (P.state store.old) }
    ensures read { ReadsEpoch (P.state store.old) (P.state store.new) result }
    ensures sound { Sound (P.state store.new) }
{
    match find_epoch(alloc, store) {
        Err(fault) => Err(CacheFault::Store(fault)),
        Ok(Some(epoch)) => Ok(epoch),
        Ok(None) => Err(CacheFault::BadRecord {
            name: epoch_name(alloc)?,
        }),
    }
}
