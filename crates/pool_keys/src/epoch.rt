//! The value under the key of a pool's epoch.
ghost use Rattle.std.specs.Prelude.{◌≡◌, ◌≤◌, ℕ, true, IfOk, IfNone, IfSome};
ghost use Rattle.rec_codec.specs.Reading.{number_at, whole};
ghost use Rattle.store_face.specs.Views.{Sound};
ghost use Rattle.pool_keys.specs.Keys.{epoch_key};
ghost use Rattle.pool_keys.specs.Reads.{FindsEpoch};
ghost use Rattle.pool_keys.specs.Values.{SpellsEpoch};

use crate::epoch_key;
use byteorder::{BigEndian, ByteOrder};
use obj_model::{Bytes, NUMBER_LIMIT, Name, NoMemory};
use std::alloc::Global;
use store_face::{Store, StoreFault};

/// The spelling of an epoch.
pub fn write_epoch(alloc: Global, epoch: u64) -> Result<Bytes, NoMemory>
    requires least { 1 ≤ epoch }
    requires most { epoch ≤ NUMBER_LIMIT }
    ensures { IfOk result (λ bytes. SpellsEpoch bytes epoch) }
{
    let mut bytes = [0u8; 8];
    BigEndian::write_u64(&mut bytes, epoch);
    Ok(Bytes::from_vec(Vec::from_slice(alloc, &bytes)?))
}

// The number that eight bytes are.
fn number_of(bytes: &[u8]) -> Option<u64>
    ensures { result ≡ whole (number_at 8) bytes.now }
{
    if bytes.len() != 8 {
        return None;
    }
    Some(BigEndian::read_u64(bytes))
}

/// The epoch that the bytes, all of them, spell, or nothing where they spell none. It takes no
/// memory.
#[tactic(auto, using(crate::proofs::Epochs::epoch_rules))]
pub fn read_epoch(bytes: &[u8]) -> Option<u64>
    ensures found { IfSome result (SpellsEpoch bytes.now) }
    ensures none { IfNone result ((epoch : ℕ) → SpellsEpoch bytes.now epoch → ⊥) }
{
    match number_of(bytes) {
        None => None,
        Some(epoch) => {
            if epoch == 0 || epoch > NUMBER_LIMIT {
                return None;
            }
            Some(epoch)
        }
    }
}

/// The name by which a value under the epoch's key that spells none is told: the key itself.
pub fn epoch_name(alloc: Global) -> Result<Name, NoMemory>
    ensures { IfOk result (λ name. name ≡ epoch_key) }
{
    let mut bytes = Vec::with_capacity(alloc, 1)?;
    bytes.push(b'E')?;
    match Name::new(bytes) {
        Ok(name) => Ok(name),
        Err(_) => Err(NoMemory),
    }
}

/// The epoch that a store's map is at: 0 where it has no value for it, and nothing where its value
/// spells none.
#[tactic(auto, using(crate::proofs::Found::epoch_found_rules))]
pub fn find_epoch<P: Store>(alloc: Global, store: &mut P) -> Result<Option<u64>, StoreFault>
    requires live { (P.state store.old).live ≡ true }
    requires sound { Sound (P.state store.old) }
    ensures found { FindsEpoch (P.state store.old) (P.state store.new) result }
    ensures sound { Sound (P.state store.new) }
{
    let key = epoch_key(alloc)?;
    match store.get(key.as_slice())? {
        None => Ok(Some(0)),
        Some(value) => Ok(read_epoch(value.as_slice())),
    }
}
