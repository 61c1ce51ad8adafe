//! Why settings are refused.
ghost use Rattle.std.specs.Prelude.{◌≡◌, Err, IfOk};
ghost use Rattle.settings_json.specs.Settings.{IsFaultOf};
ghost use Rattle.settings_json.specs.Steps.{wrong_of};

use crate::table::Misfit;
use obj_model::Bytes;
use std::alloc::{AllocError, Global};

/// Why settings are refused.
#[derive(Debug, Drop)]
pub enum SettingsFault {
    /// They are no JSON object of at most 65,536 bytes that nests at most 127 deep.
    NotJson,
    /// The first wrong key is none of a pool's: its bytes, which are UTF-8.
    Unknown(Bytes),
    /// The value of the first wrong key does not fit it: the key's bytes.
    BadValue(Bytes),
    /// There was not enough memory.
    NoMemory,
}

// The bytes of a key.
fn key_bytes(alloc: Global, key: &str) -> Result<Bytes, AllocError>
    ensures { IfOk result (λ b. b ≡ key.now) }
{
    Ok(Bytes::from_vec(Vec::from_slice(alloc, key.as_bytes())?))
}

// What is told of a member that does not fit.
pub(crate) fn member_fault(alloc: Global, key: &str, misfit: Misfit) -> SettingsFault
    ensures { IsFaultOf result (Err (wrong_of key.now misfit)) }
{
    let Ok(bytes) = key_bytes(alloc, key) else {
        return SettingsFault::NoMemory;
    };
    match misfit {
        Misfit::Key => SettingsFault::Unknown(bytes),
        Misfit::Value => SettingsFault::BadValue(bytes),
    }
}
