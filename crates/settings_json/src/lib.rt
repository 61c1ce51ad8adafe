//! Pool values from the bytes of a settings file, which are a JSON object or nothing.
//!
//! Promises that the values are exactly what the object's members say over the defaults, and that
//! else the first wrong key in the order of bytes is told. A key that is given twice has its last
//! value. Numbers are whole: written without fraction, exponent and sign. What is longer than
//! 65,536 bytes is refused unread; what nests deeper than 127 or is no JSON object is refused too.
#![tactic(auto)]

ghost use Rattle.std.specs.Prelude.{◌≡◌, MatchResult, Ok, Some};
ghost use Rattle.serde_json.specs.View.{view, members_view};
ghost use Rattle.serde_json.specs.Errors.{IsMemory};
ghost use Rattle.settings_json.specs.Settings.{settings_of, with_all, defaults, json_of, IsFaultOf};
ghost use Rattle.settings_json.specs.Steps.{IsCause, IsNoData};

mod fault;
mod laws;
mod table;

pub use fault::SettingsFault;
use fault::member_fault;
pub use laws::unnamed_are_defaults;
use obj_model::PoolValues;
use serde_json::{Error, Map, Value};
use std::alloc::Global;
use table::{DEFAULTS, with_value};

/// The longest settings, in bytes.
pub const SETTINGS_LIMIT: usize = 65_536;

// The members over the defaults, or the first wrong one.
fn with_members(alloc: Global, members: &Map<String, Value>) -> Result<PoolValues, SettingsFault>
    ensures { MatchResult result
        (λ v. with_all (members_view members.now.entries) defaults ≡ Ok v)
        (λ e. IsFaultOf e (with_all (members_view members.now.entries) defaults)) }
{
    let mut values = DEFAULTS;
    for (key, value) in members {
        match with_value(key.as_str(), value, values) {
            Ok(next) => values = next,
            Err(misfit) => return Err(member_fault(alloc, key.as_str(), misfit)),
        }
    }
    Ok(values)
}

// Why the bytes did not read as JSON.
fn reading_fault(error: Error) -> SettingsFault
    ensures { IsCause (IsMemory error) result }
{
    if error.is_memory() {
        SettingsFault::NoMemory
    } else {
        SettingsFault::NotJson
    }
}

// What the bytes read as.
#[tactic(auto, using(crate::proofs::Texts::text_is_read, crate::proofs::Texts::none_is_read))]
fn json_in(alloc: Global, bytes: &[u8]) -> Result<Value, SettingsFault>
    ensures { MatchResult result
        (λ v. json_of bytes.now ≡ Some (view v)) (λ e. IsNoData e (json_of bytes.now)) }
{
    match Value::from_slice(alloc, bytes) {
        Ok(value) => Ok(value),
        Err(error) => Err(reading_fault(error)),
    }
}

/// The pool values that the bytes set, over the defaults; no bytes set nothing.
///
/// Else what is wrong: the first wrong key in the order of bytes, or that this is no JSON object of
/// at most 65,536 bytes that nests at most 127 deep.
pub fn read_values(alloc: Global, bytes: &[u8]) -> Result<PoolValues, SettingsFault>
    ensures { MatchResult result
        (λ v. settings_of bytes.now ≡ Ok v) (λ e. IsFaultOf e (settings_of bytes.now)) }
{
    if bytes.is_empty() {
        return Ok(DEFAULTS);
    }
    if bytes.len() > SETTINGS_LIMIT {
        return Err(SettingsFault::NotJson);
    }
    let value = json_in(alloc, bytes)?;
    match value.as_object() {
        Some(members) => with_members(alloc, members),
        None => Err(SettingsFault::NotJson),
    }
}
