//! An object's tables: one lookup puts a value in, and the limits come before it.
ghost use Rattle.std.specs.Prelude.{◌≡◌, ◌≤◌, IfOk, OnErr};
ghost use Rattle.std.specs.Option.{option_copied};
ghost use Rattle.obj_model.specs.Limits.{omap_limit};
ghost use Rattle.obj_ops.specs.Effects.{entered, the_value};
ghost use Rattle.obj_ops.specs.Steps.{Enters};

use crate::object::{Done, too_big};
use obj_model::{Bytes, Name, NoMemory, Out, PairMap, VALUE_LIMIT, Why};
use std::alloc::Global;

// Gives a key this value. A new key needs room among so many.
pub fn enter(most: u64, key: &Name, bytes: &Bytes, table: &mut PairMap) -> Result<Done, NoMemory>
    requires { most ≤ omap_limit }
    ensures exact { IfOk result
        (λ done. Enters (entered most key.now bytes.now table.old) table.old done table.new) }
    ensures refused { OnErr result (table.new ≡ table.old) }
{
    let asked = bytes.as_slice().len() as u64;
    if asked > VALUE_LIMIT {
        return Ok(Err(too_big(VALUE_LIMIT, asked)));
    }
    if most <= table.len() as u64 && table.get(key).is_none() {
        return Ok(Err(too_big(most, most + 1)));
    }
    table.insert(key.copy()?, bytes.clone()?)?;
    Ok(Ok(()))
}

// A copy of a value, which has to be there.
pub fn value_of(alloc: Global, value: Option<&Bytes>) -> Result<Result<Out, Why>, NoMemory>
    ensures { IfOk result (λ r. r ≡ the_value (option_copied value.entry)) }
{
    let Some(value) = value else {
        return Ok(Err(Why::NoData));
    };
    let copy = Vec::from_slice(alloc, value.as_slice())?;
    Ok(Ok(Out::Bytes(Bytes::from_vec(copy))))
}
