//! The sub-operations on attributes, but for the guard.
ghost use Rattle.std.specs.Prelude.{◌≡◌, IfOk, OnErr, Ok};
ghost use Rattle.std.specs.FinMap as fin;
ghost use Rattle.obj_model.specs.declared.out.Out.TheVariants.{Names};
ghost use Rattle.obj_ops.specs.Effects.{the_value, where_there, with_attr, without_attr};
ghost use Rattle.obj_ops.specs.Steps.{Lands};

use crate::object::Done;
use crate::table::{enter, value_of};
use obj_model::{ATTRS_LIMIT, Bytes, KeyList, Name, NoMemory, Obj, Out, Why};
use std::alloc::Global;

// Gives an attribute this value.
pub fn set(key: &Name, bytes: &Bytes, obj: &mut Obj) -> Result<Done, NoMemory>
    ensures exact { IfOk result
        (λ done. Lands (with_attr key.now bytes.now obj.old) obj.old done obj.new) }
    ensures refused { OnErr result (obj.new ≡ obj.old) }
{
    enter(ATTRS_LIMIT, key, bytes, &mut obj.attrs)
}

// Takes an attribute away, which has to be there.
pub fn remove(key: &Name, obj: &mut Obj) -> Done
    ensures { Lands (without_attr key.now obj.old) obj.old result obj.new }
{
    if obj.attrs.get(key).is_none() {
        return Err(Why::NoData);
    }
    let _ = obj.attrs.remove(key);
    Ok(())
}

// Tells the value of an attribute, which has to be there.
pub fn get(alloc: Global, key: &Name, obj: &Option<Obj>) -> Result<Result<Out, Why>, NoMemory>
    ensures { IfOk result (λ r. r
        ≡ where_there (λ x. the_value (fin.get x.attrs key.now)) obj.now) }
{
    let Some(obj) = obj else {
        return Ok(Err(Why::NoEnt));
    };
    value_of(alloc, obj.attrs.get(key))
}

// Tells the keys of the attributes, in order.
pub fn list(alloc: Global, obj: &Option<Obj>) -> Result<Result<Out, Why>, NoMemory>
    ensures { IfOk result (λ r. r ≡ where_there (λ x. Ok (Names (fin.keys x.attrs))) obj.now) }
{
    let Some(obj) = obj else {
        return Ok(Err(Why::NoEnt));
    };
    let names = KeyList::from_vec(obj.attrs.names(alloc)?);
    Ok(Ok(Out::Names(names)))
}
