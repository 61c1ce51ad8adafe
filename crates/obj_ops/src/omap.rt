//! The sub-operations on an omap.
ghost use Rattle.std.specs.Prelude.{◌≡◌, IfOk, OnErr, Ok, Some};
ghost use Rattle.std.specs.Option.{option_copied};
ghost use Rattle.std.specs.FinMap as fin;
ghost use Rattle.obj_model.specs.declared.out.Out.TheVariants.{Pairs};
ghost use Rattle.obj_ops.specs.Effects.{page, the_value, where_there, with_entry, without_entries};
ghost use Rattle.obj_ops.specs.Effects.{without_entry};
ghost use Rattle.obj_ops.specs.Steps.{Lands};

use crate::object::Done;
use crate::table::{enter, value_of};
use obj_model::{Bytes, Name, NoMemory, OMAP_LIMIT, Obj, Out, Pair, PairList, PairMap, Why};
use std::alloc::Global;

// Gives an entry this value.
pub fn set(key: &Name, bytes: &Bytes, obj: &mut Obj) -> Result<Done, NoMemory>
    ensures exact { IfOk result
        (λ done. Lands (with_entry key.now bytes.now obj.old) obj.old done obj.new) }
    ensures refused { OnErr result (obj.new ≡ obj.old) }
{
    enter(OMAP_LIMIT, key, bytes, &mut obj.omap)
}

// Takes an entry away, if it is there.
pub fn remove(key: &Name, obj: &mut Obj)
    ensures { without_entry key.now obj.old ≡ Ok (Some obj.new) }
{
    let _ = obj.omap.remove(key);
}

// Takes all entries away.
pub fn clear(alloc: Global, obj: &mut Obj)
    ensures { without_entries obj.old ≡ Ok (Some obj.new) }
{
    obj.omap = PairMap::new(alloc);
}

// Tells the value of an entry, which has to be there.
pub fn get(alloc: Global, key: &Name, obj: &Option<Obj>) -> Result<Result<Out, Why>, NoMemory>
    ensures { IfOk result (λ r. r ≡ where_there (λ x. the_value (fin.get x.omap key.now)) obj.now) }
{
    let Some(obj) = obj else {
        return Ok(Err(Why::NoEnt));
    };
    value_of(alloc, obj.omap.get(key))
}

// Tells the first entries with keys above a key, or from the first on, in order.
pub fn list(
    alloc: Global,
    after: &Option<Name>,
    max: u64,
    obj: &Option<Obj>,
) -> Result<Result<Out, Why>, NoMemory>
    ensures { IfOk result (λ r. r
        ≡ where_there (λ x. Ok (Pairs (page after.now max x.omap))) obj.now) }
{
    let Some(obj) = obj else {
        return Ok(Err(Why::NoEnt));
    };
    let pairs = page(alloc, after.as_ref(), max, &obj.omap)?;
    Ok(Ok(Out::Pairs(PairList::from_vec(pairs))))
}

// Copies of the first entries above a key.
fn page(
    alloc: Global,
    after: Option<&Name>,
    max: u64,
    omap: &PairMap,
) -> Result<Vec<Pair>, NoMemory>
    ensures { IfOk result (λ pairs. pairs.items ≡ page (option_copied after.entry) max omap.now) }
{
    let mut pairs = Vec::new(alloc);
    for (key, value) in omap.iter_above(after) {
        if pairs.len() as u64 == max {
            break;
        }
        let key = key.copy()?;
        let value = value.clone()?;
        pairs.push(Pair { key, value })?;
    }
    Ok(pairs)
}
