//! Objects as wholes: made where they are absent, and taken away.
ghost use Rattle.std.specs.Prelude.{◌≡◌};
ghost use Rattle.obj_model.specs.declared.reply.Why.TheVariants.{TooBig};
ghost use Rattle.obj_ops.specs.Effects.{created, empty_obj, removed, where_there};
ghost use Rattle.obj_ops.specs.Steps.{LandsOn};

use obj_model::{Bytes, Obj, PairMap, Why};
use std::alloc::Global;

/// What came of a sub-operation: it was done, or why it is refused.
pub type Done = Result<(), Why>;

// An empty object, where there was none.
pub fn create(alloc: Global, obj: &mut Option<Obj>) -> Done
    ensures { LandsOn (created obj.old) obj.old result obj.new }
{
    if obj.is_some() {
        return Err(Why::Exists);
    }
    *obj = Some(empty(alloc));
    Ok(())
}

// No object, where there was one.
pub fn remove(obj: &mut Option<Obj>) -> Done
    ensures { LandsOn (where_there removed obj.old) obj.old result obj.new }
{
    if obj.is_none() {
        return Err(Why::NoEnt);
    }
    *obj = None;
    Ok(())
}

// An object without bytes and pairs.
pub fn empty(alloc: Global) -> Obj
    ensures { result ≡ empty_obj }
{
    Obj {
        body: Bytes::from_vec(Vec::new(alloc)),
        attrs: PairMap::new(alloc),
        omap: PairMap::new(alloc),
    }
}

// So many are asked, and so many are the limit.
pub fn too_big(limit: u64, asked: u64) -> Why
    ensures { result ≡ TooBig limit asked }
{
    Why::TooBig { limit, asked }
}
