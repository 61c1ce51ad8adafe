//! Guards: they refuse a vector or do nothing, and take no memory.
ghost use Rattle.std.specs.Prelude.{◌≡◌};
ghost use Rattle.std.specs.FinMap as fin;
ghost use Rattle.obj_model.specs.SubOps.{kind};
ghost use Rattle.obj_model.specs.declared.sub_op.OpKind.TheVariants.{Guard};
ghost use Rattle.obj_ops.specs.Effects.{at_version, checked, same_value, where_there};
ghost use Rattle.obj_ops.specs.Ops.{sub, tells};

use obj_model::{Bytes, Name, Obj, Out, SubOp, Why};

// Tries a guard on the object as it is, at this version of its name.
pub fn guard(op: &SubOp, ver: u64, obj: &Option<Obj>) -> Result<Out, Why>
    requires { kind op.now ≡ Guard }
    ensures { tells result obj.now ≡ sub op.now ver obj.now }
{
    match op {
        SubOp::AssertVer { ver: asked } => same_version(*asked, ver),
        SubOp::CmpXattr { key, bytes } => same_xattr(key, bytes, obj),
        _ => exists(obj),
    }
}

// There has to be an object.
fn exists(obj: &Option<Obj>) -> Result<Out, Why>
    ensures { result ≡ where_there checked obj.now }
{
    match obj {
        None => Err(Why::NoEnt),
        Some(_) => Ok(Out::Checked),
    }
}

// The version that is asked has to be the name's.
fn same_version(asked: u64, ver: u64) -> Result<Out, Why>
    ensures { result ≡ at_version asked ver }
{
    if asked < ver {
        return Err(Why::Range);
    }
    if asked > ver {
        return Err(Why::Overflow);
    }
    Ok(Out::Checked)
}

// The attribute has to be there with this value.
fn same_xattr(key: &Name, bytes: &Bytes, obj: &Option<Obj>) -> Result<Out, Why>
    ensures { result ≡ where_there (λ x. same_value bytes.now (fin.get x.attrs key.now)) obj.now }
{
    let Some(obj) = obj else {
        return Err(Why::NoEnt);
    };
    let Some(value) = obj.attrs.get(key) else {
        return Err(Why::NoData);
    };
    if value == bytes {
        Ok(Out::Checked)
    } else {
        Err(Why::Canceled)
    }
}
