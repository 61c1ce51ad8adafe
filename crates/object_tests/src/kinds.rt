//! Each kind on an absent object and on one with the body 01234567, the attribute k of v1, and the
//! entries a to c of 1 to 3.
ghost use Rattle.std.specs.Prelude.{◌≡◌, true, false, IfOk};
ghost use Rattle.std.specs.List.{list_any};
ghost use Rattle.obj_model.specs.SubOps.{is_write};

use crate::tools::{agree, counted, given, row, show_obj, show_out, show_why, state_with, vector};
use obj_model::{NameState, Out, Vector, Why};
use obj_ops::{Looked, Ran, look, run_vector};
use std::alloc::Global;
use std::fmt::Write;
use std::process::Abort;
use std::test::Fail;

const PRESENT: &str =
    "writefull 01234567 ; setxattr k v1 ; omapset a 1 ; omapset b 2 ; omapset c 3";

// A vector that writes.
fn writing(alloc: Global, text: &str) -> Result<Vector, Fail>
    ensures { IfOk result (λ v. list_any is_write v ≡ true) }
{
    let vector = vector(alloc, text)?;
    if !vector.writes() {
        return Err("a write vector".into());
    }
    Ok(vector)
}

// A vector that reads.
fn reading(alloc: Global, text: &str) -> Result<Vector, Fail>
    ensures { IfOk result (λ v. list_any is_write v ≡ false) }
{
    let vector = vector(alloc, text)?;
    if vector.writes() {
        return Err("a read vector".into());
    }
    Ok(vector)
}

// What a write vector does to a state.
fn run(alloc: Global, state: &NameState, text: &str) -> Result<Ran, Fail> {
    let vector = writing(alloc, text)?;
    given(run_vector(alloc, state, &vector), "memory")
}

// The place of a refusal, and why.
fn show_refusal(alloc: Global, at: u8, why: Why) -> Result<String, Fail> {
    let mut shown = format!(in alloc; "{at} ")?;
    show_why(&mut shown, why)?;
    Ok(shown)
}

// Where the object was accepted, it; where it was refused, the place and why.
pub fn ran(alloc: Global, state: &NameState, text: &str) -> Result<String, Fail> {
    match run(alloc, state, text)? {
        Ran::Accepted(obj) => show_obj(alloc, &obj),
        Ran::Refused { at, why } => show_refusal(alloc, at, why),
    }
}

// What a read vector tells of a state.
pub fn looked(alloc: Global, state: &NameState, text: &str) -> Result<Looked, Fail> {
    let vector = reading(alloc, text)?;
    given(look(alloc, state, &vector), "memory")
}

// What was told, with semicolons between.
fn show_outs(alloc: Global, outs: &[Out]) -> Result<String, Fail> {
    let mut shown = String::new(alloc);
    let mut first = true;
    for out in outs {
        if !first {
            shown.push(';')?;
        }
        first = false;
        show_out(&mut shown, out)?;
    }
    Ok(shown)
}

// What a read vector tells; or the place of its refusal and why.
fn told(alloc: Global, state: &NameState, text: &str) -> Result<String, Fail> {
    match looked(alloc, state, text)? {
        Looked::Refused { at, why, .. } => show_refusal(alloc, at, why),
        Looked::Values { outs, .. } => show_outs(alloc, outs.as_slice()),
    }
}

// The state whose object a write vector makes of none.
fn present(alloc: Global, text: &str) -> Result<NameState, Fail> {
    match run(alloc, &NameState::unknown(alloc), text)? {
        Ran::Accepted(obj) => Ok(state_with(alloc, obj)),
        Ran::Refused { .. } => Err("accepted".into()),
    }
}

// Runs the vector of a row on both states, of which its texts tell in this order.
pub fn ran_as(
    rt: &impl Abort,
    alloc: Global,
    states: (&NameState, &NameState),
    line: &str,
) -> Result<u32, Fail> {
    let Some((text, first, second)) = row(line) else {
        return Ok(0);
    };
    agree(rt, text, ran(alloc, states.0, text)?.as_str(), first);
    agree(rt, text, ran(alloc, states.1, text)?.as_str(), second);
    Ok(1)
}

// The same of a vector that reads.
fn told_as(
    rt: &impl Abort,
    alloc: Global,
    states: (&NameState, &NameState),
    line: &str,
) -> Result<u32, Fail> {
    let Some((text, first, second)) = row(line) else {
        return Ok(0);
    };
    agree(rt, text, told(alloc, states.0, text)?.as_str(), first);
    agree(rt, text, told(alloc, states.1, text)?.as_str(), second);
    Ok(1)
}

// The vector; what it leaves of an absent object, and of the present one, or the refusal.
const WRITING: &str = r#"create => || => 0 exists
writefull abc => abc|| => abc|k=v1|a=1,b=2,c=3
writefull - => || => |k=v1|a=1,b=2,c=3
write 2 XY => ..XY|| => 01XY4567|k=v1|a=1,b=2,c=3
write 6 XY => ......XY|| => 012345XY|k=v1|a=1,b=2,c=3
write 7 XY => .......XY|| => 0123456XY|k=v1|a=1,b=2,c=3
write 8 XY => ........XY|| => 01234567XY|k=v1|a=1,b=2,c=3
write 10 XY => ..........XY|| => 01234567..XY|k=v1|a=1,b=2,c=3
write 0 0123456789 => 0123456789|| => 0123456789|k=v1|a=1,b=2,c=3
write 12 - => || => 01234567|k=v1|a=1,b=2,c=3
write 3 - => || => 01234567|k=v1|a=1,b=2,c=3
append ZZ => ZZ|| => 01234567ZZ|k=v1|a=1,b=2,c=3
append - => || => 01234567|k=v1|a=1,b=2,c=3
zero 2 3 => none => 01...567|k=v1|a=1,b=2,c=3
zero 4 4 => none => 0123....|k=v1|a=1,b=2,c=3
zero 4 10 => none => 0123....|k=v1|a=1,b=2,c=3
zero 8 5 => none => 01234567|k=v1|a=1,b=2,c=3
zero 20 5 => none => 01234567|k=v1|a=1,b=2,c=3
zero 0 8 => none => ........|k=v1|a=1,b=2,c=3
zero 2 0 => none => 01234567|k=v1|a=1,b=2,c=3
zero 7 4611686018427387904 => none => 0123456.|k=v1|a=1,b=2,c=3
zero 4611686018427387904 9 => none => 01234567|k=v1|a=1,b=2,c=3
truncate 4 => none => 0123|k=v1|a=1,b=2,c=3
truncate 8 => none => 01234567|k=v1|a=1,b=2,c=3
truncate 10 => none => 01234567..|k=v1|a=1,b=2,c=3
truncate 0 => none => |k=v1|a=1,b=2,c=3
remove => 0 noent => none
setxattr k v2 => |k=v2| => 01234567|k=v2|a=1,b=2,c=3
setxattr n - => |n=| => 01234567|k=v1,n=|a=1,b=2,c=3
setxattr a 0 => |a=0| => 01234567|a=0,k=v1|a=1,b=2,c=3
rmxattr k => 0 noent => 01234567||a=1,b=2,c=3
rmxattr n => 0 noent => 0 nodata
omapset d 4 => ||d=4 => 01234567|k=v1|a=1,b=2,c=3,d=4
omapset aa 9 => ||aa=9 => 01234567|k=v1|a=1,aa=9,b=2,c=3
omapset b - => ||b= => 01234567|k=v1|a=1,b=,c=3
omaprm b => 0 noent => 01234567|k=v1|a=1,c=3
omaprm z => 0 noent => 01234567|k=v1|a=1,b=2,c=3
omapclear => 0 noent => 01234567|k=v1|
# guards before a write
assert_exists ; append ! => 0 noent => 01234567!|k=v1|a=1,b=2,c=3
assert_ver 3 ; append ! => !|| => 01234567!|k=v1|a=1,b=2,c=3
assert_ver 2 ; append ! => 0 range => 0 range
assert_ver 4 ; append ! => 0 overflow => 0 overflow
cmpxattr k v1 ; append ! => 0 noent => 01234567!|k=v1|a=1,b=2,c=3
cmpxattr k v ; append ! => 0 noent => 0 canceled
cmpxattr n - ; append ! => 0 noent => 0 nodata
assert_ver 3 ; assert_exists ; remove => 1 noent => none
# of two refusals the first counts, whatever comes behind it
assert_ver 2 ; rmxattr k => 0 range => 0 range
rmxattr n ; remove ; remove => 0 noent => 0 nodata
append ! ; remove ; remove => 2 noent => 2 noent
append ! ; create => 1 exists => 1 exists
remove ; rmxattr k => 0 noent => 1 noent
writefull ab ; cmpxattr k v1 ; assert_ver 9 => 1 nodata => 2 overflow
# a guard sees the object as the vector has left it, and the version from before it
setxattr k v9 ; cmpxattr k v9 => |k=v9| => 01234567|k=v9|a=1,b=2,c=3
setxattr k v9 ; cmpxattr k v1 => 1 canceled => 1 canceled
append ! ; assert_ver 3 => !|| => 01234567!|k=v1|a=1,b=2,c=3
remove ; assert_exists => 0 noent => 1 noent
# steps see what those before them left
remove ; create => 0 noent => ||
remove ; append N => 0 noent => N||
create ; remove => none => 0 exists
writefull ab ; append cd ; write 1 XY ; truncate 6 => aXYd..|| => aXYd..|k=v1|a=1,b=2,c=3
zero 0 8 ; write 4 Q => ....Q|| => ....Q...|k=v1|a=1,b=2,c=3
omapclear ; omapset d 4 => 0 noent => 01234567|k=v1|d=4
create ; assert_exists ; setxattr k 1 ; cmpxattr k 1 ; append ab ; assert_ver 3 ; write 4 cd ; truncate 5 ; zero 0 1 ; omapset p q ; omaprm p ; omapset r s ; rmxattr k ; assert_exists ; omapset t u ; append z => .b..cz||r=s,t=u => 0 exists
assert_exists ; append a ; assert_exists ; append b ; cmpxattr k v1 ; append c ; assert_ver 3 ; append d ; assert_exists ; append e ; assert_ver 3 ; append f ; cmpxattr k v1 ; append g ; assert_exists ; create => 0 noent => 15 exists"#;

#[test]
fn writing_kinds(rt: HostRuntime) -> Result<(), Fail> {
    let alloc = rt.alloc();
    let absent = state_with(alloc, None);
    let present = present(alloc, PRESENT)?;
    let mut rows = 0u32;
    for line in WRITING.lines() {
        rows = rows.saturating_add(ran_as(&rt, alloc, (&absent, &present), line)?);
    }
    counted(&rt, rows, 64);
    Ok(())
}

// The vector; what it tells of the present object, or the refusal; and of an absent one.
const READING: &str = r#"read 0 0 => 01234567 => 0 noent
read 4 0 => 4567 => 0 noent
read 2 3 => 234 => 0 noent
read 6 10 => 67 => 0 noent
read 0 8 => 01234567 => 0 noent
read 8 4 =>  => 0 noent
read 8 0 =>  => 0 noent
read 100 4 =>  => 0 noent
read 7 4611686018427387904 => 7 => 0 noent
read 4611686018427387904 1 =>  => 0 noent
stat => 8 => 0 noent
getxattr k => v1 => 0 noent
getxattr n => 0 nodata => 0 noent
getxattr a => 0 nodata => 0 noent
listxattrs => k => 0 noent
omapget a => 1 => 0 noent
omapget k => 0 nodata => 0 noent
omaplist - 10 => a=1,b=2,c=3 => 0 noent
omaplist - 3 => a=1,b=2,c=3 => 0 noent
omaplist - 2 => a=1,b=2 => 0 noent
omaplist - 0 =>  => 0 noent
omaplist a 10 => b=2,c=3 => 0 noent
omaplist a 1 => b=2 => 0 noent
omaplist aa 10 => b=2,c=3 => 0 noent
omaplist 0 10 => a=1,b=2,c=3 => 0 noent
omaplist c 10 =>  => 0 noent
omaplist zz 4611686018427387904 =>  => 0 noent
omaplist a 0 =>  => 0 noent
# guards
assert_exists => ok => 0 noent
assert_ver 3 => ok => ok
assert_ver 2 => 0 range => 0 range
assert_ver 4 => 0 overflow => 0 overflow
cmpxattr k v1 => ok => 0 noent
cmpxattr k v12 => 0 canceled => 0 noent
cmpxattr n - => 0 nodata => 0 noent
# vectors: the outs in order, or the first refusal alone
assert_ver 3 ; stat ; read 0 2 ; listxattrs => ok;8;01;k => 1 noent
stat ; getxattr n ; assert_ver 2 => 1 nodata => 0 noent
stat ; cmpxattr k v1 ; omaplist a 1 ; assert_ver 4 => 3 overflow => 0 noent"#;

#[test]
fn reading_kinds(rt: HostRuntime) -> Result<(), Fail> {
    let alloc = rt.alloc();
    let absent = state_with(alloc, None);
    let present = present(alloc, PRESENT)?;
    let mut rows = 0u32;
    for line in READING.lines() {
        rows = rows.saturating_add(told_as(&rt, alloc, (&present, &absent), line)?);
    }
    counted(&rt, rows, 38);
    Ok(())
}
