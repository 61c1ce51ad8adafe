//! Each limit at its last allowed and its first refused value.
use crate::kinds::ran_as;
use crate::tools::{bytes, counted, empty_object, filled, given, name, state_with};
use obj_model::{NameState, Obj, PairMap};
use std::alloc::Global;
use std::test::Fail;

// Puts the key of this number.
fn put_entry(alloc: Global, table: &mut PairMap, at: u32) -> Result<(), Fail> {
    let key = name(alloc, format!(in alloc; "k{at}")?.as_str())?;
    let value = bytes(alloc, "v")?;
    given(table.insert(key, value), "memory")?;
    Ok(())
}

// Puts so many entries, of the keys k0, k1 and so on.
fn fill(alloc: Global, table: &mut PairMap, count: u32) -> Result<(), Fail> {
    for at in 0..count {
        put_entry(alloc, table, at)?;
    }
    Ok(())
}

// Gives an object a body of so many bytes, so many attributes and so many entries.
fn fill_object(alloc: Global, obj: &mut Obj, size: u64, attrs: u32, omap: u32) -> Result<(), Fail> {
    obj.body = filled(alloc, b'x', size)?;
    fill(alloc, &mut obj.attrs, attrs)?;
    fill(alloc, &mut obj.omap, omap)
}

// A state whose object has these.
fn state_of(alloc: Global, size: u64, attrs: u32, omap: u32) -> Result<NameState, Fail> {
    let mut obj = empty_object(alloc);
    fill_object(alloc, &mut obj, size, attrs, omap)?;
    Ok(state_with(alloc, Some(obj)))
}

// The vector; what it leaves of an object with 1,048,575 bytes, and of an absent one.
const BODIES: &str = r#"writefull *1048576 => #1048576|| => #1048576||
writefull *1048577 => 0 toobig 1048576 1048577 => 0 toobig 1048576 1048577
append x => #1048576|| => x||
append xx => 0 toobig 1048576 1048577 => xx||
append x ; append - => #1048576|| => x||
append x ; append x => 1 toobig 1048576 1048577 => xx||
write 1048575 x => #1048576|| => #1048576||
write 1048575 xx => 0 toobig 1048576 1048577 => 0 toobig 1048576 1048577
write 1048576 x => 0 toobig 1048576 1048577 => 0 toobig 1048576 1048577
write 1048576 - => #1048575|| => ||
write 1048577 - => 0 toobig 1048576 1048577 => 0 toobig 1048576 1048577
write 4611686018427387904 - => 0 toobig 1048576 4611686018427387904 => 0 toobig 1048576 4611686018427387904
write 4611686018427387904 xy => 0 toobig 1048576 4611686018427387906 => 0 toobig 1048576 4611686018427387906
truncate 1048576 => #1048576|| => none
truncate 1048577 => 0 toobig 1048576 1048577 => none
truncate 4611686018427387904 => 0 toobig 1048576 4611686018427387904 => none
create ; truncate 1048577 => 0 exists => 1 toobig 1048576 1048577
zero 1048570 4611686018427387904 => #1048575|| => none"#;

#[test]
fn bodies(rt: HostRuntime) -> Result<(), Fail> {
    let alloc = rt.alloc();
    let full = state_of(alloc, 1_048_575, 0, 0)?;
    let absent = state_with(alloc, None);
    let mut rows = 0u32;
    for line in BODIES.lines() {
        rows = rows.saturating_add(ran_as(&rt, alloc, (&full, &absent), line)?);
    }
    counted(&rt, rows, 18);
    Ok(())
}

// The vector; what it leaves of 63 attributes and 1,023 entries, and of 64 and 1,024.
const TABLES: &str = r#"setxattr new v => |#64|#1023 => 0 toobig 64 65
setxattr k0 new => |#63|#1023 => |#64|#1024
setxattr a v ; setxattr b v => 1 toobig 64 65 => 0 toobig 64 65
rmxattr k0 ; setxattr new v => |#63|#1023 => |#64|#1024
setxattr k0 *4096 => |#63|#1023 => |#64|#1024
setxattr k0 *4097 => 0 toobig 4096 4097 => 0 toobig 4096 4097
# too long a value comes before too many keys
setxattr new *4097 => 0 toobig 4096 4097 => 0 toobig 4096 4097
omapset new v => |#63|#1024 => 0 toobig 1024 1025
omapset k0 new => |#63|#1023 => |#64|#1024
omapset a v ; omapset b v => 1 toobig 1024 1025 => 0 toobig 1024 1025
omaprm k7 ; omapset new v => |#63|#1023 => |#64|#1024
omapset k0 *4096 => |#63|#1023 => |#64|#1024
omapset new *4097 => 0 toobig 4096 4097 => 0 toobig 4096 4097
omapclear ; omapset new v => |#63|new=v => |#64|new=v"#;

#[test]
fn tables(rt: HostRuntime) -> Result<(), Fail> {
    let alloc = rt.alloc();
    let room = state_of(alloc, 0, 63, 1_023)?;
    let full = state_of(alloc, 0, 64, 1_024)?;
    let mut rows = 0u32;
    for line in TABLES.lines() {
        rows = rows.saturating_add(ran_as(&rt, alloc, (&room, &full), line)?);
    }
    counted(&rt, rows, 14);
    Ok(())
}
