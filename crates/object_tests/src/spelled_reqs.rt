//! Requests whose bytes, and what they spell, were worked out by hand: each kind of sub-operation.
use crate::spelled::{Kind, hex, is_whole, rows_hold};
use crate::tools::{given, holds, name, sides, vector};
use obj_model::Req;
use req_codec::write_req;
use std::alloc::Global;
use std::process::Abort;
use std::test::Fail;

// The client 1, the tid 2^62 and the name a.
const ASKED: &str = "0001 4000000000000000 01 61 ";

// A vector, and its bytes: the number of its sub-operations, and these.
const VECTORS: &str = "create => 01 01
writefull abc => 01 02 00000003 616263
write 5 x => 01 03 0000000000000005 00000001 78
append - => 01 04 00000000
zero 1 2 => 01 05 0000000000000001 0000000000000002
truncate 258 => 01 06 0000000000000102
remove => 01 07
setxattr k v1 => 01 08 01 6b 00000002 7631
rmxattr key => 01 09 03 6b6579
omapset k v => 01 0a 01 6b 00000001 76
omaprm k => 01 0b 01 6b
omapclear => 01 0c
assert_exists => 01 0d
assert_ver 4611686018427387904 => 01 0e 4000000000000000
cmpxattr k - => 01 0f 01 6b 00000000
read 0 4611686018427387904 => 01 10 0000000000000000 4000000000000000
stat => 01 11
getxattr k => 01 12 01 6b
listxattrs => 01 13
omapget k => 01 14 01 6b
omaplist - 3 => 01 15 00 0000000000000003
omaplist k 3 => 01 15 01 01 6b 0000000000000003
assert_exists ; create ; remove => 03 0d 01 07
assert_exists ; stat => 02 0d 11";

// The bytes of a request of a vector with these bytes.
fn asked(alloc: Global, spelled: &str) -> Result<Vec<u8>, Fail> {
    hex(alloc, format!(in alloc; "{}{spelled}", ASKED)?.as_str())
}

// The bytes that a request of a vector is written as.
fn written(alloc: Global, text: &str) -> Result<Vec<u8>, Fail> {
    let name = name(alloc, "a")?;
    let vector = vector(alloc, text)?;
    let req = Req {
        client: 1,
        tid: 4_611_686_018_427_387_904,
        name,
        vector,
    };
    given(write_req(alloc, &req), "memory")
}

// One row.
fn vector_holds(rt: &impl Abort, alloc: Global, row: &str) -> Result<(), Fail> {
    let (text, spelled) = sides(row);
    let bytes = asked(alloc, spelled)?;
    let written = written(alloc, text)?;
    holds(rt, row, written.as_slice() == bytes.as_slice());
    is_whole(rt, alloc, Kind::Req, bytes.as_slice())
}

#[test]
fn worked_requests(rt: HostRuntime) -> Result<(), Fail> {
    for row in VECTORS.lines() {
        vector_holds(&rt, rt.alloc(), row)?;
    }
    Ok(())
}

const REQS: &str = "y 0100 0000000000000000 02 7e21 01 01
n 0000 0000000000000000 01 61 01 01, client 0
n 0101 0000000000000000 01 61 01 01, client 257
n 0001 4000000000000001 01 61 01 01, a tid above 2^62
n 0001 0000000000000000 00 01 01, no name
n 0001 0000000000000000 01 3b 01 01, a semicolon
n 0001 0000000000000000 01 61 00, no sub-operation
n 0001 0000000000000000 01 61 01 00, tag 0
n 0001 0000000000000000 01 61 01 16, tag 22
n 0001 0000000000000000 01 61 01 ff, tag 255
n 0001 0000000000000000 01 61 02 01 11, a write and a reading
n 0001 0000000000000000 01 61 02 11 0c, a reading and a write
n 0001 0000000000000000 01 61 02 01, a second that is not there
n 0001 0000000000000000 01 61 01 06 4000000000000001, a size above 2^62
n 0001 0000000000000000 01 61 01 10 0000000000000000 4000000000000001, a length above 2^62
n 0001 0000000000000000 01 61 01 09 01 2d, a single dash
n 0001 0000000000000000 01 61 01 15 02 01 6b 0000000000000003, no tag of a key to go on from
n 0001 0000000000000000 01 61 01 15 01 00 0000000000000003, a key without bytes
n 0001 0000000000000000 01 61 01 15 6b 0000000000000003, a key without its tag
n 0001 0000000000000000 01 61 01 04 01000001 00, bytes that are not there
y 0001 0000000000000000 01 61 10 01010101010101010101010101010101, 16 sub-operations
n 0001 0000000000000000 01 61 11 0101010101010101010101010101010101, 17 sub-operations";

#[test]
fn other_requests(rt: HostRuntime) -> Result<(), Fail> {
    rows_hold(&rt, rt.alloc(), Kind::Req, REQS)
}
