//! Scripts that were worked out by hand: what they say, and their limits.
use crate::causes::is_wrong;
use obj_model::SubOp;
use script_lang::{Line, Numbered, read_script};
use std::alloc::Global;
use std::test::*;

// The number of commands of a script.
pub(crate) fn count_of(alloc: Global, text: &[u8]) -> Option<usize> {
    match read_script(alloc, text) {
        Ok(lines) => Some(lines.len()),
        Err(_) => None,
    }
}

// Whether the line is a request of these fields, with a `writefull` of these bytes.
fn is_op(line: &Numbered, number: u32, client: u16, tid: u64, name: &[u8], bytes: &[u8]) -> bool {
    let Line::Op(req) = &line.line else {
        return false;
    };
    let same_body = match req.vector.ops() {
        [SubOp::WriteFull { bytes: body }] => body.as_slice() == bytes,
        _ => false,
    };
    let same_id = line.number == number && req.client == client && req.tid == tid;
    same_id && same_body && req.name.bytes() == name
}

#[test]
fn commands(rt: HostRuntime) -> Result<(), Fail> {
    let text = b"# from the first line on

op 256 4611686018427387904 a writefull 00ff
#\xff
op 10 7 ~! writefull -
get 9 b read 0 4611686018427387904";
    match read_script(rt.alloc(), text) {
        Ok(lines) => match lines.as_slice() {
            [first, second, third] => {
                let tid = 4_611_686_018_427_387_904;
                assert!(rt; is_op(first, 3, 256, tid, b"a", &[0, 255]));
                assert!(rt; is_op(second, 5, 10, 7, b"~!", &[]));
                assert!(rt;
                    third.number == 6 && matches!(&third.line, Line::Get { client: 9, .. })
                );
            }
            _ => assert!(rt; false, "three commands"),
        },
        Err(_) => assert!(rt; false, "a script"),
    }
    Ok(())
}

#[test]
fn numbering(rt: HostRuntime) -> Result<(), Fail> {
    let cases: [(&[u8], usize); 6] = [
        (b"", 0),
        (b"\n", 0),
        (b"# \xff\0\n\n#", 0),
        (b"get 1 a read 0 0", 1),
        (b"get 1 a read 0 0\n", 1),
        (b"get 1 a read 0 0\n\nget 1 a read 0 0", 2),
    ];
    for (place, (text, count)) in cases.iter().enumerate() {
        assert_eq!(rt; count_of(rt.alloc(), text), Some(*count), "case {place}");
    }
    Ok(())
}

#[test]
fn most_lines(rt: HostRuntime) -> Result<(), Fail> {
    let mut text = vec![in rt.alloc(); b'\n'; 1_000_000]?;
    assert_eq!(rt; count_of(rt.alloc(), text.as_slice()), Some(0));
    text[0] = b'?';
    text[1] = b'#';
    text.push(b'\n')?;
    assert!(rt; is_wrong(rt.alloc(), text.as_slice(), 1, "verb"));
    text.push(b'\n')?;
    text.push(b'#')?;
    assert!(rt; is_wrong(rt.alloc(), text.as_slice(), 0, "lines"));
    Ok(())
}
