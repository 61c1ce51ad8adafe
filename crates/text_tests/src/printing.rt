//! Lines that are printed and read back.
use script_lang::{Text, print_line, read_script};
use std::alloc::Global;
use std::test::*;

// Each form of a line and each kind of sub-operation, and no byte more than their spellings.
const KINDS: &str = r#"op 1 1 a create ; writefull 61 ; write 4611686018427387904 - ; append 00ff
op 1 2 a zero 0 4611686018427387904 ; truncate 7 ; setxattr k 61 ; rmxattr k ; remove
op 1 3 a assert_exists ; assert_ver 0 ; cmpxattr k - ; omapset k - ; omaprm k ; omapclear
get 1 a read 0 1 ; stat ; getxattr k ; listxattrs ; omapget k ; omaplist - 9 ; omaplist k 0
get 256 a assert_exists ; cmpxattr k 61
flush a
tryflush a
begin flush a
begin tryflush flush
finish a
evict a
drain
agent
mode writeback
mode readproxy
mode proxy
time 0
time 4611686018427387904
stop cache
stop base
par
op 1 4 a remove
end
par
end
"#;

// The text with each of its lines read and printed again.
fn printed(alloc: Global, text: &str) -> Result<Text, Fail> {
    let lines = read_script(alloc, text.as_bytes()).ok().ok_or("a script")?;
    let mut printed = Text::new(alloc);
    for numbered in &lines {
        print_line(&mut printed, &numbered.line).ok().ok_or("room")?;
        printed.push("\n").ok().ok_or("room")?;
    }
    Ok(printed)
}

#[test]
fn all_kinds(rt: HostRuntime) -> Result<(), Fail> {
    let text = printed(rt.alloc(), KINDS)?;
    assert_eq!(rt; text.as_slice(), KINDS.as_bytes());
    Ok(())
}

#[test]
fn what_is_passed_over_goes(rt: HostRuntime) -> Result<(), Fail> {
    let text = printed(rt.alloc(), "# a remark\n\nflush a\n#\nget 1 a stat")?;
    assert_eq!(rt; text.as_slice(), b"flush a\nget 1 a stat\n".as_slice());
    Ok(())
}

#[test]
fn an_empty_block(rt: HostRuntime) -> Result<(), Fail> {
    let text = printed(rt.alloc(), "par\nend")?;
    assert_eq!(rt; text.as_slice(), b"par\nend\n".as_slice());
    Ok(())
}
