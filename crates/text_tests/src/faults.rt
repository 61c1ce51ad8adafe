//! Wrong lines and wrong texts that were worked out by hand, each with its first fault. Where a row
//! has two faults, the one that is told comes first in the order of causes.
use crate::causes::is_wrong;
use std::alloc::Global;
use std::test::*;

// A line, and the cause for which it is wrong.
const LINES: &str = r#"fly => verb
  => words
  op 1 1 a remove => words
op => words
op 1 => words
op 1 1 => words
op 1 1 a => words
op 1 1 a  => words
op 1 1 a  writefull 61 => words
op 1 1 a remove  => words
op 1 1  remove => words
op  1 1 a remove => words
Op 1 1 a remove => verb
OP => verb
opp 1 1 a remove => verb
; 1 1 a remove => verb
op 007 1 a remove => number
op +1 1 a remove => number
op x 1 a remove => number
op - 1 a remove => number
op 4611686018427387905 1 a remove => number
op 18446744073709551617 1 a remove => number
op 0 1 a remove => client
op 257 1 a remove => client
op 65537 1 a remove => client
op 4611686018427387904 1 a remove => client
op 257 x - fly => client
op 1 01 a remove => number
op 1 00 a remove => number
op 1 4611686018427387905 a remove => number
op 1 10000000000000000000 a remove => number
op 1 - a remove => number
op 1 1 - remove => name
op 1 1 a; remove => name
op 1 1 ; remove => name
op 1 x - remove => number
op 1 1 - fly => name
op 1 1 a fly => subop
op 1 1 a ; remove => subop
op 1 1 a Remove => subop
op 1 1 a remove ; ; remove => subop
op 1 1 a remove ; => words
op 1 1 a remove ;  => words
op 1 1 a remove remove => words
op 1 1 a remove fly => words
op 1 1 a remove 1 ; fly => words
op 1 1 a writefull => words
op 1 1 a writefull ; => words
op 1 1 a writefull ; remove => words
op 1 1 a write 0 ; remove => words
op 1 1 a write ; 61 => words
op 1 1 a writefull AB => hex
op 1 1 a writefull abc => hex
op 1 1 a writefull -61 => hex
op 1 1 a writefull 6g => hex
op 1 1 a writefull -- => hex
op 1 1 a writefull 6g ; fly => hex
op 1 1 a fly ; writefull 6g => subop
op 1 1 a writefull 61 62 => words
op 1 1 a write 61 6 => hex
op 1 1 a write 0x 61 => number
op 1 1 a write -1 61 => number
op 1 1 a truncate => words
op 1 1 a truncate 4611686018427387905 => number
op 1 1 a zero 0 x => number
op 1 1 a setxattr - 61 => name
op 1 1 a setxattr k 6 => hex
op 1 1 a setxattr k => words
op 1 1 a rmxattr k; => name
op 1 1 a assert_ver v => number
op 1 1 a cmpxattr k => words
op 1 1 a snap => left-out snap
op 1 1 a clone b => left-out clone
op 1 1 a remove ; rollback => left-out rollback
op 1 1 a exec => left-out exec
op 1 1 a lock ; fly => left-out lock
op 1 1 a stat => mixed 0
op 1 1 a assert_exists => mixed 0
op 1 1 a remove ; stat => mixed 1
op 1 1 a assert_exists ; stat ; remove => mixed 2
op 1 1 a remove ; stat ; fly => subop
get 1 a remove => mixed 0
get 1 a stat ; assert_exists ; remove => mixed 2
get 1 a assert_exists ; remove => mixed 0
get 1 a => words
get => words
get x a stat => number
get 0 a stat => client
get 1 a read 0 => words
get 1 a read 0 0 0 => words
get 1 a read 00 0 => number
get 1 a read 0 0 ;read 0 0 => words
get 1 a omaplist a; 1 => name
get 1 a omaplist - x => number
get 1 a omaplist - => words
get 1 1 a stat => subop
snap a => left-out snap
rollback => left-out rollback
watch a b c => left-out watch
notify => left-out notify
unlock => left-out unlock
dedup a => left-out dedup
redirect a b => left-out redirect
snapshot a => verb
flush => words
flush - => name
flush a b => words
tryflush a; => name
begin => words
begin a => verb
begin snap a => verb
begin flush => words
begin flush - => name
begin tryflush a b => words
finish => words
evict a a => words
drain a => words
agent  => words
mode => words
mode off => mode
mode Proxy => mode
mode proxy x => words
mode forward => left-out forward
mode readforward => left-out readforward
mode readonly x => left-out readonly
time => words
time x => number
time 1 2 => words
time 4611686018427387905 => number
stop => words
stop all => verb
stop cache now => words
stop snap => verb
end => par
end x => words
par => par
par x => words
fly é => byte
op é => byte
op 257 x é => byte
op 1 1 a stat ; create ü => byte
end € => byte
put 1 1 a 61 => verb
op 1 a writefull 61 => number
op 1 1 writefull 61 => subop
op 1 1 a b create => subop
op 1 1 a create;remove => subop
op 1 1 a create ;remove => words
op 1 1 a create, remove => subop
op 1 1 a writefull hello => hex
op 1 1 a writefull "61" => hex
op 1 1 a writefull 0x61 => hex
op 1 1 a write 61 => words
op 1 1 a write 61 0 => hex
op 1 1 a setxattr user.k v => hex
op 1 1 a;b create => name
op 300 1 a create => client
op one 1 a create => number
op 1 1 a read 0 0 => mixed 0
op 1 1 a create ; read 0 0 => mixed 1
op 1 1 a exec cls method => left-out exec
op 01 1 a create => number
op 0 1 - create => client
op 0 => client
op 0 1 a fly => client
op 1 x => number
op 1 x a fly => number
op 1 1 - => name
op 1 1 - stat => name
op 1 1 a snap ; fly => left-out snap
op 1 1 a writefull 6g ; truncate x => hex
op 1 1 a truncate x ; writefull 6g => number
op 1 1 a write x 6g => number
op 1 1 a setxattr - 6 => name
op 1 1 a stat ; create ; fly => subop
op 1 1 a stat ; create ; => words
op 1 1 a fly ; writefull => subop
op 1 1 a writefull fly => hex
get 1 1 a read 0 0 => subop
get 1 a stat, => subop
get 1 a read => words
get 1 a read 0 -1 => number
get 1 a read 0 1k => number
get 1 a getxattr => words
get 1 a omaplist 10 => words
get 1 a omaplist - all => number
get 1 a writefull 61 => mixed 0
get 1 - stat => name
get 257 - stat => client
get 0 => client
get 1 a stat ; create => mixed 1
read 1 a 0 0 => verb
// a remark => verb
  # a remark => words
flush a; => name
begin drain => verb
stop the cache => verb
mode write-back => mode
mode writethrough => mode
mode none x => mode
mode forward x => left-out forward
time -1 => number
time 1.5 => number
time 1 now => words
drain now => words
snap create a => left-out snap
clone a b => left-out clone
exec é => byte"#;

#[test]
fn wrong_lines(rt: HostRuntime) -> Result<(), Fail> {
    let mut rows = 0u32;
    for row in LINES.lines() {
        let (text, words) = row.split_once(" => ").ok_or("a row")?;
        assert!(rt; is_wrong(rt.alloc(), text.as_bytes(), 1, words), "{text}");
        rows = rows.saturating_add(1);
    }
    assert_eq!(rt; rows, 208);
    Ok(())
}

// A text, its first wrong line, and the cause. A slash stands for a newline, `@stats` for 16
// readings, `@gets` for lines of 16 clients, and `@name` for the longest name.
const TEXTS: &str = r#"// # => 3 words
get 1 a stat//#/fly => 4 verb
time 5/time 4 => 2 time
time 5/time 5//time 4 x => 4 time
time 5/par/time 4/end => 3 time
time 5/par/time 6/end => 3 par
par/flush a/end => 2 par
par/drain/end => 2 par
par/par/end/end => 2 par
par/end/end => 3 par
par/get 1 a stat/fly => 1 par
get 1 a stat/par/#end/ end => 2 par
par/fly/end => 2 verb
par//get 1 a stat/#x/op 2 1 a stat/end => 5 mixed 0
par/@gets/get 1 a stat/op 17 1 a remove/end => 19 par
get 1 a assert_exists ; @stats => 1 many
get 1 a remove ; @stats => 1 many
op 1 1 a @stats ; fly => 1 subop
get 1 a/fly => 1 words
mode forward => 1 left-out forward
end/par => 1 par
par/end x/end => 2 words
time 5/time 4/fly => 2 time
time 9/#/time 0 => 3 time
time 4611686018427387904/time 4611686018427387903 => 2 time
par/@gets/get 16 b stat/get 17 a stat/end => 19 par
par/@gets/op 17 1 a stat/end => 18 mixed 0
par/@gets/get 17 a fly/end => 18 subop
par/@gets/get 257 a stat/end => 18 client
par/flush/end => 2 words
par/flush -/end => 2 name
par/mode off/end => 2 mode
par/snap a/end => 2 left-out snap
par/time x/end => 2 number
par/stop all/end => 2 verb
par/agent/fly => 1 par
par/time 0/end => 2 par
end => 1 par
par/END => 1 par
par/get 1 a stat/end/end => 4 par
get 1 a @stats ; assert_exists ; fly => 1 subop
get 1 a @stats ; stat ; => 1 words
get 1 a @stats ; getxattr - => 1 name
get 1 a @stats ; read 0 x => 1 number
get 1 a @stats ; cmpxattr k 6 => 1 hex
get 1 a @stats ; stat => 1 many
op 1 1 a @stats ; create => 1 many
op 1 1 a @stats ; stat => 1 many
op 1 1 a @stats => 1 mixed 0
get 1 a stat/get 1 a @stats ; stat/fly => 2 many
flush @namen => 1 name
flush @name/tryflush n@name => 2 name
get 0 @namen stat => 1 client"#;

// Lines of 16 clients.
const GETS: &str = r#"get 1 a stat
get 2 a stat
get 3 a stat
get 4 a stat
get 5 a stat
get 6 a stat
get 7 a stat
get 8 a stat
get 9 a stat
get 10 a stat
get 11 a stat
get 12 a stat
get 13 a stat
get 14 a stat
get 15 a stat
get 16 a stat"#;

// The text of a row.
fn text_of(alloc: Global, row: &str) -> Result<String, Fail> {
    let stats = "stat ; ".repeat(alloc, 15)?;
    let name = "n".repeat(alloc, 255)?;
    let text = row.replace(alloc, "@stats", "@fifteen stat")?;
    let text = text.replace(alloc, "@fifteen ", stats.as_str())?;
    let text = text.replace(alloc, "@gets", GETS)?;
    let text = text.replace(alloc, "@name", name.as_str())?;
    Ok(text.replace(alloc, '/', "\n")?)
}

#[test]
fn wrong_texts(rt: HostRuntime) -> Result<(), Fail> {
    let mut rows = 0u32;
    for row in TEXTS.lines() {
        let (text, fault) = row.split_once(" => ").ok_or("a row")?;
        let (line, words) = fault.split_once(' ').ok_or("a fault")?;
        let line = line.parse::<u32>().ok().ok_or("a line")?;
        let text = text_of(rt.alloc(), text)?;
        assert!(rt; is_wrong(rt.alloc(), text.as_bytes(), line, words), "{row}");
        rows = rows.saturating_add(1);
    }
    assert_eq!(rt; rows, 53);
    Ok(())
}

// Lines whose bytes are more than a vector may carry; `@bytes` stands for them.
const HEAVY: &str = r#"op 1 1 a writefull @bytes => heavy
op 1 1 a create ; append @bytes => heavy
op 1 1 a setxattr k @bytes => heavy
get 1 a writefull @bytes => heavy
op 1 1 a append @bytes ; stat => mixed 1"#;

#[test]
fn heavy_vectors(rt: HostRuntime) -> Result<(), Fail> {
    let bytes = "0".repeat(rt.alloc(), 4096)?;
    let bytes = bytes.repeat(rt.alloc(), 8193)?;
    let mut rows = 0u32;
    for row in HEAVY.lines() {
        let (text, words) = row.split_once(" => ").ok_or("a row")?;
        let text = text.replace(rt.alloc(), "@bytes", bytes.as_str())?;
        assert!(rt; is_wrong(rt.alloc(), text.as_bytes(), 1, words), "{row}");
        rows = rows.saturating_add(1);
    }
    assert_eq!(rt; rows, 5);
    Ok(())
}

#[test]
fn wrong_bytes(rt: HostRuntime) -> Result<(), Fail> {
    let alloc = rt.alloc();
    assert!(rt; is_wrong(alloc, b"get 1 a stat\r\n", 1, "byte"));
    assert!(rt; is_wrong(alloc, b"get 1 a\tstat\n", 1, "byte"));
    assert!(rt; is_wrong(alloc, b"fly \xc3\xa9", 1, "byte"));
    assert!(rt; is_wrong(alloc, b"\x00", 1, "byte"));
    assert!(rt; is_wrong(alloc, b"op 1 1 a\x7f remove", 1, "byte"));
    assert!(rt; is_wrong(alloc, b"#\xff\nget 1 a\nfly", 2, "words"));
    Ok(())
}
