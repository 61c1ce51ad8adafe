//! States in chunks: where they stand, what they bring, and what a gather makes of them.
use crate::tools::{
    agree, counted, empty_object, filled, given, name, number, row, show_bytes, show_obj, some,
    words,
};
use copy_chunk::{Added, Chunk, Cursor, Gather, Part, chunk_of};
use obj_model::{Kept, KeptList, Name, NameState, Obj, PairMap, Reply};
use std::alloc::Global;
use std::fmt::Write;
use std::process::Abort;
use std::test::Fail;

// Puts the key of this number, with a value of so many bytes.
fn put_entry(alloc: Global, table: &mut PairMap, at: u64, size: u64) -> Result<(), Fail> {
    let key = name(alloc, format!(in alloc; "k{at}")?.as_str())?;
    let value = filled(alloc, b'v', size)?;
    given(table.insert(key, value), "memory")?;
    Ok(())
}

// Puts the keys k10, k11 and so on, in the words NUMBER*LENGTH; `-` is none.
fn fill_table(alloc: Global, table: &mut PairMap, word: &str) -> Result<(), Fail> {
    let Some((count, size)) = word.split_once('*') else {
        return Ok(());
    };
    let size = number(size)?;
    for at in 0..number(count)? {
        put_entry(alloc, table, at.saturating_add(10), size)?;
    }
    Ok(())
}

// Gives an object what the words BODY ATTRIBUTES OMAP say.
fn fill_object(alloc: Global, obj: &mut Obj, size: &str, tables: &str) -> Result<(), Fail> {
    let (attrs, omap) = words(tables);
    obj.body = filled(alloc, b'x', number(size)?)?;
    fill_table(alloc, &mut obj.attrs, attrs)?;
    fill_table(alloc, &mut obj.omap, omap)
}

// An object in the words BODY ATTRIBUTES OMAP, or `none`.
fn object(alloc: Global, text: &str) -> Result<Option<Obj>, Fail> {
    let Some((size, tables)) = text.split_once(' ') else {
        return Ok(None);
    };
    let mut obj = empty_object(alloc);
    fill_object(alloc, &mut obj, size, tables)?;
    Ok(Some(obj))
}

// The request that each state keeps.
fn kept(alloc: Global) -> Result<KeptList, Fail> {
    let kept = Kept {
        client: 7,
        tid: 2,
        reply: Reply::Done { ver: 3 },
    };
    Ok(KeptList::from_vec(vec![in alloc; kept]?))
}

// A state of version 3 with this object and one kept request.
fn state(alloc: Global, text: &str) -> Result<NameState, Fail> {
    let seen = kept(alloc)?;
    Ok(NameState {
        ver: 3,
        seq: 5,
        obj: object(alloc, text)?,
        seen,
    })
}

// The key behind a colon, if there is one, and what stands in front of it.
fn keyed(alloc: Global, word: &str) -> Result<(&str, Option<Name>), Fail> {
    match word.split_once(':') {
        None => Ok((word, None)),
        Some((kind, key)) => Ok((kind, Some(name(alloc, key)?))),
    }
}

// A place: `head`, `bodyN`, `attrs`, `attrs:KEY`, `omap`, `omap:KEY` or `seen`.
fn place(alloc: Global, word: &str) -> Result<Cursor, Fail> {
    if let Some(off) = word.strip_prefix("body") {
        return Ok(Cursor::Body(number(off)?));
    }
    let (kind, key) = keyed(alloc, word)?;
    match kind {
        "head" => Ok(Cursor::Head),
        "attrs" => Ok(Cursor::Attrs(key)),
        "omap" => Ok(Cursor::Omap(key)),
        "seen" => Ok(Cursor::Seen),
        _ => Err("a place".into()),
    }
}

// The name of a table, with the key behind which a place is.
fn show_key(text: &mut String, table: &str, key: &Option<Name>) -> Result<(), Fail> {
    text.push_str(table)?;
    if let Some(key) = key {
        text.push(':')?;
        show_bytes(text, key.bytes())?;
    }
    Ok(())
}

// A place, as above.
fn show_place(text: &mut String, at: &Cursor) -> Result<(), Fail> {
    match at {
        Cursor::Head => text.push_str("head")?,
        Cursor::Body(off) => write!(text, "body{off}")?,
        Cursor::Attrs(key) => show_key(text, "attrs", key)?,
        Cursor::Omap(key) => show_key(text, "omap", key)?,
        Cursor::Seen => text.push_str("seen")?,
    }
    Ok(())
}

// What a chunk brings: the counts, or how much.
fn show_part(text: &mut String, part: &Part) -> Result<(), Fail> {
    match part {
        Part::Head { ver, seq, present } => {
            let what = if *present { "object" } else { "none" };
            write!(text, "v{ver} @{seq} {what}")?;
        }
        Part::Body(bytes) => write!(text, "{} bytes", bytes.as_slice().len())?,
        Part::Pairs(pairs) => write!(text, "{} pairs", pairs.as_slice().len())?,
        Part::Seen(list) => write!(text, "{} kept", list.as_slice().len())?,
    }
    Ok(())
}

// The place of the next chunk, if there is one.
fn show_next(text: &mut String, next: &Option<Cursor>) -> Result<(), Fail> {
    if let Some(next) = next {
        text.push_str(", then ")?;
        show_place(text, next)?;
    }
    Ok(())
}

// A chunk: what it brings, and the place of the next one.
fn show_chunk(text: &mut String, chunk: &Option<Chunk>) -> Result<(), Fail> {
    let Some(chunk) = chunk else {
        text.push_str("no chunk")?;
        return Ok(());
    };
    show_part(text, &chunk.part)?;
    show_next(text, &chunk.next)
}

// The state; a place; the chunk there. A pair of 4,093 bytes under a key of 3 weighs 4,096 bytes.
const PLACES: &str = r#"none => head => v3 @5 none, then seen
none => body0 => no chunk
none => attrs => no chunk
none => omap => no chunk
none => seen => 1 kept
0 - - => head => v3 @5 object, then seen
0 - - => body0 => no chunk
0 - - => attrs => no chunk
0 - - => omap => no chunk
1 - - => head => v3 @5 object, then body0
1 - - => body0 => 1 bytes, then seen
1 - - => body7 => no chunk
65536 - - => body0 => 65536 bytes, then seen
65536 - - => body7 => no chunk
65536 - - => body65535 => no chunk
65536 - - => body65536 => no chunk
65537 - - => body0 => 65536 bytes, then body65536
65537 - - => body65536 => 1 bytes, then seen
65537 - - => body131072 => no chunk
9 1*1 1*1 => body0 => 9 bytes, then attrs
0 1*1 1*1 => head => v3 @5 object, then attrs
0 1*1 1*1 => attrs => 1 pairs, then omap
0 1*1 1*1 => omap => 1 pairs, then seen
0 - 1*1 => head => v3 @5 object, then omap
# sixteen pairs of 4,096 bytes are one chunk, and one byte more is two
0 16*4093 - => attrs => 16 pairs, then seen
0 16*4093 - => attrs:k25 => no chunk
0 17*4093 - => attrs => 16 pairs, then attrs:k25
0 17*4093 - => attrs:k25 => 1 pairs, then seen
0 17*4093 - => attrs:k24 => no chunk
0 17*4093 - => attrs:k26 => no chunk
0 17*4093 - => attrs:a => no chunk
0 17*4093 - => attrs:z => no chunk
0 17*4093 - => omap:k25 => no chunk
0 16*4094 - => attrs => 15 pairs, then attrs:k24
0 - 16*4096 => omap => 15 pairs, then omap:k24
0 - 16*4096 => omap:k24 => 1 pairs, then seen
0 - 33*4093 => omap:k25 => 16 pairs, then omap:k41
0 - 33*4093 => omap:k41 => 1 pairs, then seen"#;

// The chunk of a state at a place.
fn cut(alloc: Global, state: &NameState, at: &Cursor) -> Result<Option<Chunk>, Fail> {
    given(chunk_of(alloc, state, at), "memory")
}

// What the chunk of a state at the place of a word is.
fn told(alloc: Global, state: &NameState, word: &str) -> Result<String, Fail> {
    let at = place(alloc, word)?;
    let chunk = cut(alloc, state, &at)?;
    let mut text = String::new(alloc);
    show_chunk(&mut text, &chunk)?;
    Ok(text)
}

// One row: the chunk at a place.
fn place_holds(rt: &impl Abort, alloc: Global, line: &str) -> Result<u32, Fail> {
    let Some((text, at, expected)) = row(line) else {
        return Ok(0);
    };
    let found = told(alloc, &state(alloc, text)?, at)?;
    agree(rt, line, found.as_str(), expected);
    Ok(1)
}

#[test]
fn places(rt: HostRuntime) -> Result<(), Fail> {
    let alloc = rt.alloc();
    let mut rows = 0u32;
    for line in PLACES.lines() {
        rows = rows.saturating_add(place_holds(&rt, alloc, line)?);
    }
    counted(&rt, rows, 38);
    Ok(())
}

// What a state has, in a few words.
fn show_state(alloc: Global, state: &NameState) -> Result<String, Fail> {
    let obj = show_obj(alloc, &state.obj)?;
    let kept = state.seen.as_slice().len();
    let text = format!(in alloc; "v{} @{} {obj} {kept} kept", state.ver, state.seq)?;
    Ok(text)
}

// The chunk that a gather wants, whose place is told; none where it wants none.
fn wanted(
    alloc: Global,
    places: &mut String,
    gather: &Gather,
    state: &NameState,
) -> Result<Option<Chunk>, Fail> {
    let Some(at) = gather.wants() else {
        return Ok(None);
    };
    show_place(places, at)?;
    let chunk = cut(alloc, state, at)?;
    Ok(Some(some(chunk, "a chunk")?))
}

// What comes of a chunk that is added.
fn add(gather: &mut Gather, chunk: Chunk) -> Result<Added, Fail> {
    given(gather.add(chunk), "memory")
}

// The word for it, behind a place.
fn word_of(added: Added) -> &'static str {
    match added {
        Added::Taken => " ",
        Added::Ignored => " ignored ",
        Added::Unfit => " unfit ",
    }
}

// Adds the chunks that a gather wants, one after another.
fn run(
    alloc: Global,
    places: &mut String,
    gather: &mut Gather,
    state: &NameState,
) -> Result<(), Fail> {
    for _ in 0..100u32 {
        match wanted(alloc, places, gather, state)? {
            Some(chunk) => places.push_str(word_of(add(gather, chunk)?))?,
            None => break,
        }
    }
    Ok(())
}

// The state that a gather of all chunks of a state finishes as; their places in order.
fn gathered(alloc: Global, places: &mut String, state: &NameState) -> Result<NameState, Fail> {
    let mut gather = Gather::new(alloc);
    run(alloc, places, &mut gather, state)?;
    given(gather.finish(), "a whole state")
}

// The state; the places of its chunks; what they are gathered to.
const WHOLES: &str = r#"none => head seen => v3 @5 none 1 kept
0 - - => head seen => v3 @5 || 1 kept
65536 - - => head body0 seen => v3 @5 #65536|| 1 kept
65537 - - => head body0 body65536 seen => v3 @5 #65537|| 1 kept
2 1*2 1*1 => head body0 attrs omap seen => v3 @5 xx|k10=vv|k10=v 1 kept
0 64*4093 - => head attrs attrs:k25 attrs:k41 attrs:k57 seen => v3 @5 |#64| 1 kept
65537 16*4093 17*4093 => head body0 body65536 attrs omap omap:k25 seen => v3 @5 #65537|#16|#17 1 kept"#;

// One row: the places, and what is gathered.
fn whole_holds(rt: &impl Abort, alloc: Global, line: &str) -> Result<u32, Fail> {
    let Some((text, places, expected)) = row(line) else {
        return Ok(0);
    };
    let mut found = String::new(alloc);
    let whole = gathered(alloc, &mut found, &state(alloc, text)?)?;
    agree(rt, line, found.as_str().trim_end(), places);
    agree(rt, line, show_state(alloc, &whole)?.as_str(), expected);
    Ok(1)
}

#[test]
fn wholes(rt: HostRuntime) -> Result<(), Fail> {
    let mut rows = 0u32;
    for line in WHOLES.lines() {
        rows = rows.saturating_add(whole_holds(&rt, rt.alloc(), line)?);
    }
    counted(&rt, rows, 7);
    Ok(())
}
