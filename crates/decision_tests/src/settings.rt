//! Pool values: the ends of each range, keys given twice, depth, length and what is told first.
use crate::tools::DEFAULTS;
use obj_model::{HitType, Mode, PoolValues};
use settings_json::{SettingsFault, read_values};
use std::alloc::Global;
use std::process::Abort;
use std::test::Fail;
use test_rows::Row;

// What is told, as the program prints it: `notjson`, `unknown KEY`, `bad KEY`, or nothing.
fn told(alloc: Global, bytes: &[u8]) -> Result<String, Fail> {
    let (word, key) = match read_values(alloc, bytes) {
        Ok(_) => return Ok(String::new(alloc)),
        Err(SettingsFault::NotJson) => return Ok(String::from_str(alloc, "notjson")?),
        Err(SettingsFault::NoMemory) => return Ok(String::from_str(alloc, "nomemory")?),
        Err(SettingsFault::Unknown(key)) => ("unknown", key),
        Err(SettingsFault::BadValue(key)) => ("bad", key),
    };
    let key = std::str::from_utf8(key.as_slice())?;
    Ok(format!(in alloc; "{word} {key}")?)
}

// A text and what is told of it, on each line.
const TOLD: &str = r#"{} => 
 { }  => 
  => notjson
[] => notjson
null => notjson
7 => notjson
{} {} => notjson
{"hit_set_count":5,} => notjson
{hit_set_count:5} => notjson
{"a":"\ud800"} => notjson
{"hit_set_count":1e400} => notjson
{"hit_set_count":05} => notjson
{"hit_set_count":+5} => notjson
{"hit_set_count":99} => bad hit_set_count
{"a":1,"hit_set_count":99} => unknown a
{"hit_set_count":99,"a":1} => unknown a
{"hit_set_count":99,"z":1} => bad hit_set_count
{"b":1,"a":1,"B":1} => unknown B
{"":1} => unknown 
{"Hit_set_count":5} => unknown Hit_set_count
{"hit_set_count ":5} => unknown hit_set_count 
{"hit_set_count":1.0} => bad hit_set_count
{"hit_set_count":1e0} => bad hit_set_count
{"hit_set_fpp":1e4} => bad hit_set_fpp
{"hit_set_count":-0} => bad hit_set_count
{"hit_set_count":-1} => bad hit_set_count
{"hit_set_count":4294967300} => bad hit_set_count
{"hit_set_count":"5"} => bad hit_set_count
{"hit_set_count":null} => bad hit_set_count
{"hit_set_count":true} => bad hit_set_count
{"hit_set_count":[5]} => bad hit_set_count
{"hit_set_count":99,"hit_set_count":5} => 
{"cache_mode":"forward"} => bad cache_mode
{"cache_mode":"Proxy"} => bad cache_mode
{"cache_mode":0} => bad cache_mode
{"hit_set_type":"explicit"} => bad hit_set_type
{"hit_set_type":["bloom"]} => bad hit_set_type
{"hit_set_fpp":0} => bad hit_set_fpp
{"hit_set_fpp":999} => bad hit_set_fpp
{"hit_set_fpp":10001} => bad hit_set_fpp
{"hit_set_fpp":50001} => bad hit_set_fpp
{"hit_set_fpp":0.05} => bad hit_set_fpp
{"hit_set_count":0.0} => bad hit_set_count
{"hit_set_count":4,"hit_set_count":4.0} => bad hit_set_count
{"hit_set_count":"x","hit_set_count":4} => "#;

fn tells(rt: &impl Abort, alloc: Global, bytes: &[u8], want: &str) -> Result<(), Fail> {
    let told = told(alloc, bytes)?;
    assert_eq!(rt; told.as_str(), want);
    Ok(())
}

#[test]
fn what_is_told(rt: HostRuntime) -> Result<(), Fail> {
    let alloc = rt.alloc();
    for line in TOLD.lines() {
        let (text, want) = line.split_once(" => ").ok_or("a row")?;
        tells(&rt, alloc, text.as_bytes(), want)?;
    }
    tells(&rt, alloc, b"\xef\xbb\xbf{}", "notjson")?;
    tells(&rt, alloc, b"{\"\xff\":1}", "notjson")?;
    tells(&rt, alloc, b"{\"\\u0061\\n\":1}", "unknown a\n")?;
    tells(&rt, alloc, b"{\"\xc3\xa9\":1,\"z\":1}", "unknown z")?;
    tells(&rt, alloc, b"{\"\xc3\xa9\":1}", "unknown \u{e9}")?;
    Ok(())
}

// The keys of numbers: the least and the greatest that each takes, and what it is where it is not
// given.
const RANGES: &str = "\
hit_set_count 0 64 4
hit_set_period 1 4294967295 1200
hit_set_fpp 1000 50000 50000
hit_set_grade_decay_rate 0 100 20
hit_set_search_last_n 0 64 1
target_max_bytes 0 4611686018427387904 0
target_max_objects 0 4611686018427387904 0
cache_target_dirty_ratio 0 1000000 400000
cache_target_dirty_high_ratio 0 1000000 600000
cache_target_full_ratio 0 1000000 800000
cache_min_flush_age 0 4294967295 0
cache_min_evict_age 0 4294967295 0
min_read_recency_for_promote 0 65 1
min_write_recency_for_promote 0 65 1";

// The numbers of these keys.
fn numbers(values: &PoolValues) -> [u64; 14] {
    [
        u64::from(values.hit_set_count),
        values.hit_set_period,
        u64::from(values.hit_set_fpp),
        u64::from(values.hit_set_grade_decay_rate),
        u64::from(values.hit_set_search_last_n),
        values.target_max_bytes,
        values.target_max_objects,
        values.cache_target_dirty_ratio,
        values.cache_target_dirty_high_ratio,
        values.cache_target_full_ratio,
        values.cache_min_flush_age,
        values.cache_min_evict_age,
        u64::from(values.min_read_recency_for_promote),
        u64::from(values.min_write_recency_for_promote),
    ]
}

// The key takes this number, and every other key has its default.
fn takes(rt: &impl Abort, alloc: Global, key: &str, value: u64) -> Result<(), Fail> {
    let text = format!(in alloc; "{{\"{key}\":{value}}}")?;
    let values = read_values(alloc, text.as_bytes()).ok().ok_or("values")?;
    for (line, number) in RANGES.lines().zip(&numbers(&values)) {
        let mut row = Row::new(line);
        let set = row.word() == key;
        let (_, _) = (row.number()?, row.number()?);
        let usual = row.number()?;
        assert_eq!(rt; *number, if set { value } else { usual }, "{key} {value}");
    }
    Ok(())
}

// The key does not take this number.
fn refuses(rt: &impl Abort, alloc: Global, key: &str, value: u64) -> Result<(), Fail> {
    let text = format!(in alloc; "{{\"{key}\":{value}}}")?;
    let want = format!(in alloc; "bad {key}")?;
    tells(rt, alloc, text.as_bytes(), want.as_str())
}

#[test]
fn the_ends_of_each_range(rt: HostRuntime) -> Result<(), Fail> {
    let alloc = rt.alloc();
    for line in RANGES.lines() {
        let mut row = Row::new(line);
        let key = row.word();
        let (low, high) = (row.number()?, row.number()?);
        takes(&rt, alloc, key, low)?;
        takes(&rt, alloc, key, high)?;
        refuses(&rt, alloc, key, high.saturating_add(1))?;
        if low > 0 {
            refuses(&rt, alloc, key, low.saturating_sub(1))?;
        }
    }
    takes(&rt, alloc, "hit_set_fpp", 10_000)?;
    Ok(())
}

// Settings, and the letters of the mode, the kind of hit sets and the count of them that they set.
const WORDS: &str = r#"{} w b 4
{"cache_mode":"readproxy"} r b 4
{"cache_mode":"pr\u006fxy"} p b 4
{"cache_mode":"proxy","cache_mode":"writeback"} w b 4
{"hit_set_type":"explicit_hash"} w h 4
{"hit_set_type":"explicit_object","hit_set_count":0} w o 0
{"hit_set_count":[],"hit_set_type":"bloom","hit_set_count":7} w b 7"#;

// The letters of the mode and of the kind.
fn letters(values: &PoolValues) -> (&'static str, &'static str) {
    let mode = match values.cache_mode {
        Mode::Writeback => "w",
        Mode::Readproxy => "r",
        Mode::Proxy => "p",
    };
    let kind = match values.hit_set_type {
        HitType::Bloom => "b",
        HitType::ExplicitHash => "h",
        HitType::ExplicitObject => "o",
    };
    (mode, kind)
}

#[test]
fn words_and_last_values(rt: HostRuntime) -> Result<(), Fail> {
    let alloc = rt.alloc();
    for line in WORDS.lines() {
        let mut row = Row::new(line);
        let values = read_values(alloc, row.word().as_bytes())
            .ok()
            .ok_or("values")?;
        let (mode, kind) = letters(&values);
        assert!(rt; mode == row.word() && kind == row.word(), "{line}");
        assert_eq!(rt; u64::from(values.hit_set_count), row.number()?, "{line}");
    }
    let none = read_values(alloc, b"").ok().ok_or("values")?;
    assert_eq!(rt; none, DEFAULTS);
    Ok(())
}

// An object in which so many arrays stand in one another.
fn nested(alloc: Global, arrays: usize) -> Result<Vec<u8>, Fail> {
    let mut text = Vec::from_slice(alloc, b"{\"a\":")?;
    for bracket in [b'[', b']'] {
        for _ in 0..arrays {
            text.push(bracket)?;
        }
    }
    text.push(b'}')?;
    Ok(text)
}

// An empty object in so many bytes.
fn wide(alloc: Global, length: usize) -> Result<Vec<u8>, Fail> {
    let mut text = Vec::from_slice(alloc, b"{}")?;
    text.resize(length, b' ')?;
    Ok(text)
}

#[test]
fn depth_and_length(rt: HostRuntime) -> Result<(), Fail> {
    let alloc = rt.alloc();
    tells(&rt, alloc, nested(alloc, 126)?.as_slice(), "unknown a")?;
    tells(&rt, alloc, nested(alloc, 127)?.as_slice(), "notjson")?;
    tells(&rt, alloc, wide(alloc, 65_536)?.as_slice(), "")?;
    tells(&rt, alloc, wide(alloc, 65_537)?.as_slice(), "notjson")?;
    Ok(())
}
