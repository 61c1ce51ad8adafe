//! Stores that are filled by short words: `epoch N`, `state NAME VER SEQ`, and `clean` and `dirty`
//! of the same, apart by `/`; `bad KEY` is a value that spells nothing; `-` is nothing.
use byteorder::{BigEndian, ByteOrder};
use log_store::LogStore;
use mem_disk::{MemDisk, Pick};
use obj_model::Pool;
use rec_codec::read_txn;
use std::alloc::Global;
use std::process::Abort;
use std::test::Fail;
use store_face::Store;
use test_rows::Row;

pub type Log = LogStore<MemDisk>;

// An empty log of a pool.
pub fn log(rt: &impl Abort, alloc: Global, pool: Pool) -> Log {
    let none = Vec::new(alloc);
    let disk = MemDisk::new(alloc, Vec::new(alloc), none, None, Pick::Old).expect(rt, "made");
    match LogStore::attach(alloc, disk, pool, 256, 65_536) {
        Ok(store) => store,
        Err((fault, _)) => panic!(rt; "{fault:?}"),
    }
}

fn put_number(out: &mut Vec<u8>, number: u64) -> Result<(), Fail> {
    let mut bytes = [0u8; 8];
    BigEndian::write_u64(&mut bytes, number);
    out.extend_from_slice(&bytes)?;
    Ok(())
}

// A short text behind its length, in so many bytes.
fn put_text(out: &mut Vec<u8>, width: usize, text: &[u8]) -> Result<(), Fail> {
    for _ in 1..width {
        out.push(0)?;
    }
    out.push(u8::try_from(text.len()).ok().ok_or("a short text")?)?;
    out.extend_from_slice(text)?;
    Ok(())
}

// A state without an object, which keeps no request.
fn put_state(out: &mut Vec<u8>, row: &mut Row) -> Result<(), Fail> {
    put_number(out, row.number()?)?;
    put_number(out, row.number()?)?;
    out.extend_from_slice(&[0u8, 0, 0])?;
    Ok(())
}

// A letter and a name.
fn key_of(alloc: Global, letter: u8, name: &str) -> Result<Vec<u8>, Fail> {
    let mut key = Vec::new(alloc);
    key.push(letter)?;
    key.extend_from_slice(name.as_bytes())?;
    Ok(key)
}

// The key and the value that the words speak of.
fn pair_of(alloc: Global, words: &str) -> Result<(Vec<u8>, Vec<u8>), Fail> {
    let mut row = Row::new(words);
    let mut value = Vec::new(alloc);
    let kind = row.word();
    let key = match kind {
        "epoch" => {
            put_number(&mut value, row.number()?)?;
            key_of(alloc, b'E', "")?
        }
        "state" => {
            let key = key_of(alloc, b'N', row.word())?;
            put_state(&mut value, &mut row)?;
            key
        }
        "bad" => {
            value.push(b'x')?;
            Vec::from_slice(alloc, row.word().as_bytes())?
        }
        _ => {
            let key = key_of(alloc, b'R', row.word())?;
            put_state(&mut value, &mut row)?;
            value.push((kind == "dirty") as u8)?;
            put_number(&mut value, 0)?;
            key
        }
    };
    Ok((key, value))
}

// The bytes of the transaction that puts them.
fn txn_of(alloc: Global, words: &str) -> Result<Vec<u8>, Fail> {
    let (key, value) = pair_of(alloc, words)?;
    let mut bytes = vec![in alloc; 1u8, 1u8]?;
    put_text(&mut bytes, 2, key.as_slice())?;
    put_text(&mut bytes, 4, value.as_slice())?;
    Ok(bytes)
}

// Commits what the words speak of, one after another.
pub fn fill<P: Store>(
    rt: &impl Abort,
    alloc: Global,
    store: &mut P,
    words: &str,
) -> Result<(), Fail> {
    for one in words.split('/') {
        if one == "-" {
            continue;
        }
        let bytes = txn_of(alloc, one)?;
        let changes = read_txn(alloc, bytes.as_slice()).ok().ok_or("memory")?;
        let changes = changes.ok_or("a transaction")?;
        assert!(rt; store.is_live());
        assert_eq!(rt; store.commit(changes), Ok(()));
    }
    Ok(())
}
