//! What the tests share: a base over a log on a disk in memory, and messages in short words, all of
//! them about the name `a`, under the number 5, by client 7.
ghost use Rattle.std.specs.Prelude.{IfOk};
ghost use Rattle.obj_model.specs.States.{IsState};
ghost use Rattle.base_pool.specs.Views.{IsLive};

use base_pool::{Base, BaseFault, BaseMsg, BaseReply};
use copy_chunk::Cursor;
use log_store::LogStore;
use mem_disk::{MemDisk, Pick};
use obj_model::{Bytes, Name, NameState, Pool, Req, SubOp, Vector};
use rec_codec::{read_state, read_txn};
use std::alloc::Global;
use std::fmt::Write;
use std::process::Abort;
use std::test::Fail;
use store_face::Store;

pub type BasePool = Base<LogStore<MemDisk>>;

// The greatest tid.
const MOST: u64 = 4_611_686_018_427_387_904;

// An empty disk that stops at a call, or fails at another, where 0 is none.
pub fn disk(
    rt: &impl Abort,
    alloc: Global,
    stop_at: u64,
    fails: u64,
    pick: Pick,
) -> Result<MemDisk, Fail> {
    let fails = vec![in alloc; fails]?;
    let stop_at = (stop_at > 0).then_some(stop_at);
    Ok(MemDisk::new(alloc, Vec::new(alloc), fails, stop_at, pick).expect(rt, "made"))
}

// The log of a base on a disk.
pub fn log(rt: &impl Abort, alloc: Global, disk: MemDisk) -> LogStore<MemDisk> {
    match LogStore::attach(alloc, disk, Pool::Base, 257, 4096) {
        Ok(store) => store,
        Err((fault, _)) => panic!(rt; "{fault:?}"),
    }
}

// The base on a log, or why there is none.
pub fn attach(
    rt: &impl Abort,
    alloc: Global,
    store: LogStore<MemDisk>,
) -> Result<BasePool, BaseFault> {
    assert!(rt; store.is_live());
    match Base::attach(alloc, store) {
        Ok(base) => Ok(base),
        Err((fault, _)) => Err(fault),
    }
}

// The base on a disk.
pub fn open(rt: &impl Abort, alloc: Global, disk: MemDisk) -> BasePool {
    match attach(rt, alloc, log(rt, alloc, disk)) {
        Ok(base) => base,
        Err(fault) => panic!(rt; "{fault:?}"),
    }
}

// Commits the transaction that these bytes spell.
pub fn commit(rt: &impl Abort, alloc: Global, store: &mut LogStore<MemDisk>, bytes: &[u8]) {
    let changes = read_txn(alloc, bytes).expect(rt, "memory");
    let changes = changes.expect(rt, "a transaction");
    assert!(rt; store.is_live());
    assert_eq!(rt; store.commit(changes), Ok(()));
}

pub fn name(alloc: Global) -> Result<Name, Fail> {
    Ok(
        Name::new(Vec::from_slice(alloc, b"a")?)
            .ok()
            .ok_or("a name")?,
    )
}

fn vector(alloc: Global, op: SubOp) -> Result<Vector, Fail> {
    Ok(Vector::new(vec![in alloc; op]?).ok().ok_or("a vector")?)
}

// A state without an object, on which so many requests acted.
fn state(alloc: Global, seq: u8) -> Result<NameState, Fail>
    ensures { IfOk result IsState }
{
    let mut bytes = [0u8; 19];
    bytes[15] = seq;
    let state = read_state(alloc, &bytes).ok().ok_or("memory")?;
    Ok(state.ok_or("a state")?)
}

// Sends a request that appends a byte.
fn write(
    alloc: Global,
    base: &mut BasePool,
    epoch: u64,
    tid: u64,
) -> Result<Result<BaseReply, BaseFault>, Fail>
    requires { IsLive base.old }
{
    let bytes = Bytes::from_vec(Vec::from_slice(alloc, b"x")?);
    let vector = vector(alloc, SubOp::Append { bytes })?;
    if !vector.writes() || tid > MOST {
        return Err("a request".into());
    }
    let name = name(alloc)?;
    let req = Req {
        client: 7,
        tid,
        name,
        vector,
    };
    let opid = 5;
    Ok(base.serve(alloc, &BaseMsg::Write { epoch, opid, req }))
}

// Sends a reading of the size.
fn look(
    alloc: Global,
    base: &mut BasePool,
    epoch: u64,
) -> Result<Result<BaseReply, BaseFault>, Fail>
    requires { IsLive base.old }
{
    let vector = vector(alloc, SubOp::Stat)?;
    if vector.writes() {
        return Err("a reading".into());
    }
    let message = BaseMsg::Look {
        epoch,
        opid: 5,
        name: name(alloc)?,
        vector,
    };
    Ok(base.serve(alloc, &message))
}

// Sends a state.
fn install(
    alloc: Global,
    base: &mut BasePool,
    epoch: u64,
    seq: u8,
) -> Result<Result<BaseReply, BaseFault>, Fail>
    requires { IsLive base.old }
{
    let state = state(alloc, seq)?;
    let message = BaseMsg::Install {
        epoch,
        opid: 5,
        name: name(alloc)?,
        state,
    };
    Ok(base.serve(alloc, &message))
}

fn number(words: &[&str], at: usize) -> Result<u64, Fail> {
    let word = words.get(at).copied().unwrap_or("");
    Ok(word.parse::<u64>().ok().ok_or("a number")?)
}

// A number below 256 in decimal digits.
fn small(words: &[&str], at: usize) -> Result<u8, Fail> {
    let word = words.get(at).copied().unwrap_or("");
    Ok(word.parse::<u8>().ok().ok_or("a small number")?)
}

// Sends a message to a live base.
fn send(
    alloc: Global,
    base: &mut BasePool,
    words: &[&str],
) -> Result<Result<BaseReply, BaseFault>, Fail>
    requires { IsLive base.old }
{
    let epoch = number(words, 1)?;
    match words.get(0).copied().unwrap_or("") {
        "fence" => Ok(base.serve(alloc, &BaseMsg::Fence { epoch })),
        "look" => look(alloc, base, epoch),
        "write" => write(alloc, base, epoch, number(words, 2)?),
        "install" => install(alloc, base, epoch, small(words, 2)?),
        "chunk" => {
            let message = BaseMsg::GetChunk {
                epoch,
                opid: 5,
                name: name(alloc)?,
                at: Cursor::Head,
            };
            Ok(base.serve(alloc, &message))
        }
        _ => Err("a message".into()),
    }
}

// What a message is answered.
pub fn serve(
    rt: &impl Abort,
    alloc: Global,
    base: &mut BasePool,
    text: &str,
) -> Result<(bool, String), Fail> {
    let words = text.split_whitespace().collect::<Vec<&str>>(alloc)?;
    assert!(rt; base.is_live());
    let mut told = String::new(alloc);
    match send(alloc, base, words.as_slice())? {
        Ok(reply) => {
            write!(&mut told, "{reply:?}")?;
            Ok((true, told))
        }
        Err(fault) => {
            write!(&mut told, "{fault:?}")?;
            Ok((false, told))
        }
    }
}

// The epoch of a live base, and the `seq` of the name.
pub fn numbers(rt: &impl Abort, alloc: Global, base: &mut BasePool) -> Result<(u64, u64), Fail> {
    let name = name(alloc)?;
    assert!(rt; base.is_live());
    let state = match base.state(alloc, &name) {
        Ok(state) => state,
        Err(fault) => panic!(rt; "{fault:?}"),
    };
    Ok((base.epoch(), state.seq))
}
