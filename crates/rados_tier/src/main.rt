//! The program `rados_tier`: the words of its command line, standard input and output, and the
//! disks of the first pair, which are the files `cache0.img` and `base0.img` in the folder that it
//! runs in, handed to `tier_main`, whose status is its own.
//!
//! A file that is absent is made. Where one cannot be opened the program ends with status 6, and
//! puts nothing.
#![tactic(auto)]

use file_disk::FileDisk;
use std::alloc::AllocGlobal;
use std::env;
use std::io::{self, ErrorKind};
use std::process::ExitCode;
use std::rt::Env;
use tier_outside::{StdSink, StdSource};
use tier_tool::{DiskPair, Ended, tier_main};

// The bytes that a pool may use of its disk.
const ROOM: u64 = 1_073_741_824;

// The words behind the program's name.
fn read_words<R: Env + AllocGlobal>(rt: &R) -> io::Result<Vec<String>> {
    let mut words = Vec::new(rt.alloc());
    for word in env::args(rt)?.skip(1) {
        words.push(word)?;
    }
    Ok(words)
}

fn main(rt: HostRuntime) -> ExitCode {
    let words = match read_words(&rt) {
        Ok(words) => words,
        Err(error) if error.kind() == ErrorKind::OutOfMemory => return ExitCode::from(9),
        // A word that is no text asks for nothing, and neither does a command line without words.
        Err(_) => Vec::new(rt.alloc()),
    };
    let Ok(cache) = FileDisk::attach(&rt, "cache0.img") else {
        return ExitCode::from(6);
    };
    let Ok(base) = FileDisk::attach(&rt, "base0.img") else {
        return ExitCode::from(6);
    };
    let pair = DiskPair {
        cache,
        base,
        cache_room: ROOM,
        base_room: ROOM,
    };
    let Ok(disks) = Vec::from_array(rt.alloc(), [pair]) else {
        return ExitCode::from(9);
    };
    let mut script = StdSource::new(rt.reader());
    let mut out = StdSink::new(io::writer(&rt));
    let Ended { status, disks: _ } = tier_main(
        rt.alloc(),
        words.as_slice(),
        &mut script,
        &mut out,
        disks,
    );
    ExitCode::from(status)
}
