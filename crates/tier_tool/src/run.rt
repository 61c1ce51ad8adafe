//! The job `run`: a script that is carried out on the base of the one pair. No disk is touched
//! before the script is accepted and each of its verbs is built.
ghost use Rattle.std.specs.Prelude.{◌≤◌, All, ◌∷◌, []};
ghost use Rattle.script_lang.specs.Spelling.{IsLine};
ghost use Rattle.tier_tool.specs.Tasks.{IsTask};
ghost use Rattle.tool_jobs.specs.Outside.{IsHandedBack, IsOnePair, IsRoom, base_of, outside};
ghost use Rattle.tool_jobs.specs.Outside.{pair_seen, pairs_seen, stream, targets};
ghost use Rattle.tool_jobs.specs.Jobs.{Judges, Reads};
ghost use Rattle.tier_tool.specs.Runs.{RunsLines, RunsTasks};

use crate::ended::Ended;
use crate::opening::tell_unopened;
use crate::task::{Numbered, Untold, tasks_of};
use crate::telling::tell_lines;
use log_store::LogStore;
use obj_model::Pool;
use script_lang::{ScriptFault, read_script};
use std::alloc::Global;
use tier_outside::{Disk, Sink, Source};
use tool_jobs::{
    DiskPair, OUT_OF_MEMORY, SOURCE_FAILED, Unread, read_whole, tell_fault, tell_unbuilt,
};

// The number of the first pair.
const PAIR: u64 = 257;

/// Reads a script from its source, and carries it out.
pub fn run<S: Source, K: Sink, D: Disk + Send + Drop>(
    alloc: Global,
    script: &mut S,
    out: &mut K,
    disks: Vec<DiskPair<D>>,
) -> Ended<D>
    requires one_pair { IsOnePair disks.items }
    ensures ends { Reads (Judges RunsLines)
        (outside (stream S.left S.faults script.old)
        (targets (stream K.held K.faults out.old)
        (pairs_seen D.moments D.faults disks.items)))
        (outside (stream S.left S.faults script.new)
        (targets (stream K.held K.faults out.new)
        (pairs_seen D.moments D.faults result.disks.items)))
        result.status }
    ensures back { IsHandedBack disks.items result.disks.items }
    ensures source_later { S.faults script.old ≤ S.faults script.new }
    ensures sink_later { K.faults out.old ≤ K.faults out.new }
    ensures disk_later { (base_of (pairs_seen D.moments D.faults disks.items)).faults
        ≤ (base_of (pairs_seen D.moments D.faults result.disks.items)).faults }
{
    match read_whole(alloc, script) {
        Ok(bytes) => run_script(alloc, bytes.as_slice(), out, disks),
        Err(Unread::Fault) => Ended {
            status: SOURCE_FAILED,
            disks,
        },
        Err(Unread::NoMemory) => Ended {
            status: OUT_OF_MEMORY,
            disks,
        },
    }
}

// Carries out a script that was read whole.
fn run_script<K: Sink, D: Disk + Send + Drop>(
    alloc: Global,
    script: &[u8],
    out: &mut K,
    disks: Vec<DiskPair<D>>,
) -> Ended<D>
    requires one_pair { IsOnePair disks.items }
    ensures ends { Judges RunsLines script.now
        (targets (stream K.held K.faults out.old) (pairs_seen D.moments D.faults disks.items))
        (targets (stream K.held K.faults out.new)
        (pairs_seen D.moments D.faults result.disks.items))
        result.status }
    ensures back { IsHandedBack disks.items result.disks.items }
    ensures sink_later { K.faults out.old ≤ K.faults out.new }
    ensures disk_later { (base_of (pairs_seen D.moments D.faults disks.items)).faults
        ≤ (base_of (pairs_seen D.moments D.faults result.disks.items)).faults }
{
    match read_script(alloc, script) {
        Ok(lines) => run_tasks(alloc, lines, out, disks),
        Err(ScriptFault::Bad { line, cause }) => Ended {
            status: tell_fault(alloc, line, cause, out),
            disks,
        },
        Err(ScriptFault::NoMemory) => Ended {
            status: OUT_OF_MEMORY,
            disks,
        },
    }
}

// Carries the lines of a script out, if all of their verbs are built.
fn run_tasks<K: Sink, D: Disk + Send + Drop>(
    alloc: Global,
    lines: Vec<script_lang::Numbered>,
    out: &mut K,
    disks: Vec<DiskPair<D>>,
) -> Ended<D>
    requires one_pair { IsOnePair disks.items }
    requires lawful { All (λ n. IsLine n.line) lines.items }
    ensures ends { RunsLines lines.items
        (targets (stream K.held K.faults out.old) (pairs_seen D.moments D.faults disks.items))
        (targets (stream K.held K.faults out.new)
        (pairs_seen D.moments D.faults result.disks.items))
        result.status }
    ensures back { IsHandedBack disks.items result.disks.items }
    ensures sink_later { K.faults out.old ≤ K.faults out.new }
    ensures disk_later { (base_of (pairs_seen D.moments D.faults disks.items)).faults
        ≤ (base_of (pairs_seen D.moments D.faults result.disks.items)).faults }
{
    match tasks_of(alloc, lines) {
        Ok(tasks) => run_lines(alloc, tasks.as_slice(), out, disks),
        Err(Untold::Unbuilt { line }) => Ended {
            status: tell_unbuilt(alloc, line, out),
            disks,
        },
        Err(Untold::NoMemory) => Ended {
            status: OUT_OF_MEMORY,
            disks,
        },
    }
}

// Carries lines out on the base of the one pair.
fn run_lines<K: Sink, D: Disk + Send + Drop>(
    alloc: Global,
    lines: &[Numbered],
    out: &mut K,
    disks: Vec<DiskPair<D>>,
) -> Ended<D>
    requires one_pair { IsOnePair disks.items }
    requires lawful { All (λ n. IsTask n.line) lines.now }
    ensures ends { RunsTasks lines.now
        (targets (stream K.held K.faults out.old) (pairs_seen D.moments D.faults disks.items))
        (targets (stream K.held K.faults out.new)
        (pairs_seen D.moments D.faults result.disks.items))
        result.status }
    ensures back { IsHandedBack disks.items result.disks.items }
    ensures sink_later { K.faults out.old ≤ K.faults out.new }
    ensures disk_later { (base_of (pairs_seen D.moments D.faults disks.items)).faults
        ≤ (base_of (pairs_seen D.moments D.faults result.disks.items)).faults }
{
    let mut disks = disks;
    let Some(pair) = disks.pop() else {
        unreachable!()
    };
    let (status, pair) = run_on(alloc, lines, out, pair);
    disks.push_reserved(pair);
    Ended { status, disks }
}

// Opens a base on its disk, and carries lines out on it. The disks are given back in every case.
fn run_on<K: Sink, D: Disk + Send + Drop>(
    alloc: Global,
    lines: &[Numbered],
    out: &mut K,
    pair: DiskPair<D>,
) -> (u8, DiskPair<D>)
    requires room { IsRoom pair.base_room }
    requires lawful { All (λ n. IsTask n.line) lines.now }
    ensures ends { RunsTasks lines.now
        (targets (stream K.held K.faults out.old) (pair_seen D.moments D.faults pair ∷ []))
        (targets (stream K.held K.faults out.new) (pair_seen D.moments D.faults result.1 ∷ []))
        result.0 }
    ensures back { IsHandedBack (pair ∷ []) (result.1 ∷ []) }
    ensures sink_later { K.faults out.old ≤ K.faults out.new }
    ensures disk_later { D.faults pair.base ≤ D.faults result.1.base }
{
    let DiskPair {
        cache,
        base,
        cache_room,
        base_room,
    } = pair;
    match LogStore::attach(alloc, base, Pool::Base, PAIR, base_room) {
        Ok(mut pool) => {
            let status = tell_lines(alloc, lines, &mut pool, out);
            let pair = DiskPair {
                cache,
                base: pool.into_disk(),
                cache_room,
                base_room,
            };
            (status, pair)
        }
        Err((fault, base)) => {
            let status = tell_unopened(alloc, fault, out);
            let pair = DiskPair {
                cache,
                base,
                cache_room,
                base_room,
            };
            (status, pair)
        }
    }
}
