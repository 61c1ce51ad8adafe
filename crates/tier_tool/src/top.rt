//! The top call of the program. Its promise is the whole way from the words of the command line and
//! the bytes of the script to the bytes put, the status, and what a crash leaves of the base's
//! disk.
ghost use Rattle.std.specs.Prelude.{◌≤◌, map, string_bytes};
ghost use Rattle.tool_jobs.specs.Outside.{IsHandedBack, IsOnePair, base_of, outside, pairs_seen};
ghost use Rattle.tool_jobs.specs.Outside.{stream, targets};
ghost use Rattle.tier_tool.specs.Jobs.{JobEnds, Ran};

use crate::ended::Ended;
use crate::run::run;
use std::alloc::Global;
use tier_outside::{Disk, Sink, Source};
use tool_jobs::{Chosen, DiskPair, MISUSED, OUT_OF_MEMORY, check, generate, read_job, tell};
use tool_words::BadWords;

// What is put where the words of the command line are refused.
const USAGE: &str =
    "usage: run|check|show|gen [--paths] [--history] [--summary] [--count N] [--start N]\n";

/// Does all that the program does. `words` are those of the command line, without the program's
/// name. The job `show` and the flags `--paths`, `--history` and `--summary` do not stand yet, and
/// are refused as all other words that the command does not take: with the usage line.
///
/// `run` reads the whole script, opens the base pool on the base disk of the one pair, carries the
/// lines out one after another on it, and puts what is said of each, a line of text, in one call of
/// the sink, before the next is carried out. A script that is refused puts the one line `script
/// LINE CAUSE`, and one that is accepted but has a verb that is not built yet `script LINE
/// unbuilt`; then no disk is touched. A base disk that is refused puts one line that begins with
/// `image base 0`. The cache disk is not used yet.
///
/// `check` reads the script alone and puts `ok N`, N the number of its lines that are neither blank
/// nor comments, or its fault. `gen` puts the generated script of `--count` lines from `--start`.
/// Neither touches a disk.
///
/// The room of the base is the bytes that its log may use, 64 to 2^40. Each act uses the room by
/// its record and nothing else does; a line is refused for space exactly where its record does not
/// fit, and then changes nothing. The disks are handed back in every case, one that is refused as
/// it was. An act that was told survives any crash of the base's disk, and the next run finds as
/// much of the room used as the acts that are left took.
///
/// It ends with the status that `Ended` explains, and returns on every input. It reads at most
/// 268,439,552 bytes of the script, and keeps the script and the base's map in memory.
pub fn tier_main<S: Source, K: Sink, D: Disk + Send + Drop>(
    alloc: Global,
    words: &[String],
    script: &mut S,
    out: &mut K,
    disks: Vec<DiskPair<D>>,
) -> Ended<D>
    requires one_pair { IsOnePair disks.items }
    ensures ran { Ran (map string_bytes words.now)
        (outside (stream S.left S.faults script.old)
        (targets (stream K.held K.faults out.old)
        (pairs_seen D.moments D.faults disks.items)))
        (outside (stream S.left S.faults script.new)
        (targets (stream K.held K.faults out.new)
        (pairs_seen D.moments D.faults result.disks.items)))
        result.status }
    ensures back { IsHandedBack disks.items result.disks.items }
    ensures source_later { S.faults script.old ≤ S.faults script.new }
    ensures sink_later { K.faults out.old ≤ K.faults out.new }
    ensures disk_later { (base_of (pairs_seen D.moments D.faults disks.items)).faults
        ≤ (base_of (pairs_seen D.moments D.faults result.disks.items)).faults }
{
    match read_job(alloc, words) {
        Ok(job) => do_job(alloc, job, script, out, disks),
        Err(BadWords::Refused) => Ended {
            status: tell(USAGE.as_bytes(), MISUSED, out),
            disks,
        },
        Err(BadWords::NoMemory) => Ended {
            status: OUT_OF_MEMORY,
            disks,
        },
    }
}

// Does a job.
fn do_job<S: Source, K: Sink, D: Disk + Send + Drop>(
    alloc: Global,
    job: Chosen,
    script: &mut S,
    out: &mut K,
    disks: Vec<DiskPair<D>>,
) -> Ended<D>
    requires one_pair { IsOnePair disks.items }
    ensures ends { JobEnds job
        (outside (stream S.left S.faults script.old)
        (targets (stream K.held K.faults out.old)
        (pairs_seen D.moments D.faults disks.items)))
        (outside (stream S.left S.faults script.new)
        (targets (stream K.held K.faults out.new)
        (pairs_seen D.moments D.faults result.disks.items)))
        result.status }
    ensures back { IsHandedBack disks.items result.disks.items }
    ensures source_later { S.faults script.old ≤ S.faults script.new }
    ensures sink_later { K.faults out.old ≤ K.faults out.new }
    ensures disk_later { (base_of (pairs_seen D.moments D.faults disks.items)).faults
        ≤ (base_of (pairs_seen D.moments D.faults result.disks.items)).faults }
{
    match job {
        Chosen::Run => run(alloc, script, out, disks),
        Chosen::Check => Ended {
            status: check(alloc, script, out),
            disks,
        },
        Chosen::Gen { count, start } => Ended {
            status: generate(alloc, count, start, out),
            disks,
        },
    }
}
