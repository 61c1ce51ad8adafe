//! Reads a source whole. The promise: to its end or past the limit of a script, and a fault only
//! where the source's count of faults rose.
ghost use Rattle.std.specs.Prelude.{◌≤◌, MatchResult};
ghost use Rattle.tier_outside.specs.Causes.{Rose};
ghost use Rattle.tier_outside.specs.Streams.{Loses};
ghost use Rattle.tool_jobs.specs.Jobs.{Excuses, GaveSome, IsReadWhole};

use script_lang::LENGTH_LIMIT;
use std::alloc::Global;
use tier_outside::Source;

/// Why a source was not read whole.
#[derive(Clone, Copy, Debug, PartialEq, Eq)]
pub enum Unread {
    /// The source failed.
    Fault,
    /// There was not enough memory.
    NoMemory,
}

// The bytes that one call of the source may give.
const PIECE: usize = 4096;

/// All bytes that the source has left. Reading stops early once there are more than a script may
/// have.
pub fn read_whole<S: Source>(alloc: Global, source: &mut S) -> Result<Vec<u8>, Unread>
    ensures given { MatchResult result
        (λ bytes. Loses (S.left source.old) (S.left source.new) bytes.items)
        (λ _. GaveSome (S.left source.old) (S.left source.new)) }
    ensures whole { MatchResult result (λ bytes. IsReadWhole (S.left source.new) bytes.items)
        (λ why. Excuses why (Rose (S.faults source.old) (S.faults source.new))) }
    ensures later { S.faults source.old ≤ S.faults source.new }
{
    let mut bytes = Vec::new(alloc);
    let mut piece = [0u8; PIECE];
    while bytes.len() <= LENGTH_LIMIT {
        let Ok(count) = source.fill(&mut piece) else {
            return Err(Unread::Fault);
        };
        if count == 0 {
            return Ok(bytes);
        }
        let (front, _) = piece.split_at(count);
        if bytes.extend_from_slice(front).is_err() {
            return Err(Unread::NoMemory);
        }
    }
    Ok(bytes)
}
