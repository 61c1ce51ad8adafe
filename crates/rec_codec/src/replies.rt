//! Replies and kept requests as they are read.
ghost use Rattle.std.specs.Prelude.{◌≡◌, ◌≤◌, Some};
ghost use Rattle.rec_codec.specs.Reading.{Gives, why_at, reply_at, kept_at};

use crate::blocks::{u8_at, u16_at, u64_at};
use crate::fault::ReadError;
use obj_model::{CLIENT_LIMIT, Kept, NUMBER_LIMIT, Reply, VECTOR_LIMIT, Why};

/// The reason of a refusal.
#[tactic(auto, unfolding(crate::specs::Reading::why_at, crate::specs::Reading::plain_why))]
pub(crate) fn why_at(bytes: &[u8]) -> Result<(Why, &[u8]), ReadError>
    ensures { Gives (λ x. (x.0, x.1.now)) result (why_at bytes.now) }
{
    let (tag, rest) = u8_at(bytes)?;
    match tag {
        1 => Ok((Why::Exists, rest)),
        2 => Ok((Why::NoEnt, rest)),
        3 => Ok((Why::NoData, rest)),
        4 => Ok((Why::Canceled, rest)),
        5 => Ok((Why::Range, rest)),
        6 => Ok((Why::Overflow, rest)),
        7 => {
            let (limit, rest) = u64_at(rest)?;
            let (asked, rest) = u64_at(rest)?;
            Ok((Why::TooBig { limit, asked }, rest))
        }
        _ => Err(ReadError::Wrong),
    }
}

/// A reply.
#[tactic(auto, unfolding(crate::specs::Reading::reply_at))]
pub(crate) fn reply_at(bytes: &[u8]) -> Result<(Reply, &[u8]), ReadError>
    ensures { Gives (λ x. (x.0, x.1.now)) result (reply_at bytes.now) }
{
    let (tag, rest) = u8_at(bytes)?;
    match tag {
        1 => {
            let (ver, rest) = u64_at(rest)?;
            Ok((Reply::Done { ver }, rest))
        }
        2 => {
            let (at, rest) = u8_at(rest)?;
            if at as usize >= VECTOR_LIMIT {
                return Err(ReadError::Wrong);
            }
            let (why, rest) = why_at(rest)?;
            let (ver, rest) = u64_at(rest)?;
            Ok((Reply::Refused { at, why, ver }, rest))
        }
        _ => Err(ReadError::Wrong),
    }
}

/// A kept request.
#[tactic(auto, unfolding(crate::specs::Reading::kept_at))]
pub(crate) fn kept_at(bytes: &[u8]) -> Result<(Kept, &[u8]), ReadError>
    ensures { Gives (λ x. (x.0, x.1.now)) result (kept_at bytes.now) }
{
    let (client, rest) = u16_at(bytes)?;
    if client < 1 || client > CLIENT_LIMIT {
        return Err(ReadError::Wrong);
    }
    let (tid, rest) = u64_at(rest)?;
    if tid > NUMBER_LIMIT {
        return Err(ReadError::Wrong);
    }
    let (reply, rest) = reply_at(rest)?;
    Ok((Kept { client, tid, reply }, rest))
}
