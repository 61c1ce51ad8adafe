//! The text of each answer.
ghost use Rattle.std.specs.Prelude.{◌≡◌, ◌++◌, OnOk, codes};
ghost use Rattle.report_text.specs.Answers.{answer_text, did_text};
ghost use Rattle.report_text.specs.Words.{kept_text, key_text, kind_text, number_text, outs_text, pool_text, standing_text, why_text};

use crate::Text;
use crate::words::{
    kind_word, pool_word, put_kept, put_name, put_number, put_outs, put_standing, put_why,
};
use obj_model::{Kind, Name, NoMemory, Out, Pool, Why};
use script_lang::mode_word;
use tier_chron::{AgentDid, Answer};

/// Puts the text of an answer, given at this place, behind a text.
pub fn put_answer(text: &mut Text, answer: &Answer, place: u64) -> Result<(), NoMemory>
    ensures { OnOk result (text.new ≡ text.old ++ answer_text place answer.now) }
{
    match answer {
        Answer::Done { ver, kept } => put_done(text, *ver, *kept, place),
        Answer::Refused { at, why, ver, kept } => put_refused(text, *at, *why, *ver, *kept, place),
        Answer::Values { ver, outs } => put_values(text, *ver, outs.as_slice(), place),
        Answer::Stale { kept } => put_one(text, "stale", *kept),
        Answer::Worn { limit } => put_one(text, "worn", *limit),
        Answer::Blocked { kind, opid } => put_blocked(text, *kind, *opid),
        Answer::Full { micro } => put_one(text, "full", *micro),
        Answer::Restarted { was, now } => put_two(text, "restarted", *was, *now),
        Answer::Flushed { seq } => put_one(text, "flushed", *seq),
        Answer::Clean => text.push("clean"),
        Answer::Absent => text.push("absent"),
        Answer::Again { flushed, now } => put_two(text, "again", *flushed, *now),
        Answer::Evicted { seq } => put_one(text, "evicted", *seq),
        Answer::Dirty { seq } => put_one(text, "dirty", *seq),
        Answer::Begun { opid } => put_one(text, "begun", *opid),
        Answer::NoBegun => text.push("nothing"),
        Answer::Drained => text.push("drained"),
        Answer::Left {
            count,
            name,
            kind,
            opid,
        } => put_left(text, *count, name, *kind, *opid),
        Answer::NotProxy { mode } => put_pair(text, "notproxy ", mode_word(*mode)),
        Answer::Agent(did) => put_did(text, did),
        Answer::NoSpace {
            pool,
            used,
            need,
            limit,
        } => put_no_space(text, *pool, *used, *need, *limit),
        Answer::HistoryFull { entries, bytes } => put_two(text, "historyfull", *entries, *bytes),
        Answer::DiskFault { pool } => put_pair(text, "fault ", pool_word(*pool)),
        Answer::Damaged { pool, at } => put_damaged(text, *pool, *at),
        Answer::BadRecord { pool, name } => put_bad_record(text, *pool, name),
        Answer::NoMemory => text.push("nomemory"),
    }
}

// Two words, of which the first ends with a space.
fn put_pair(text: &mut Text, first: &str, second: &str) -> Result<(), NoMemory>
    ensures { OnOk result (text.new ≡ text.old ++ first.now ++ second.now) }
{
    text.push(first)?;
    text.push(second)
}

// A word and a number.
fn put_one(text: &mut Text, word: &str, number: u64) -> Result<(), NoMemory>
    ensures { OnOk result (text.new ≡ text.old ++ word.now ++ number_text number) }
{
    text.push(word)?;
    put_number(text, number)
}

// A word and two numbers.
fn put_two(text: &mut Text, word: &str, first: u64, second: u64) -> Result<(), NoMemory>
    ensures { OnOk result (text.new ≡ text.old ++ word.now ++ number_text first
        ++ number_text second) }
{
    put_one(text, word, first)?;
    put_number(text, second)
}

// An accepted write request.
fn put_done(text: &mut Text, ver: u64, kept: bool, place: u64) -> Result<(), NoMemory>
    ensures { OnOk result (text.new ≡ text.old ++ codes "done" ++ standing_text ver place
        ++ kept_text kept) }
{
    text.push("done")?;
    put_standing(text, ver, place)?;
    put_kept(text, kept)
}

// A refused request.
fn put_refused(
    text: &mut Text,
    at: u8,
    why: Why,
    ver: u64,
    kept: bool,
    place: u64,
) -> Result<(), NoMemory>
    ensures { OnOk result (text.new ≡ text.old ++ codes "refused" ++ number_text at
        ++ codes " " ++ why_text why
        ++ standing_text ver place ++ kept_text kept) }
{
    put_one(text, "refused", u64::from(at))?;
    text.push(" ")?;
    put_why(text, why)?;
    put_standing(text, ver, place)?;
    put_kept(text, kept)
}

// What a reading told.
fn put_values(text: &mut Text, ver: u64, outs: &[Out], place: u64) -> Result<(), NoMemory>
    ensures { OnOk result (text.new ≡ text.old ++ codes "values" ++ standing_text ver place
        ++ codes " "
        ++ outs_text outs.now) }
{
    text.push("values")?;
    put_standing(text, ver, place)?;
    text.push(" ")?;
    put_outs(text, outs)
}

// Unfinished work that stood in the way.
fn put_blocked(text: &mut Text, kind: Kind, opid: u64) -> Result<(), NoMemory>
    ensures { OnOk result (text.new ≡ text.old ++ codes "blocked " ++ kind_text kind
        ++ number_text opid) }
{
    text.push("blocked ")?;
    put_one(text, kind_word(kind), opid)
}

// Records that a drain left, and the first name that was busy.
fn put_left(text: &mut Text, count: u64, name: &Name, kind: Kind, opid: u64) -> Result<(), NoMemory>
    ensures { OnOk result (text.new ≡ text.old ++ codes "left" ++ number_text count
        ++ key_text name.now ++ codes " "
        ++ kind_text kind ++ number_text opid) }
{
    put_one(text, "left", count)?;
    put_name(text, name)?;
    text.push(" ")?;
    put_one(text, kind_word(kind), opid)
}

// What a turn of the agent did.
fn put_did(text: &mut Text, did: &AgentDid) -> Result<(), NoMemory>
    ensures { OnOk result (text.new ≡ text.old ++ codes "agent " ++ did_text did.now) }
{
    text.push("agent ")?;
    match did {
        AgentDid::Evicted { name, seq } => put_named(text, "evicted", name, *seq),
        AgentDid::Flushed { name, seq } => put_named(text, "flushed", name, *seq),
        AgentDid::Again { name, flushed, now } => {
            put_named(text, "again", name, *flushed)?;
            put_number(text, *now)
        }
        AgentDid::Nothing => text.push("nothing"),
    }
}

// A word, a name and a number.
fn put_named(text: &mut Text, word: &str, name: &Name, number: u64) -> Result<(), NoMemory>
    ensures { OnOk result (text.new ≡ text.old ++ word.now ++ key_text name.now
        ++ number_text number) }
{
    text.push(word)?;
    put_name(text, name)?;
    put_number(text, number)
}

// A pool without room.
fn put_no_space(
    text: &mut Text,
    pool: Pool,
    used: u64,
    need: u64,
    limit: u64,
) -> Result<(), NoMemory>
    ensures { OnOk result (text.new ≡ text.old ++ codes "nospace " ++ pool_text pool
        ++ number_text used
        ++ number_text need ++ number_text limit) }
{
    text.push("nospace ")?;
    put_two(text, pool_word(pool), used, need)?;
    put_number(text, limit)
}

// A pool whose disk holds no journal at this offset.
fn put_damaged(text: &mut Text, pool: Pool, at: u64) -> Result<(), NoMemory>
    ensures { OnOk result (text.new ≡ text.old ++ codes "damaged " ++ pool_text pool
        ++ number_text at) }
{
    text.push("damaged ")?;
    put_one(text, pool_word(pool), at)
}

// A pool with a value that spells no state.
fn put_bad_record(text: &mut Text, pool: Pool, name: &Name) -> Result<(), NoMemory>
    ensures { OnOk result (text.new ≡ text.old ++ codes "badrecord " ++ pool_text pool
        ++ key_text name.now) }
{
    put_pair(text, "badrecord ", pool_word(pool))?;
    put_name(text, name)
}
