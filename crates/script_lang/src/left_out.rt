//! Words with which nothing begins here: those of the real system that are left out, and others.
ghost use Rattle.std.specs.Prelude.{◌≡◌};
ghost use Rattle.script_lang.specs.declared.cause.Cause.TheVariants as cause;
ghost use Rattle.script_lang.specs.Verbs.{is_one_of, left_out_modes, left_out_verbs};
ghost use Rattle.script_lang.specs.Reading.{unknown, unknown_mode};
ghost use Rattle.script_lang.specs.Outcomes.{Blames};

use crate::cause::{Cause, LineFault};
use obj_model::Bytes;
use std::alloc::Global;

/// The fault of a line or a sub-operation that begins with this word: it is left out here, or has
/// the cause of an unknown word.
#[tactic(auto, unfolding(crate::specs::Reading::unknown))]
pub(crate) fn unknown(alloc: Global, word: &[u8], cause: Cause) -> LineFault
    ensures { Blames result (unknown word.now cause) }
{
    if is_left_out_verb(word) {
        left_out(alloc, word)
    } else {
        LineFault::Wrong(cause)
    }
}

/// The fault of a mode that is none.
pub(crate) fn unknown_mode(alloc: Global, word: &[u8]) -> LineFault
    ensures { Blames result (unknown_mode word.now) }
{
    if is_left_out_mode(word) {
        left_out(alloc, word)
    } else {
        LineFault::Wrong(Cause::Mode)
    }
}

fn left_out(alloc: Global, word: &[u8]) -> LineFault
    ensures { Blames result (cause.LeftOut word.now) }
{
    match Vec::from_slice(alloc, word) {
        Ok(word) => LineFault::Wrong(Cause::LeftOut(Bytes::from_vec(word))),
        Err(_) => LineFault::NoMemory,
    }
}

fn is_left_out_verb(word: &[u8]) -> bool
    ensures { result ≡ is_one_of left_out_verbs word.now }
{
    word == b"snap".as_slice()
        || word == b"rollback".as_slice()
        || word == b"clone".as_slice()
        || word == b"watch".as_slice()
        || word == b"notify".as_slice()
        || word == b"exec".as_slice()
        || word == b"lock".as_slice()
        || word == b"unlock".as_slice()
        || word == b"dedup".as_slice()
        || word == b"redirect".as_slice()
}

fn is_left_out_mode(word: &[u8]) -> bool
    ensures { result ≡ is_one_of left_out_modes word.now }
{
    word == b"forward".as_slice()
        || word == b"readforward".as_slice()
        || word == b"readonly".as_slice()
}
