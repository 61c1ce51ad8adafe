//! The chunk at a place of a state. Only its piece is copied: of the pairs before it lengths alone
//! are added up.
ghost use Rattle.std.specs.Prelude.{◌≡◌, ◌+◌, ◌<◌, ◌^◌, IfOk, take, nat_lt, is_some, true};
ghost use Rattle.std.specs.Prelude.{if◌then◌else◌};
ghost use Rattle.copy_chunk.specs.declared.chunk.Cursor.TheVariants as place;
ghost use Rattle.copy_chunk.specs.Chunks.{chunks_of, chunk_at};
ghost use Rattle.copy_chunk.specs.Cuts.{behind_attrs, behind_body, head_chunk, body_chunk};
ghost use Rattle.copy_chunk.specs.Cuts.{table_chunk, group_at, cut};

use crate::groups::{CHUNK_LIMIT, Group, group_at};
use crate::{Chunk, Cursor, Part};
use obj_model::{Bytes, Name, NameState, NoMemory, Obj};
use std::alloc::Global;

/// The chunk of a state at a place; none exactly where it is no place of this state.
pub fn chunk_of(alloc: Global, state: &NameState, at: &Cursor) -> Result<Option<Chunk>, NoMemory>
    ensures { IfOk result (λ chunk. chunk ≡ chunk_at (chunks_of state.now) at.now) }
{
    cut(alloc, state, at, false)
}

/// The chunk at a place, kind by kind. Where it is known that it is a place of the state, what
/// stands before it is left alone.
#[tactic(auto, using(crate::proofs::Known::known_attrs, crate::proofs::Known::known_omap))]
pub(crate) fn cut(
    alloc: Global,
    state: &NameState,
    at: &Cursor,
    known: bool,
) -> Result<Option<Chunk>, NoMemory>
    requires { known ≡ true → is_some (cut state.now at.now) ≡ true }
    ensures { IfOk result (λ chunk. chunk ≡ cut state.now at.now) }
{
    match at {
        Cursor::Head => Ok(Some(head_chunk(state))),
        Cursor::Body(off) => match &state.obj {
            None => Ok(None),
            Some(obj) => body_chunk(alloc, obj, *off),
        },
        Cursor::Attrs(key) => match &state.obj {
            None => Ok(None),
            Some(obj) => attrs_chunk(alloc, obj, key, known),
        },
        Cursor::Omap(key) => match &state.obj {
            None => Ok(None),
            Some(obj) => omap_chunk(alloc, obj, key, known),
        },
        Cursor::Seen => Ok(Some(Chunk {
            at: Cursor::Seen,
            part: Part::Seen(state.seen.clone()?),
            next: None,
        })),
    }
}

// The first place of the omap, or the kept requests.
fn behind_attrs(obj: &Obj) -> Cursor
    ensures { result ≡ behind_attrs obj.now }
{
    if obj.omap.len() == 0 {
        Cursor::Seen
    } else {
        Cursor::Omap(None)
    }
}

// The first place behind the body.
fn behind_body(obj: &Obj) -> Cursor
    ensures { result ≡ behind_body obj.now }
{
    if obj.attrs.len() == 0 {
        behind_attrs(obj)
    } else {
        Cursor::Attrs(None)
    }
}

// The head of a state.
fn head_chunk(state: &NameState) -> Chunk
    ensures { result ≡ head_chunk state.now }
{
    let next = match &state.obj {
        None => Cursor::Seen,
        Some(obj) => {
            if obj.body.as_slice().is_empty() {
                behind_body(obj)
            } else {
                Cursor::Body(0)
            }
        }
    };
    Chunk {
        at: Cursor::Head,
        part: Part::Head {
            ver: state.ver,
            seq: state.seq,
            present: state.obj.is_some(),
        },
        next: Some(next),
    }
}

// The first 65,536 bytes, or all of them.
#[tactic(auto, using(crate::proofs::Cutting::short_piece))]
fn first_bytes(bytes: &[u8]) -> &[u8]
    ensures { result.now ≡ take 65536 bytes.now }
{
    if bytes.len() <= CHUNK_LIMIT {
        return bytes;
    }
    let (piece, _) = bytes.split_at(CHUNK_LIMIT);
    piece
}

// The place behind a piece of the body, from which on so many bytes are left.
fn behind_piece(obj: &Obj, off: u64, left: usize) -> Cursor
    requires { off + left < 2 ^ 64 }
    ensures { result ≡ (if nat_lt 65536 left then place.Body (off + 65536)
        else behind_body obj.now) }
{
    if left > CHUNK_LIMIT {
        Cursor::Body(off + 65_536)
    } else {
        behind_body(obj)
    }
}

// The piece of a body at an offset.
fn body_chunk(alloc: Global, obj: &Obj, off: u64) -> Result<Option<Chunk>, NoMemory>
    ensures { IfOk result (λ chunk. chunk ≡ body_chunk obj.now off) }
{
    let body = obj.body.as_slice();
    if off % 65_536 != 0 || off >= body.len() as u64 {
        return Ok(None);
    }
    let (_, rest) = body.split_at(off as usize);
    let piece = Vec::from_slice(alloc, first_bytes(rest))?;
    Ok(Some(Chunk {
        at: Cursor::Body(off),
        part: Part::Body(Bytes::from_vec(piece)),
        next: Some(behind_piece(obj, off, rest.len())),
    }))
}

// The attributes behind a key.
fn attrs_chunk(
    alloc: Global,
    obj: &Obj,
    key: &Option<Name>,
    known: bool,
) -> Result<Option<Chunk>, NoMemory>
    requires { known ≡ true → is_some (group_at obj.now.attrs key.now) ≡ true }
    ensures { IfOk result (λ chunk. chunk
        ≡ table_chunk place.Attrs (behind_attrs obj.now) key.now (group_at obj.now.attrs key.now)) }
{
    let Some(Group { pairs, last }) = group_at(alloc, &obj.attrs, key.as_ref(), known)? else {
        return Ok(None);
    };
    let next = match last {
        None => behind_attrs(obj),
        Some(last) => Cursor::Attrs(Some(last)),
    };
    Ok(Some(Chunk {
        at: Cursor::Attrs(key.clone()?),
        part: Part::Pairs(pairs),
        next: Some(next),
    }))
}

// The entries of the omap behind a key.
fn omap_chunk(
    alloc: Global,
    obj: &Obj,
    key: &Option<Name>,
    known: bool,
) -> Result<Option<Chunk>, NoMemory>
    requires { known ≡ true → is_some (group_at obj.now.omap key.now) ≡ true }
    ensures { IfOk result (λ chunk. chunk
        ≡ table_chunk place.Omap place.Seen key.now (group_at obj.now.omap key.now)) }
{
    let Some(Group { pairs, last }) = group_at(alloc, &obj.omap, key.as_ref(), known)? else {
        return Ok(None);
    };
    let next = match last {
        None => Cursor::Seen,
        Some(last) => Cursor::Omap(Some(last)),
    };
    Ok(Some(Chunk {
        at: Cursor::Omap(key.clone()?),
        part: Part::Pairs(pairs),
        next: Some(next),
    }))
}
