//! Chunks gathered to a state.
ghost use Rattle.std.specs.Prelude.{◌≡◌, ◌≢◌, true, false, [], Some, None, IfOk, OnErr};
ghost use Rattle.std.specs.Prelude.{MatchResult};
ghost use Rattle.std.specs.Option.{option_copied};
ghost use Rattle.obj_model.specs.States.{IsState};
ghost use Rattle.copy_chunk.specs.Gathers.{wanted, joined, leads, IsChain, Adds};
ghost use Rattle.copy_chunk.specs.Steps.{state_of};

use crate::draft::Draft;
use crate::{Chunk, Cursor};
use obj_model::{NameState, NoMemory};
use std::alloc::Global;
use std::marker::Model;
use std::snapshot::Snapshot;

/// What a gather did with a chunk.
#[derive(Clone, Copy, Debug, PartialEq, Eq)]
pub enum Added {
    /// It was the wanted chunk, and is behind the others now.
    Taken,
    /// It was not the wanted chunk. Nothing changed.
    Ignored,
    /// It stands at the wanted place, but no lawful state has it behind the others: a limit would
    /// be passed, keys or clients would not rise, or it brings nothing or something of another
    /// kind. Nothing changed.
    Unfit,
}

/// The first chunks of a state, put together. It is seen as the list of these chunks, of which it
/// keeps no copy.
#[derive(Drop)]
pub struct Gather {
    draft: Draft,
    wanted: Option<Cursor>,
    chunks: Vec<Snapshot<Chunk>>,
}

impl Model for Gather {
    ghost use Rattle.std.specs.Prelude.{List, map};
    ghost use Rattle.copy_chunk.specs.declared.chunk.Chunk.{Chunk};
    ghost use Rattle.copy_chunk.specs.Steps.{IsGathered, state_of};

    ghost Value = { List Chunk };

    ghost view = { λ g. map (λ s. s.value) g.chunks.items };

    ghost invariant = { λ g. IsGathered (state_of g.draft) g.wanted
        (map (λ s. s.value) g.chunks.items) };
}

impl Gather {
    /// No chunk yet; the head is wanted.
    pub fn new(alloc: Global) -> Gather
        ensures { result ≡ [] }
    {
        Gather {
            draft: Draft::new(alloc),
            wanted: Some(Cursor::Head),
            chunks: Vec::new(alloc),
        }
    }

    /// The place of the chunk that is wanted next; none where the last one is there.
    pub fn wants(&self) -> Option<&Cursor>
        ensures place { option_copied result ≡ wanted self.now }
        ensures chain { IsChain self.now }
    {
        self.wanted.as_ref()
    }

    /// Takes the wanted chunk where it fits. Without memory nothing changes.
    pub fn add(&mut self, chunk: Chunk) -> Result<Added, NoMemory>
        ensures added { IfOk result (λ added. Adds chunk self.old added self.new) }
        ensures refused { OnErr result (self.new ≡ self.old) }
    {
        if !is_at(&self.wanted, &chunk.at) {
            return Ok(Added::Ignored);
        }
        if !leads(&chunk.at, &chunk.next) {
            return Ok(Added::Unfit);
        }
        let taken = Snapshot::of(&chunk);
        self.chunks.reserve(1)?;
        let Chunk { at, part, next } = chunk;
        if !self.draft.put(&at, part)? {
            return Ok(Added::Unfit);
        }
        self.chunks.push_reserved(taken);
        self.wanted = next;
        Ok(Added::Taken)
    }

    /// The state that the chunks join to; the gather as it was where a chunk is still wanted. It
    /// takes no memory.
    pub fn finish(self) -> Result<NameState, Gather>
        ensures exact { MatchResult result (λ s. joined self ≡ Some s)
            (λ g. (g ≡ self) × (joined self ≡ None)) }
        ensures lawful { IfOk result IsState }
    {
        match &self.wanted {
            Some(_) => Err(self),
            None => {
                let Gather { draft, .. } = self;
                Ok(draft.into_state())
            }
        }
    }
}

// Whether this place is the wanted one.
fn is_at(wanted: &Option<Cursor>, at: &Cursor) -> bool
    ensures yes { result ≡ true → wanted.now ≡ Some at.now }
    ensures no { result ≡ false → wanted.now ≢ Some at.now }
{
    match wanted {
        None => false,
        Some(place) => place == at,
    }
}

// What may follow a place: nothing behind the kept requests, anything but the head behind the
// others.
fn leads(at: &Cursor, next: &Option<Cursor>) -> bool
    ensures { result ≡ leads at.now next.now }
{
    match (at, next) {
        (Cursor::Seen, None) => true,
        (Cursor::Seen, Some(_)) => false,
        (_, None) => false,
        (_, Some(Cursor::Head)) => false,
        (_, Some(_)) => true,
    }
}
