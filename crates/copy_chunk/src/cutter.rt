//! A state that is given in chunks, one after the other.
ghost use Rattle.std.specs.Prelude.{◌≡◌, IfOk, Some, true};
ghost use Rattle.copy_chunk.specs.Chunks.{chunks_of, chunk_at};
ghost use Rattle.copy_chunk.specs.Cuts.{next_of};

use crate::cut::cut;
use crate::{Chunk, Cursor};
use obj_model::{NameState, NoMemory};
use std::alloc::Global;
use std::marker::Model;

/// A state that is given in chunks. It remembers the place that the last chunk named, so that the
/// chunks in their order cost no more than one way through the state. It is seen as its state.
#[derive(Debug, Drop)]
pub struct Cutter {
    state: NameState,
    next: Option<Cursor>,
}

impl Model for Cutter {
    ghost use Rattle.obj_model.specs.contracts.state.NameState as whole;
    ghost use Rattle.obj_model.specs.declared.state.NameState.{NameState};
    ghost use Rattle.copy_chunk.specs.Cuts.{AreThere};

    ghost Value = { NameState };

    ghost coded = { whole.the_row.coded };

    ghost view = { λ c. c.state };

    ghost invariant = { λ c. AreThere c.state c.next };
}

// Whether this place is the one that the last chunk named.
fn is_next(next: &Option<Cursor>, at: &Cursor) -> bool
    ensures { result ≡ true → next.now ≡ Some at.now }
{
    match next {
        None => false,
        Some(place) => place == at,
    }
}

// The place that a chunk names.
fn next_of(chunk: &Option<Chunk>) -> Result<Option<Cursor>, NoMemory>
    ensures { IfOk result (λ next. next ≡ next_of chunk.now) }
{
    match chunk {
        None => Ok(None),
        Some(chunk) => Ok(chunk.next.clone()?),
    }
}

impl Cutter {
    /// A state of which no chunk was given.
    pub fn new(state: NameState) -> Cutter
        ensures { result ≡ state }
    {
        Cutter { state, next: None }
    }

    /// The state.
    pub fn state(&self) -> &NameState
        ensures { result.now ≡ self.now }
    {
        &self.state
    }

    /// The state itself, which is given back.
    pub fn into_state(self) -> NameState
        ensures { result ≡ self }
    {
        let Cutter { state, .. } = self;
        state
    }

    /// The chunk at a place, as `chunk_of` gives it.
    pub fn chunk(&mut self, alloc: Global, at: &Cursor) -> Result<Option<Chunk>, NoMemory>
        ensures chunk { IfOk result (λ chunk. chunk ≡ chunk_at (chunks_of self.old) at.now) }
        ensures same { self.new ≡ self.old }
    {
        let known = is_next(&self.next, at);
        let chunk = cut(alloc, &self.state, at, known)?;
        self.next = next_of(&chunk)?;
        Ok(chunk)
    }
}
