//! Laws of chunks and their gathering, for those who carry chunks from one pool to the other.
ghost use Rattle.std.specs.Prelude.{◌≡◌, ◌++◌, ◌∷◌, List, [], Some, None, true};
ghost use Rattle.obj_model.specs.States.{IsState};
ghost use Rattle.obj_model.specs.declared.state.NameState.{NameState};
ghost use Rattle.copy_chunk.specs.declared.chunk.Chunk.{Chunk};
ghost use Rattle.copy_chunk.specs.declared.chunk.Cursor.{Cursor};
ghost use Rattle.copy_chunk.specs.Chunks.{chunks_of, chunk_at};
ghost use Rattle.copy_chunk.specs.Gathers.{wanted, joined, IsFront, IsChain, AreOf, GoesOn, fits};

/// The chunks of a state join to it, its kept requests and counts included.
#[tactic(auto, using(crate::proofs::Fronts::chunks_join))]
pub fn chunks_join()
    ensures { (s : NameState) → joined (chunks_of s) ≡ Some s }
{}

/// The first chunks of a state, where they join to a state, join to that one.
pub fn fronts_join()
    ensures { (cs : List Chunk) (b s : NameState) → IsFront cs (chunks_of b) → joined cs ≡ Some s
        → s ≡ b }
{}

/// Behind the first chunks of a state the place that is wanted is one of the state, and with the
/// chunk there they are its first chunks again. Where none is wanted they are all of them.
#[tactic(auto, using(crate::proofs::Fronts::front_goes_on))]
pub fn fronts_go_on()
    ensures more { (cs : List Chunk) (s : NameState) (at : Cursor) → IsFront cs (chunks_of s)
        → wanted cs ≡ Some at → GoesOn s cs at }
    ensures all { (cs : List Chunk) (s : NameState) → IsFront cs (chunks_of s) → wanted cs ≡ None
        → cs ≡ chunks_of s }
{}

/// Chunks that were each wanted behind those before, and all come from one state, are its first
/// chunks: whatever came late, twice or from elsewhere in between and was ignored.
#[tactic(auto, using(crate::proofs::Fronts::chain_is_front))]
pub fn chains_are_fronts()
    ensures { (s : NameState) (cs : List Chunk) → IsChain cs → AreOf s cs
        → IsFront cs (chunks_of s) }
{}

/// Behind its first chunks the next chunk of a lawful state fits, and so does the one at the place
/// that is wanted: a gather of chunks of one lawful state takes each that it wants.
pub fn own_chunks_fit()
    ensures next { (s : NameState) (cs : List Chunk) (c : Chunk) → IsState s
        → IsFront (cs ++ c ∷ []) (chunks_of s) → fits cs c ≡ true }
    ensures there { (s : NameState) (cs : List Chunk) (c : Chunk) (at : Cursor) → IsState s
        → IsFront cs (chunks_of s) → wanted cs ≡ Some at → chunk_at (chunks_of s) at ≡ Some c
        → fits cs c ≡ true }
{}
