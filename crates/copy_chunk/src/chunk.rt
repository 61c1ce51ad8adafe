//! Chunks and their places.
ghost use Rattle.std.specs.Prelude.{◌≡◌};

use obj_model::{Bytes, EqualClone, KeptList, Name, PairList};
use std::alloc::AllocError;

/// A place in the chunks of a state.
#[derive(Debug, Drop, PartialEq, Eq)]
pub enum Cursor {
    /// The first chunk: the counts, and whether there is an object.
    Head,
    /// The piece of the body that begins at this offset, in bytes.
    Body(u64),
    /// The attributes behind this key; from the first one where there is no key.
    Attrs(Option<Name>),
    /// The omap's entries behind this key; from the first one where there is no key.
    Omap(Option<Name>),
    /// The last chunk: the kept requests.
    Seen,
}

/// What a chunk brings of a state.
#[derive(Clone, Debug, Drop)]
pub enum Part {
    /// The counts, and whether there is an object.
    Head { ver: u64, seq: u64, present: bool },
    /// A piece of the body, of at most 65,536 bytes.
    Body(Bytes),
    /// Whole pairs of one table, in the order of their keys, of at most 65,536 bytes together.
    Pairs(PairList),
    /// The kept requests.
    Seen(KeptList),
}

/// One chunk of a state.
#[derive(Clone, Debug, Drop)]
pub struct Chunk {
    /// Its place.
    pub at: Cursor,
    pub part: Part,
    /// The place of the following chunk; none behind the kept requests.
    pub next: Option<Cursor>,
}

impl Clone for Cursor {
    ghost is_clone = { λ at other. other ≡ at };

    fn clone(&self) -> Result<Cursor, AllocError> {
        Ok(match self {
            Cursor::Head => Cursor::Head,
            Cursor::Body(off) => Cursor::Body(*off),
            Cursor::Attrs(key) => Cursor::Attrs(key.clone()?),
            Cursor::Omap(key) => Cursor::Omap(key.clone()?),
            Cursor::Seen => Cursor::Seen,
        })
    }
}

impl EqualClone for Chunk {
    fn equal_clone(&self) -> Result<Chunk, AllocError> {
        self.clone()
    }
}

impl EqualClone for Cursor {
    fn equal_clone(&self) -> Result<Cursor, AllocError> {
        self.clone()
    }
}

impl EqualClone for Part {
    fn equal_clone(&self) -> Result<Part, AllocError> {
        self.clone()
    }
}
