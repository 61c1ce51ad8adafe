//! The names that changed a set, which only contracts read.
ghost use Rattle.std.specs.Prelude.{◌≡◌, [], ◌∷◌, ◌++◌};
ghost use Rattle.hit_sets.specs.Past.{names_of};

use obj_model::Name;
use std::snapshot::Snapshot;

/// The names that changed a set. A link has no bytes of the names or of the links before it.
#[derive(Drop)]
pub(crate) enum Past {
    Start,
    After(Snapshot<Past>, Snapshot<Name>),
}

impl Past {
    /// No name.
    pub(crate) fn new() -> Past
        ensures { names_of result ≡ [] }
    {
        Past::Start
    }

    /// One more name.
    pub(crate) fn push(&mut self, name: &Name)
        ensures { names_of self.new ≡ names_of self.old ++ name.now ∷ [] }
    {
        *self = Past::After(Snapshot::of(self), Snapshot::of(name));
    }
}
