//! Work that may be put on a name.
ghost use Rattle.tier_works.specs.Works.{NewWorkIsNew};

/// Work of the next number, of a call that waits for no work, is new among all that stands.
pub fn new_work_is_new()
    ensures { NewWorkIsNew }
{}
