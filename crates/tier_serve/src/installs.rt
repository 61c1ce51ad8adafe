//! Installations.
ghost use Rattle.tier_serve.specs.Installs.{ServingInstalls};

/// An installation, where it is known how many requests the base's state has had.
pub fn serving_installs()
    ensures { ServingInstalls }
{}
