//! Laws of logs, for those who open them.
ghost use Rattle.std.specs.Prelude.{◌≡◌, ◌<◌, ◌^◌, ℕ, List};
ghost use Rattle.obj_model.specs.declared.change.Pool.{Pool};
ghost use Rattle.store_face.specs.Views.{Durable};
ghost use Rattle.log_image.specs.Images.{HoldsLog};
ghost use Rattle.log_image.specs.Fronts.{IsBad, IsHeaded};

/// A log has the head of its pool and pair, and no empty disk holds a log.
pub fn a_log_is_headed()
    ensures { (role : Pool) (pair : ℕ) (image : List ℕ) (log : Durable)
        → HoldsLog role pair image log → pair < 2 ^ 64 → IsHeaded role pair image }
{}

/// The bytes of a disk hold at most one log of a pool and a pair.
pub fn one_log()
    ensures { (role : Pool) (pair : ℕ) (image : List ℕ) (l m : Durable) → HoldsLog role pair image l
        → HoldsLog role pair image m → l ≡ m }
{}

/// A log is not refused.
pub fn a_log_is_not_refused()
    ensures { (role : Pool) (pair : ℕ) (image : List ℕ) (log : Durable) (at : ℕ)
        → HoldsLog role pair image log → pair < 2 ^ 64 → IsBad role pair image at → ⊥ }
{}
