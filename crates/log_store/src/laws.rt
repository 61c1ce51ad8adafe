//! A law of logs that are opened one after another.
ghost use Rattle.std.specs.Prelude.{◌≡◌, ◌<◌, ◌^◌, ℕ, List};
ghost use Rattle.obj_model.specs.declared.change.Pool.{Pool};
ghost use Rattle.store_face.specs.Views.{Durable};
ghost use Rattle.log_image.specs.Images.{HoldsLog};
ghost use Rattle.log_store.specs.Opens.{OpensAs};

/// A disk that holds a log is opened with what that log holds: its map, and what is used of the
/// room. So a store goes on with the room that was left.
pub fn a_log_goes_on()
    ensures { (role : Pool) (pair : ℕ) (image : List ℕ) (log opened : Durable) → pair < 2 ^ 64
        → HoldsLog role pair image log → OpensAs role pair opened image → opened ≡ log }
{}
