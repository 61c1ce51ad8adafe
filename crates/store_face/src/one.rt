//! Transactions of one change.
ghost use Rattle.std.specs.Prelude.{◌≡◌, ◌∷◌, [], true, IfOk};
ghost use Rattle.obj_model.specs.Changes.{IsTxn};
ghost use Rattle.store_face.specs.Calls.{Committed};
ghost use Rattle.store_face.specs.Views.{Sound};

use crate::{Store, StoreFault};
use obj_model::{Change, NoMemory};
use std::alloc::Global;

/// The list of one change, which is not copied.
pub fn one_change(alloc: Global, change: Change) -> Result<Vec<Change>, NoMemory>
    ensures { IfOk result (λ changes. changes.items ≡ change ∷ []) }
{
    Ok(vec![in alloc; change]?)
}

/// Makes one change of a store, as `commit` does.
#[tactic(auto, using(crate::proofs::Later::stays_same))]
pub fn commit_one<P: Store>(alloc: Global, store: &mut P, change: Change) -> Result<(), StoreFault>
    requires live { (P.state store.old).live ≡ true }
    requires sound { Sound (P.state store.old) }
    requires lawful { IsTxn (change ∷ []) }
    ensures committed { Committed (change ∷ []) (P.state store.old) (P.state store.new) result }
    ensures sound { Sound (P.state store.new) }
{
    let changes = one_change(alloc, change)?;
    store.commit(changes)
}
