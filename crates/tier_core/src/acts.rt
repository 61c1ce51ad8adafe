//! An act on a record, before and behind its commit.
ghost use Rattle.std.specs.Prelude.{◌≡◌, ◌≤◌, ◌+◌, IfOk, None, OnOk};
ghost use Rattle.obj_model.specs.Names.{name_fault};
ghost use Rattle.tier_core.specs.Acts.{first_for, log_after, pending_after, totals_behind};

use agent_state::Totals;
use obj_model::{Name, NameState, NoMemory, Pool};
use store_face::StoreFault;
use tier_chron::{Act, First, History};
use tier_view::Pending;

/// An act, with the opening that goes with it, the `seq` of its name behind it, and the sums over
/// the cache's records then.
#[derive(Debug, Drop)]
pub(crate) struct Acting {
    pub(crate) first: Option<First>,
    pub(crate) act: Act,
    pub(crate) seq: u64,
    pub(crate) totals: Totals,
}

// The opening that goes with an act on a name in this state: none where the name has one.
fn opening_for(history: &History, name: &Name, state: &NameState) -> Result<Option<First>, NoMemory>
    ensures { IfOk result
        (λ first. first ≡ first_for history.now.log.opening name.now state.now) }
{
    match history.opening_of(name) {
        Some(_) => Ok(None),
        None => Ok(Some(First {
            name: name.copy()?,
            state: state.copy()?,
        })),
    }
}

/// Takes memory for an act and so many pushes in all, and answers the opening that goes with it.
pub(crate) fn prepare(
    history: &mut History,
    pushes: u64,
    name: &Name,
    state: &NameState,
) -> Result<Option<First>, NoMemory>
    ensures same { history.new.log ≡ history.old.log }
    ensures named { name_fault name.now ≡ None }
    ensures room { OnOk result (pushes ≤ history.new.spare) }
    ensures first { IfOk result
        (λ first. first ≡ first_for history.old.log.opening name.now state.now) }
{
    // That a name is lawful is a fact that its bytes bring along.
    let _bytes = name.bytes();
    history.reserve(pushes)?;
    opening_for(history, name, state)
}

/// What the commit of an act came to: it enters the history, or is in doubt, or neither.
pub(crate) fn finish(
    history: &mut History,
    pending: &mut Option<Pending>,
    totals: &mut Totals,
    acting: Acting,
    made: Result<(), StoreFault>,
)
    requires { 1 ≤ history.old.spare }
    ensures room { history.old.spare ≤ history.new.spare + 1 }
    ensures log { history.new.log ≡ log_after acting.first acting.act made history.old.log }
    ensures pending { pending.new ≡ pending_after acting.first acting.act acting.seq made
        pending.old }
    ensures totals { totals.new ≡ totals_behind acting.totals made totals.old }
{
    let Acting {
        first,
        act,
        seq,
        totals: sums,
    } = acting;
    match made {
        Ok(()) => {
            history.push_act(first, act);
            *totals = sums;
        }
        Err(StoreFault::Disk) => {
            *pending = Some(Pending::Act {
                pool: Pool::Cache,
                first,
                act,
                seq,
            });
        }
        Err(_) => {}
    }
}
