//! The base is opened anew.
ghost use Rattle.std.specs.Prelude.{◌≡◌, None, Some};
ghost use Rattle.base_pool.specs.Views.{IsLive, SoundBase};
ghost use Rattle.obj_model.specs.declared.change.Pool.TheVariants as pool;
ghost use Rattle.tier_core.specs.Looks.{FindsThere, HoldsEpoch, fault_there};
ghost use Rattle.tier_core.specs.Opens.{LooksThere, OpensBase, halted_there, stopped_there};
ghost use Rattle.tier_core.specs.Steps.{IsStep};
ghost use Rattle.tier_view.specs.Starts.{pool_in};
ghost use Rattle.tier_view.specs.Whole.{IsElsewhere};
ghost use Rattle.tier_view.specs.declared.parts.Pending.TheVariants as pending;

use crate::Group;
use crate::opening::{Found, OpenFault, found_at, make_room, pool_of, settle};
use crate::parts::Start;
use base_pool::{Base, BaseFault};
use obj_model::{Name, Pool};
use std::alloc::Global;
use store_face::{Store, StoreFault};
use tier_chron::Act;
use tier_view::Pending;

// A fault of the base, as one of its opening.
fn fault_there(fault: BaseFault) -> OpenFault
    ensures { result ≡ fault_there fault }
{
    match fault {
        BaseFault::Store(fault) => OpenFault::Store(fault),
        BaseFault::BadRecord { name } => OpenFault::BadRecord { name },
    }
}

// Closes a base that is not at this epoch.
fn hold_epoch<P: Store>(base: &mut Base<P>, epoch: u64) -> Result<(), OpenFault>
    ensures held { HoldsEpoch epoch base.old base.new result }
    ensures was_sound { SoundBase base.old }
    ensures sound { SoundBase base.new }
{
    let found = base.epoch();
    if found == epoch {
        return Ok(());
    }
    base.close();
    Err(OpenFault::OtherEpoch { found })
}

// Reads the state of a name again, to which memory is the same.
fn find_name<P: Store>(alloc: Global, base: &mut Base<P>, name: &Name) -> Result<Found, OpenFault>
    requires live { IsLive base.old }
    ensures found { FindsThere (Some (pending.Plain pool.Base name.now)) base.old.epoch base.old
        base.new result }
    ensures sound { SoundBase base.new }
{
    match base.state(alloc, name) {
        Err(fault) => Err(fault_there(fault)),
        Ok(_) => Ok(Found::There),
    }
}

// Whether the base has the act in doubt, which leaves its name with this `seq`.
fn find_act<P: Store>(
    alloc: Global,
    base: &mut Base<P>,
    act: &Act,
    seq: u64,
) -> Result<Found, OpenFault>
    requires live { IsLive base.old }
    ensures found { (first : _) → FindsThere (Some (pending.Act pool.Base first act.now seq))
        base.old.epoch base.old base.new result }
    ensures sound { SoundBase base.new }
{
    match base.seq_of(alloc, &act.req.name) {
        Err(fault) => Err(fault_there(fault)),
        Ok(found) => Ok(found_at(found, seq)),
    }
}

// Whether the base is at the epoch in doubt, or at the one that is kept.
fn find_epoch<P: Store>(base: &mut Base<P>, epoch: u64, kept: u64) -> Result<Found, OpenFault>
    requires live { IsLive base.old }
    ensures found { FindsThere (Some (pending.Epoch pool.Base epoch)) kept base.old base.new
        result }
    ensures sound { SoundBase base.new }
{
    if base.epoch() == epoch {
        return Ok(Found::There);
    }
    match hold_epoch(base, kept) {
        Err(fault) => Err(fault),
        Ok(()) => Ok(Found::Gone),
    }
}

// What a live base has of the commit in doubt, which is one of the base.
fn find_doubt<P: Store>(
    alloc: Global,
    base: &mut Base<P>,
    doubt: &Pending,
    kept: u64,
) -> Result<Found, OpenFault>
    requires live { IsLive base.old }
    requires there { pool_in doubt.now ≡ pool.Base }
    ensures found { FindsThere (Some doubt.now) kept base.old base.new result }
    ensures sound { SoundBase base.new }
{
    match doubt {
        Pending::Epoch { epoch, .. } => find_epoch(base, *epoch, kept),
        Pending::Plain { name, .. } => match hold_epoch(base, kept) {
            Err(fault) => Err(fault),
            Ok(()) => find_name(alloc, base, name),
        },
        Pending::Act { act, seq, .. } => match hold_epoch(base, kept) {
            Err(fault) => Err(fault),
            Ok(()) => find_act(alloc, base, act, *seq),
        },
    }
}

// No commit of the base is in doubt.
fn find_nothing<P: Store>(base: &mut Base<P>, kept: u64) -> Result<Found, OpenFault>
    requires live { IsLive base.old }
    ensures found { (p : _) → IsElsewhere pool.Base p → FindsThere p kept base.old base.new result }
    ensures sound { SoundBase base.new }
{
    match hold_epoch(base, kept) {
        Err(fault) => Err(fault),
        Ok(()) => Ok(Found::Nothing),
    }
}

// What a live base has of the commit in doubt. A base that is at another epoch than memory is
// closed.
fn find_there<P: Store>(
    alloc: Global,
    base: &mut Base<P>,
    pending: &Option<Pending>,
    kept: u64,
) -> Result<Found, OpenFault>
    requires live { IsLive base.old }
    ensures found { FindsThere pending.now kept base.old base.new result }
    ensures sound { SoundBase base.new }
{
    match pending {
        None => find_nothing(base, kept),
        Some(doubt) => {
            if pool_of(doubt) == Pool::Base {
                find_doubt(alloc, base, doubt, kept)
            } else {
                find_nothing(base, kept)
            }
        }
    }
}

// Opens the base anew, and looks for what is in doubt.
fn look_there<P: Store>(
    alloc: Global,
    base: &mut Base<P>,
    pending: &Option<Pending>,
    kept: u64,
) -> Result<Found, OpenFault>
    ensures looked { LooksThere pending.now kept base.old base.new result }
    ensures sound { SoundBase base.new }
{
    match base.reopen(alloc) {
        Err(fault) => Err(fault_there(fault)),
        Ok(()) => find_there(alloc, base, pending, kept),
    }
}

// Behind this fault a base that is at another epoch counts as stopped.
fn halt_there(fault: &OpenFault, base_stopped: &mut bool, start: &mut Start)
    ensures stopped { base_stopped.new ≡ stopped_there fault.now base_stopped.old }
    ensures start { start.new ≡ halted_there fault.now start.old }
{
    if let OpenFault::OtherEpoch { .. } = fault {
        *base_stopped = true;
        start.fenced = false;
    }
}

impl<P: Store> Group<P> {
    /// Opens the base's store anew, and settles what is in doubt of the base: an act that is there
    /// enters the history, an epoch that is there is the base's, and what is not there never was.
    /// The base runs again.
    ///
    /// With a fault what is in doubt stays so. The base is not live where its store was not opened;
    /// at an epoch that is neither the one in memory nor the one in doubt it counts as stopped.
    pub fn open_base(&mut self) -> Result<(), OpenFault>
        ensures opened { OpensBase self.old self.new result }
        ensures step { IsStep None self.old self.new }
    {
        let Group {
            alloc,
            base,
            base_stopped,
            pending,
            history,
            calls,
            start,
            ..
        } = self;
        if make_room(history, pending).is_err() {
            return Err(OpenFault::Store(StoreFault::NoMemory));
        }
        let found = match look_there(*alloc, base, pending, start.base_epoch) {
            Ok(found) => found,
            Err(fault) => {
                halt_there(&fault, base_stopped, start);
                return Err(fault);
            }
        };
        *base_stopped = false;
        settle(found, pending, history, calls, start);
        Ok(())
    }
}
