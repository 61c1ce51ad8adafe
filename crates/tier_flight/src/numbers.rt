//! The numbers of work: entering them into the indexes, and taking them out.
ghost use Rattle.std.specs.Prelude.{◌≡◌, true, None, Some, OnErr, OnOk};
ghost use Rattle.std.specs.Option.{option_copied};
ghost use Rattle.tier_flight.specs.Ends.{is_call};
ghost use Rattle.tier_flight.specs.Indexes.{AreEntered, AreForgotten, IsSameIndex, ends_opid, ends_reads, name_in, other_opid};
ghost use Rattle.tier_flight.specs.Numbers.{IsSingle, has_call, has_opid, reads_call, reads_opid};

use crate::ending::{is_call, is_other};
use crate::index::Index;
use obj_model::{Name, NoMemory};
use std::alloc::Global;
use tier_types::{Flight, ReadFlight};

/// The names of operations and of calls.
#[derive(Drop)]
pub(crate) struct Numbers {
    pub(crate) opids: Index,
    pub(crate) calls: Index,
}

impl Numbers {
    pub(crate) fn new(alloc: Global) -> Numbers
        ensures opids { (k : _) → name_in result.opids k ≡ None }
        ensures calls { (k : _) → name_in result.calls k ≡ None }
    {
        Numbers {
            opids: Index::new(alloc),
            calls: Index::new(alloc),
        }
    }

    /// Gives an operation and its call this name. Without memory nothing changes.
    pub(crate) fn enter(
        &mut self,
        opid: Option<u64>,
        call: Option<u64>,
        name: &Name,
    ) -> Result<(), NoMemory>
        requires { (k : _) → is_call k opid ≡ true → name_in self.old.opids k ≡ None }
        ensures opids { OnOk result
            (AreEntered (λ k. is_call k opid) name.now self.old.opids self.new.opids) }
        ensures calls { OnOk result
            (AreEntered (λ k. is_call k call) name.now self.old.calls self.new.calls) }
        ensures opids_stay { OnErr result (IsSameIndex self.old.opids self.new.opids) }
        ensures calls_stay { OnErr result (IsSameIndex self.old.calls self.new.calls) }
    {
        match self.opids.enter_some(opid, name) {
            Ok(()) => {}
            Err(_) => return Err(NoMemory),
        }
        match self.calls.enter_some(call, name) {
            Ok(()) => Ok(()),
            Err(_) => {
                self.opids.forget_some(opid);
                Err(NoMemory)
            }
        }
    }

    /// Takes an operation and its call out.
    pub(crate) fn leave(&mut self, opid: Option<u64>, call: Option<u64>)
        ensures opids { AreForgotten (λ k. is_call k opid) self.old.opids self.new.opids }
        ensures calls { AreForgotten (λ k. is_call k call) self.old.calls self.new.calls }
    {
        self.opids.forget_some(opid);
        self.calls.forget_some(call);
    }

    /// Takes all numbers of this work out.
    pub(crate) fn leave_all(&mut self, work: &Flight)
        ensures opids { AreForgotten (has_opid (Some work.now)) self.old.opids self.new.opids }
        ensures calls { AreForgotten (has_call (Some work.now)) self.old.calls self.new.calls }
    {
        match work {
            Flight::Promote { call, opid, .. } => self.leave(Some(*opid), Some(*call)),
            Flight::Write { driver, opid, .. } => self.leave(Some(*opid), *driver),
            Flight::Reads { list } => self.leave_reads(list.as_slice()),
            Flight::Flush { call, opid, .. } => self.leave(Some(*opid), *call),
        }
    }

    // Takes the numbers of these reads out.
    fn leave_reads(&mut self, reads: &[ReadFlight])
        ensures opids { AreForgotten (λ k. reads_opid k reads.now) self.old.opids self.new.opids }
        ensures calls { AreForgotten (λ k. reads_call k reads.now) self.old.calls self.new.calls }
    {
        for read in reads {
            self.leave(Some(read.opid), Some(read.call));
        }
    }
}

/// The operation that this work is.
pub(crate) fn opid_of(work: &Flight) -> Option<u64>
    requires { IsSingle work.now }
    ensures { (k : _) → has_opid (Some work.now) k ≡ is_call k result }
{
    match work {
        Flight::Promote { opid, .. } => Some(*opid),
        Flight::Write { opid, .. } => Some(*opid),
        Flight::Reads { list } => Some(list.as_slice().first()?.opid),
        Flight::Flush { opid, .. } => Some(*opid),
    }
}

/// The call that waits for this work, if one does.
pub(crate) fn call_of(work: &Flight) -> Option<u64>
    requires { IsSingle work.now }
    ensures { (k : _) → has_call (Some work.now) k ≡ is_call k result }
{
    match work {
        Flight::Promote { call, .. } => Some(*call),
        Flight::Write { driver, .. } => *driver,
        Flight::Reads { list } => Some(list.as_slice().first()?.call),
        Flight::Flush { call, .. } => *call,
    }
}

/// Takes the operations out that the end of the call ends.
pub(crate) fn leave_ended(opids: &mut Index, call: u64, work: Option<&Flight>)
    ensures { AreForgotten (ends_opid call (option_copied work.entry)) opids.old opids.new }
{
    match work {
        Some(
            Flight::Promote {
                call: asker,
                opid,
                ..
            },
        ) if *asker == call => {
            opids.forget(*opid);
        }
        Some(
            Flight::Flush {
                call: waiter,
                opid,
                ..
            },
        ) if is_call(call, *waiter) => {
            opids.forget(*opid);
        }
        Some(Flight::Reads { list }) => leave_ended_reads(opids, call, list.as_slice()),
        _ => {}
    }
}

// Takes the operations of the call's reads out, but for those that others have too.
fn leave_ended_reads(opids: &mut Index, call: u64, reads: &[ReadFlight])
    ensures { AreForgotten (ends_reads call reads.now reads.now) opids.old opids.new }
{
    for read in reads {
        if !is_other(call, read) && !has_other(call, read.opid, reads) {
            opids.forget(read.opid);
        }
    }
}

// Whether another call's read is this operation.
fn has_other(call: u64, opid: u64, reads: &[ReadFlight]) -> bool
    ensures { result ≡ other_opid call reads.now opid }
{
    reads
        .iter()
        .any(|read| is_other(call, read) && read.opid == opid)
}
