//! A name is promoted: its state is copied from the base in chunks.
ghost use Rattle.std.specs.FinMap as fin;
ghost use Rattle.std.specs.Prelude.{◌≡◌, ◌+◌, ◌<◌, None, length, IfOk, OnErr, OnOk};
ghost use Rattle.obj_model.specs.Limits.{number_limit};
ghost use Rattle.tier_core.specs.Promotes.{AsksOn, BeginsOr, Gathers, promotion_begun};
ghost use Rattle.tier_core.specs.Proxies.{counted};
ghost use Rattle.tier_flight.specs.Numbers.{IsNewBy, has_call, has_opid};
ghost use Rattle.tier_join.specs.Promises.{as_it_is};
ghost use Rattle.tier_promote.specs.Begins.{new_promotion, promotion_flies, promotion_flown};
ghost use Rattle.tier_types.specs.Flights.{name_asked};
ghost use Rattle.tier_view.specs.Answers.{KeepsQuietly};
ghost use Rattle.tier_view.specs.Changes.{with_flown};
ghost use Rattle.tier_view.specs.Laws.{Keeps};
ghost use Rattle.tier_works.specs.Promotions.{BeginsPromotion};

use crate::Group;
use crate::parts::Start;
use obj_model::{NUMBER_LIMIT, Name, NoMemory};
use std::alloc::Global;
use store_face::Store;
use tier_calls::CallTable;
use tier_promote::{Gathered, ask_chunk, begin_promotion, gather};
use tier_traffic::Wires;
use tier_types::Ask;

/// Why a promotion did not begin. Nothing has changed.
#[derive(Clone, Copy, Debug, PartialEq, Eq)]
pub enum PromoteFault {
    /// The numbers of operations have come to their end, 2^62.
    Worn { limit: u64 },
    /// There was no memory.
    NoMemory,
}

// Begins a promotion in the tables, at this number of answers, under the next operation's number,
// and asks for its first chunk. Answers the message's number. Without memory nothing changes.
fn begin_parts(
    alloc: Global,
    calls: &mut CallTable,
    wires: &mut Wires,
    start: &mut Start,
    call: u64,
    ask: Ask,
    now: u64,
) -> Result<u64, NoMemory>
    requires low { start.old.next_opid < number_limit }
    requires next { start.old.next_opid + calls.old.earlier ≡ length calls.old.calls.flown + 1 }
    requires free { fin.get wires.old.traffic.flights (name_asked ask) ≡ None }
    requires operation { IsNewBy has_opid wires.old.traffic.flights
        (new_promotion call start.old.next_opid ask) }
    requires caller { IsNewBy has_call wires.old.traffic.flights
        (new_promotion call start.old.next_opid ask) }
    ensures number { IfOk result (λ number. number ≡ wires.old.traffic.next_message) }
    ensures calls { OnOk result (calls.new.calls
        ≡ with_flown (promotion_flown call start.old.next_opid now ask) calls.old.calls) }
    ensures earlier { calls.new.earlier ≡ calls.old.earlier }
    ensures wires { OnOk result (wires.new.traffic
        ≡ promotion_flies call start.old.cache_epoch start.old.next_opid ask wires.old.traffic) }
    ensures start { OnOk result (start.new ≡ counted start.old) }
    ensures calls_stay { OnErr result (calls.new.calls ≡ calls.old.calls) }
    ensures wires_stay { OnErr result (wires.new.traffic ≡ wires.old.traffic) }
    ensures start_stays { OnErr result (start.new ≡ start.old) }
{
    let epoch = start.cache_epoch;
    let opid = start.next_opid;
    let number = begin_promotion(alloc, calls, wires, call, epoch, opid, now, ask)?;
    start.next_opid += 1;
    Ok(number)
}

impl<P: Store> Group<P> {
    // Begins a promotion whose number is within its limit.
    fn fly_promotion(&mut self, call: u64, ask: Ask) -> Result<u64, NoMemory>
        requires may { BeginsPromotion self.old call ask }
        requires low { self.old.standing.next_opid < number_limit }
        ensures number { IfOk result (λ number. number ≡ self.old.traffic.next_message) }
        ensures begun { OnOk result (self.new ≡ promotion_begun call ask self.old) }
        ensures step { OnOk result (Keeps as_it_is None self.old self.new) }
        ensures refused { OnErr result (self.new ≡ self.old) }
    {
        let Group {
            alloc,
            history,
            calls,
            wires,
            start,
            ..
        } = self;
        let now = history.answers().len() as u64;
        begin_parts(*alloc, calls, wires, start, call, ask, now)
    }

    /// Begins the promotion of the name that a call in flight asks about, which has no record and
    /// no work, and asks the base for the first chunk of its state: both are one step. The call
    /// drives the promotion, and awaits the reply. Answers the message's number.
    pub fn begin_promotion(&mut self, call: u64, ask: Ask) -> Result<u64, PromoteFault>
        requires { BeginsPromotion self.old call ask }
        ensures { BeginsOr call ask self.old self.new result }
    {
        if self.start.next_opid >= NUMBER_LIMIT {
            return Err(PromoteFault::Worn {
                limit: NUMBER_LIMIT,
            });
        }
        match self.fly_promotion(call, ask) {
            Ok(number) => Ok(number),
            Err(_) => Err(PromoteFault::NoMemory),
        }
    }

    /// Asks for the chunk that the promotion on a name wants, at first or again. Its call awaits
    /// the reply, and no other. Answers the message's number; none where no promotion is on the
    /// name, or it is whole, and then nothing changes. Without memory nothing changes.
    pub fn ask_chunk(&mut self, name: &Name) -> Result<Option<u64>, NoMemory>
        requires settled { self.old.stores.pending ≡ None }
        ensures asks { IfOk result (AsksOn name.now self.old self.new) }
        ensures step { OnOk result (KeepsQuietly self.old self.new) }
        ensures refused { OnErr result (self.new ≡ self.old) }
    {
        let Group { wires, start, .. } = self;
        ask_chunk(wires, start.cache_epoch, name)
    }

    /// Takes the chunk that the reply of this number brings, if a promotion under way wants it: the
    /// reply is gone then, and the next chunk is to be asked for. Chunks that come late or twice,
    /// and those of an earlier promotion or epoch, are not taken. One that stands at the wanted
    /// place, but that no lawful state has there, is told. Without memory nothing changes.
    pub fn gather(&mut self, reply: u64) -> Result<Gathered, NoMemory>
        requires settled { self.old.stores.pending ≡ None }
        ensures gathers { IfOk result (Gathers reply self.old self.new) }
        ensures step { OnOk result (KeepsQuietly self.old self.new) }
        ensures refused { OnErr result (self.new ≡ self.old) }
    {
        let Group { wires, start, .. } = self;
        gather(wires, start.cache_epoch, reply)
    }
}
