//! What is between the pools.
ghost use Rattle.std.specs.FinMap as fin;
ghost use Rattle.std.specs.List.{list_any};
ghost use Rattle.std.specs.Option.{option_copied};
ghost use Rattle.std.specs.Prelude.{◌≡◌, true, false, [], IfOk, OnErr, OnOk};
ghost use Rattle.tier_flight.specs.Changes.{IsDroppedIn, IsFedIn, IsPromote, IsTakenIn, IsUnheld};
ghost use Rattle.tier_flight.specs.Joins.{IsJoinedIn, MayJoin};
ghost use Rattle.tier_flight.specs.Numbers.{IsIdle, IsNewBy, IsSingle, has_call, has_opid};
ghost use Rattle.tier_view.specs.Changes.{unawaited, unnoted, without_message, without_reply};
ghost use Rattle.tier_view.specs.Delivers.{replied_now};
ghost use Rattle.tier_traffic.specs.Left.{left_writes};
ghost use Rattle.tier_traffic.specs.Messages.{is_owned, replied_of, sent_for, sent_now, sent_of};
ghost use Rattle.tier_traffic.specs.Waits.{awaited_of, awaiting, beginning, begun_of, noted_of, noting, without_begun};
ghost use Rattle.tier_traffic.specs.Wires.{carrying, with_flights};

use crate::BegunAt;
use crate::awaits::Awaits;
use crate::begun::BegunFlushes;
use crate::notes::Notes;
use crate::numbered::Numbered;
use crate::works::Works;
use copy_chunk::{Added, Chunk};
use obj_model::{Name, NoMemory};
use std::alloc::Global;
use std::marker::Model;
use tier_flight::Flights;
use tier_types::{BaseMsg, BaseReply, Flight};
use tier_view::{Begun, Noted, Owner, Replied, Sent};

/// Unfinished work, messages and replies, what calls await, how far drains have come, and the
/// flushes that were begun alone.
///
/// Contracts see it as the traffic of a group, and beside it whether there is memory for the next
/// message (`message_room`) and for the next reply (`reply_room`).
#[derive(Drop)]
pub struct Wires {
    works: Works,
    begun: BegunFlushes,
    messages: Numbered<Sent>,
    replies: Numbered<Replied>,
    awaited: Awaits,
    noted: Notes,
}

impl Model for Wires {
    ghost use Rattle.std.specs.List.{AllByRecursion};
    ghost use Rattle.std.specs.Map.{values_of};
    ghost use Rattle.std.specs.Prelude.{◌≡◌};
    ghost use Rattle.tier_traffic.specs.Wires.{WiresView, coded_wires};

    ghost Value = { WiresView };

    ghost coded = { coded_wires };

    ghost view = { λ w. record {
      traffic = record {
        flights = w.works;
        begun = w.begun;
        messages = values_of w.messages.held;
        replies = values_of w.replies.held;
        next_message = w.messages.next;
        next_reply = w.replies.next;
        awaited = w.awaited;
        noted = w.noted;
      };
      message_room = w.messages.ready;
      reply_room = w.replies.ready;
    } };

    ghost invariant = { λ w. AllByRecursion (λ e. e.1.number ≡ e.0) w.messages.held
        × AllByRecursion (λ e. e.1.number ≡ e.0) w.replies.held };
}

impl Wires {
    /// Nothing is between the pools, and there is no memory for anything. The first message and the
    /// first reply have the number 1.
    pub fn new(alloc: Global) -> Wires
        ensures { result ≡ record {
          traffic = record {
            flights = fin.empty;
            begun = [];
            messages = [];
            replies = [];
            next_message = 1;
            next_reply = 1;
            awaited = [];
            noted = [];
          };
          message_room = false;
          reply_room = false;
        } }
    {
        Wires {
            works: Works::new(alloc),
            begun: BegunFlushes::new(alloc),
            messages: Numbered::new(alloc),
            replies: Numbered::new(alloc),
            awaited: Awaits::new(alloc),
            noted: Notes::new(alloc),
        }
    }

    /// The unfinished work.
    pub fn flights(&self) -> &Flights
        ensures { result.now ≡ self.now.traffic.flights }
    {
        self.works.flights()
    }

    /// How many write requests are left. It is a running count.
    pub fn left_writes(&self) -> u64
        ensures { result ≡ left_writes self.now.traffic.flights }
    {
        self.works.left_writes()
    }

    /// Puts work on a name that has none, or a read behind the reads that it has. Its operation and
    /// its call are new here. Without memory, or when write requests are counted no further,
    /// nothing changes.
    pub fn add(&mut self, name: Name, work: Flight) -> Result<(), NoMemory>
        requires place { MayJoin (fin.get self.old.traffic.flights name) work }
        requires single { IsSingle work }
        requires operation { IsNewBy has_opid self.old.traffic.flights work }
        requires caller { IsNewBy has_call self.old.traffic.flights work }
        ensures added { OnOk result
            (IsJoinedIn name work self.old.traffic.flights self.new.traffic.flights) }
        ensures frame { self.new ≡ with_flights self.new.traffic.flights self.old }
        ensures refused { OnErr result (self.new ≡ self.old) }
    {
        self.works.add(name, work)
    }

    /// Lets a call wait from now on for a write request that is left, or for a flush that was begun
    /// alone. The call waits for no other work. Without memory nothing changes.
    pub fn take_over(&mut self, name: &Name, call: u64) -> Result<(), NoMemory>
        requires free { IsUnheld (fin.get self.old.traffic.flights name.now) }
        requires idle { IsIdle call self.old.traffic.flights }
        ensures taken { OnOk result
            (IsTakenIn call name.now self.old.traffic.flights self.new.traffic.flights) }
        ensures frame { self.new ≡ with_flights self.new.traffic.flights self.old }
        ensures refused { OnErr result (self.new ≡ self.old) }
    {
        self.works.take_over(name, call)
    }

    /// Gives a chunk to the promotion on a name. Without memory nothing changes.
    pub fn feed(&mut self, name: &Name, chunk: Chunk) -> Result<Added, NoMemory>
        requires { IsPromote (fin.get self.old.traffic.flights name.now) }
        ensures fed { IfOk result (λ added.
            IsFedIn name.now chunk added self.old.traffic.flights self.new.traffic.flights) }
        ensures frame { self.new ≡ with_flights self.new.traffic.flights self.old }
        ensures refused { OnErr result (self.new ≡ self.old) }
    {
        self.works.feed(name, chunk)
    }

    /// Takes the work on a name out, and answers it. It takes no memory.
    pub fn remove(&mut self, name: &Name) -> Option<Flight>
        ensures before { result ≡ fin.get self.old.traffic.flights name.now }
        ensures taken { self.new ≡
            with_flights (fin.remove self.old.traffic.flights name.now) self.old }
    {
        self.works.remove(name)
    }

    /// Takes a call that ends out of all work: its promotion, its read and its flush are dropped,
    /// and its write request is left without a driver. A flush that was begun alone stays. It takes
    /// no memory.
    pub fn drop_call(&mut self, call: u64)
        ensures dropped { IsDroppedIn call self.old.traffic.flights self.new.traffic.flights }
        ensures frame { self.new ≡ with_flights self.new.traffic.flights self.old }
    {
        self.works.drop_call(call);
    }

    /// Drops all work. Messages and replies, what calls await and have noted, and flushes that were
    /// begun alone stay. It takes no memory.
    pub fn drop_work(&mut self, alloc: Global)
        ensures { self.new ≡ with_flights fin.empty self.old }
    {
        self.works = Works::new(alloc);
    }

    /// Takes memory for the next message. Without it, or when all numbers of messages were given,
    /// nothing changes.
    pub fn reserve_message(&mut self) -> Result<(), NoMemory>
        ensures ok { OnOk result (self.new ≡ record self.old { message_room = true }) }
        ensures err { OnErr result (self.new ≡ self.old) }
    {
        self.messages.reserve()
    }

    /// Takes memory for the next reply. Without it, or when all numbers of replies were given,
    /// nothing changes.
    pub fn reserve_reply(&mut self) -> Result<(), NoMemory>
        ensures ok { OnOk result (self.new ≡ record self.old { reply_room = true }) }
        ensures err { OnErr result (self.new ≡ self.old) }
    {
        self.replies.reserve()
    }

    /// Sends a message under the next number, which it answers. A Write has an owner. It takes no
    /// memory.
    pub fn send(&mut self, message: BaseMsg, owner: Option<Owner>) -> u64
        requires { self.old.message_room ≡ true }
        ensures number { result ≡ self.old.traffic.next_message }
        ensures sent { self.new ≡ record self.old {
          traffic = sent_now message owner self.old.traffic;
          message_room = false;
        } }
    {
        let number = self.messages.next();
        self.messages.put(Sent {
            number,
            message,
            owner,
        });
        number
    }

    /// Sends a message under the next number, which it answers, for a call that awaits the reply to
    /// it and to no other. A Write has an owner. Without memory nothing changes.
    pub fn send_for(
        &mut self,
        call: u64,
        message: BaseMsg,
        owner: Option<Owner>,
    ) -> Result<u64, NoMemory>
        ensures number { IfOk result (λ number. number ≡ self.old.traffic.next_message) }
        ensures sent { OnOk result (self.new ≡ record self.old {
          traffic = sent_for call message owner self.old.traffic;
          message_room = false;
        }) }
        ensures refused { OnErr result (self.new.traffic ≡ self.old.traffic) }
    {
        self.reserve_message()?;
        self.awaited.set(call, self.messages.next())?;
        Ok(self.send(message, owner))
    }

    /// Sends a reply to the message of this number under the next number of a reply, which it
    /// answers. It takes no memory.
    pub fn reply(&mut self, answers: u64, reply: BaseReply) -> u64
        requires { self.old.reply_room ≡ true }
        ensures number { result ≡ self.old.traffic.next_reply }
        ensures sent { self.new ≡ record self.old {
          traffic = replied_now answers reply self.old.traffic;
          reply_room = false;
        } }
    {
        let number = self.replies.next();
        self.replies.put(Replied {
            number,
            answers,
            reply,
        });
        number
    }

    /// The message of a number, if it may still reach the base.
    pub fn message(&self, number: u64) -> Option<&Sent>
        ensures { option_copied result ≡ sent_of self.now.traffic.messages number }
    {
        self.messages.get(number)
    }

    /// Whether a message that may still reach the base is this call's. All are gone through.
    pub fn has_sent(&self, call: u64) -> bool
        ensures { result ≡ list_any (is_owned call) self.now.traffic.messages }
    {
        self.messages.are_owned(call)
    }

    /// The reply of a number, if it may still be received.
    pub fn reply_of(&self, number: u64) -> Option<&Replied>
        ensures { option_copied result ≡ replied_of self.now.traffic.replies number }
    {
        self.replies.get(number)
    }

    /// A message is lost or was received. Where there is none, nothing changes.
    pub fn forget_message(&mut self, number: u64)
        ensures { self.new ≡ carrying (without_message number self.old.traffic) self.old }
    {
        self.messages.remove(number);
    }

    /// A reply is lost or was received. Where there is none, nothing changes.
    pub fn forget_reply(&mut self, number: u64)
        ensures { self.new ≡ carrying (without_reply number self.old.traffic) self.old }
    {
        self.replies.remove(number);
    }

    /// Lets a call await the reply to this message, and to no other. Without memory nothing
    /// changes.
    pub fn await_message(&mut self, call: u64, number: u64) -> Result<(), NoMemory>
        ensures ok { OnOk result (self.new ≡ carrying (record self.old.traffic {
          awaited = awaiting call number self.old.traffic.awaited;
        }) self.old) }
        ensures err { OnErr result (self.new ≡ self.old) }
    {
        self.awaited.set(call, number)
    }

    /// The message whose reply a call awaits, if it awaits one.
    pub fn awaited(&self, call: u64) -> Option<u64>
        ensures { result ≡ awaited_of self.now.traffic.awaited call }
    {
        self.awaited.get(call)
    }

    /// Lets a call await no reply.
    pub fn no_longer_await(&mut self, call: u64)
        ensures { self.new ≡ carrying (record self.old.traffic {
          awaited = unawaited call self.old.traffic.awaited;
        }) self.old }
    {
        self.awaited.remove(call);
    }

    /// Notes how far a call's drain has come, in place of what it noted before. Without memory
    /// nothing changes.
    pub fn note(&mut self, noted: Noted) -> Result<(), NoMemory>
        ensures ok { OnOk result (self.new ≡ carrying (record self.old.traffic {
          noted = noting noted self.old.traffic.noted;
        }) self.old) }
        ensures err { OnErr result (self.new ≡ self.old) }
    {
        self.noted.set(noted)
    }

    /// How far a call's drain has come, if it noted that.
    pub fn noted(&self, call: u64) -> Option<&Noted>
        ensures { option_copied result ≡ noted_of self.now.traffic.noted call }
    {
        self.noted.get(call)
    }

    /// Forgets how far a call's drain has come.
    pub fn forget_noted(&mut self, call: u64)
        ensures { self.new ≡ carrying (record self.old.traffic {
          noted = unnoted call self.old.traffic.noted;
        }) self.old }
    {
        self.noted.remove(call);
    }

    /// Enters a flush that was begun alone, in place of one of the same name. Without memory
    /// nothing changes.
    pub fn begin_flush(&mut self, begun: Begun) -> Result<(), NoMemory>
        ensures ok { OnOk result (self.new ≡ carrying (record self.old.traffic {
          begun = beginning begun self.old.traffic.begun;
        }) self.old) }
        ensures err { OnErr result (self.new ≡ self.old) }
    {
        self.begun.set(begun)
    }

    /// When the flush of a name was begun alone, if one was.
    pub fn begun(&self, name: &Name) -> Option<BegunAt>
        ensures { result ≡ begun_of self.now.traffic.begun name.now }
    {
        self.begun.get(name)
    }

    /// Takes the flush of a name out, and answers when it was begun, if one was.
    pub fn take_begun(&mut self, name: &Name) -> Option<BegunAt>
        ensures before { result ≡ begun_of self.old.traffic.begun name.now }
        ensures taken { self.new ≡ carrying (record self.old.traffic {
          begun = without_begun name.now self.old.traffic.begun;
        }) self.old }
    {
        self.begun.take(name)
    }
}
