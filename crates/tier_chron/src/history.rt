//! The history of a group. It only grows. Memory for entries is taken before the step that pushes
//! them, so that a push cannot fail; what the entries weigh is kept as a running sum, and the calls
//! that may act no more as a set.
ghost use Rattle.std.specs.Prelude.{◌≡◌, ◌≤◌, ◌+◌, ◌-◌, ◌==◌, ◌&&◌, ◌↔◌, Some, cond, map, max, nat_eq, not, true, IsTrue, OnOk, OnErr};
ghost use Rattle.std.specs.Option.{option_copied};
ghost use Rattle.indexmap.specs.IndexMap.{spare};
ghost use Rattle.indexmap.specs.IndexSet as set;
ghost use Rattle.tier_chron.specs.Laws.{MayStillAct};
ghost use Rattle.tier_chron.specs.Logs.{acted_log, answered_log, empty_log, opened, opening_of};
ghost use Rattle.tier_chron.specs.Shapes.{is_fault};
ghost use Rattle.tier_chron.specs.Weights.{bytes_of, cut, entries_of};
ghost use Rattle.tier_chron.specs.Steps.Histories.{first_of, opened_weight};

use crate::weights::{act_weight, first_weight, logged_weight};
use crate::{Act, First, Logged};
use indexmap::{IndexMap, IndexSet};
use obj_model::{Name, NameState, NoMemory};
use std::alloc::Global;
use std::marker::Model;

/// What happened in a group: the openings of names, the acts and the answers, each in the order in
/// which they came.
///
/// Contracts see it as these three lists, and beside them `spare`: for how many pushes there is
/// memory.
#[derive(Drop)]
pub struct History {
    opening: IndexMap<Name, NameState>,
    acts: Vec<Act>,
    answers: Vec<Logged>,
    closed: IndexSet<u64>,
    bytes: u64,
    room: u64,
}

impl Model for History {
    ghost use Rattle.std.specs.Prelude.{◌≡◌, ◌≤◌, ◌+◌, vec_len, vec_capacity};
    ghost use Rattle.indexmap.specs.IndexMap.{spare};
    ghost use Rattle.indexmap.specs.IndexSet as set;
    ghost use Rattle.tier_chron.specs.Logs.{HistoryView, coded_history};
    ghost use Rattle.tier_chron.specs.Weights.{bytes_of, cut};
    ghost use Rattle.tier_chron.specs.Steps.Histories.{AreClosed, log_of};

    ghost Value = { HistoryView };

    ghost coded = { coded_history };

    ghost view = { λ h. record {
      log = log_of h.opening.entries h.acts.items h.answers.items;
      spare = h.room;
    } };

    ghost invariant = { λ h. (h.bytes ≡ cut (bytes_of
        (log_of h.opening.entries h.acts.items h.answers.items)))
        × (h.room ≤ spare h.opening) × (vec_len h.acts + h.room ≤ vec_capacity h.acts)
        × (vec_len h.answers + h.room ≤ vec_capacity h.answers) × (h.room ≤ set.spare h.closed)
        × AreClosed h.closed.keys h.acts.items h.answers.items };
}

impl History {
    /// Nothing happened yet, and there is memory for no push.
    pub fn new(alloc: Global) -> History
        ensures { result ≡ record { log = empty_log; spare = 0 } }
    {
        History {
            opening: IndexMap::new(alloc),
            acts: Vec::new(alloc),
            answers: Vec::new(alloc),
            closed: IndexSet::new(alloc),
            bytes: 0,
            room: 0,
        }
    }

    /// Takes memory for so many pushes, or for as many as there is memory for.
    pub fn reserve(&mut self, pushes: u64) -> Result<(), NoMemory>
        ensures same { self.new.log ≡ self.old.log }
        ensures ok { OnOk result (self.new.spare ≡ max self.old.spare pushes) }
        ensures err { OnErr result (self.new.spare ≡ self.old.spare) }
    {
        if self.room < pushes {
            self.opening.reserve(pushes as usize)?;
            self.acts.reserve(pushes as usize)?;
            self.answers.reserve(pushes as usize)?;
            self.closed.reserve(pushes as usize)?;
            self.room = pushes;
        }
        Ok(())
    }

    #[tactic(auto, using(crate::proofs::Openings::bytes_acted))]
    /// Pushes an act, with the state that its name had before, where the name has no opening yet.
    /// It takes no memory.
    pub fn push_act(&mut self, first: Option<First>, act: Act)
        requires { 1 ≤ self.old.spare }
        ensures { self.new ≡ record {
          log = acted_log first act self.old.log;
          spare = self.old.spare - 1;
        } }
    {
        self.room -= 1;
        let weight = open(&mut self.opening, first).saturating_add(act_weight(&act));
        self.bytes = self.bytes.saturating_add(weight);
        close(&mut self.closed, act.call);
        self.acts.push_reserved(act);
    }

    /// Pushes an answer. It takes no memory.
    pub fn push_answer(&mut self, logged: Logged)
        requires { 1 ≤ self.old.spare }
        ensures { self.new ≡ record {
          log = answered_log logged self.old.log;
          spare = self.old.spare - 1;
        } }
    {
        self.room -= 1;
        self.bytes = self.bytes.saturating_add(logged_weight(&logged));
        close_answered(&mut self.closed, &logged);
        self.answers.push_reserved(logged);
    }

    #[tactic(auto, using(crate::proofs::Openings::found_opening))]
    /// The state that a name had before its first act, where an act touched it. It is found by an
    /// index.
    pub fn opening_of(&self, name: &Name) -> Option<&NameState>
        ensures { option_copied result ≡ opening_of self.now.log.opening name.now }
    {
        self.opening.get(name)
    }

    /// The acts, in their order.
    pub fn acts(&self) -> &[Act]
        ensures { result.now ≡ self.now.log.acts }
    {
        self.acts.as_slice()
    }

    /// The answers, in their order.
    pub fn answers(&self) -> &[Logged]
        ensures { result.now ≡ self.now.log.answers }
    {
        self.answers.as_slice()
    }

    /// Whether a call may still act: none of the acts is its own, and it was answered nothing but
    /// faults. It is one look-up, however many entries there are.
    pub fn may_act(&self, call: u64) -> bool
        ensures { IsTrue result ↔ MayStillAct call self.now.log }
    {
        !self.closed.contains(&call)
    }

    /// How many openings, acts and answers there are.
    pub fn entries(&self) -> u64
        ensures { result ≡ cut (entries_of self.now.log) }
    {
        let logged = (self.acts.len() as u64).saturating_add(self.answers.len() as u64);
        (self.opening.len() as u64).saturating_add(logged)
    }

    /// What all entries weigh together. It is a running sum.
    pub fn bytes(&self) -> u64
        ensures { result ≡ cut (bytes_of self.now.log) }
    {
        self.bytes
    }
}

// Puts an opening behind the others, where its name has none yet, and answers what is added to
// their weight.
fn open(opening: &mut IndexMap<Name, NameState>, first: Option<First>) -> u64
    requires { 1 ≤ spare opening.old }
    ensures opened { map first_of opening.new.entries ≡ opened first
        (map first_of opening.old.entries) }
    ensures weight { result ≡ cut (opened_weight first (map first_of opening.old.entries)) }
    ensures room { spare opening.old ≤ spare opening.new + 1 }
{
    match first {
        None => 0,
        Some(first) => open_name(opening, first),
    }
}

// The same where there is an opening.
#[tactic(auto, using(crate::proofs::Openings::found_opened, crate::proofs::Openings::opened_new, crate::proofs::Openings::opened_old))]
fn open_name(opening: &mut IndexMap<Name, NameState>, first: First) -> u64
    requires { 1 ≤ spare opening.old }
    ensures opened { map first_of opening.new.entries ≡ opened (Some first)
        (map first_of opening.old.entries) }
    ensures weight { result ≡ cut (opened_weight (Some first) (map first_of opening.old.entries)) }
    ensures room { spare opening.old ≤ spare opening.new + 1 }
{
    if opening.contains_key(&first.name) {
        return 0;
    }
    let weight = first_weight(&first);
    let First { name, state } = first;
    let Ok(_) = opening.insert(name, state) else {
        unreachable!();
    };
    weight
}

// Notes a call as one that may act no more.
fn close(closed: &mut IndexSet<u64>, call: u64)
    requires { 1 ≤ set.spare closed.old }
    ensures closed { (k : _) → set.contains nat_eq closed.new k
        ≡ cond (call == k) true (set.contains nat_eq closed.old k) }
    ensures room { set.spare closed.old ≤ set.spare closed.new + 1 }
{
    let Ok(_) = closed.insert(call) else {
        unreachable!();
    };
}

// The same of the call of an answer, where the answer is for good.
fn close_answered(closed: &mut IndexSet<u64>, logged: &Logged)
    requires { 1 ≤ set.spare closed.old }
    ensures closed { (k : _) → set.contains nat_eq closed.new k
        ≡ cond ((logged.now.call == k) && not (is_fault logged.now.answer)) true
        (set.contains nat_eq closed.old k) }
    ensures room { set.spare closed.old ≤ set.spare closed.new + 1 }
{
    if !logged.answer.is_fault() {
        close(closed, logged.call);
    }
}
