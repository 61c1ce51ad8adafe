//! A call is entered, or refused.
ghost use Rattle.std.specs.Prelude.{◌≡◌, None, true, MatchOption};
ghost use Rattle.tier_core.specs.Keeps.{MayBeAsked};
ghost use Rattle.tier_core.specs.Callings.{MayOpen, Opens, Refuses};
ghost use Rattle.tier_view.specs.Tables.{goes_without};

use crate::Group;
use crate::holding::Fullness;
use obj_model::NUMBER_LIMIT;
use store_face::Store;
use tier_chron::Asked;

/// What became of a call that was to be entered.
#[derive(Clone, Copy, Debug, PartialEq, Eq)]
pub enum Opened {
    /// It was entered under this number.
    Call(u64),
    /// The history is full, with so many entries, which weigh so much. No call was entered.
    Full { entries: u64, bytes: u64 },
    /// A number has come to its end, 2^62. No call was entered.
    Worn { limit: u64 },
    /// There was no memory. No call was entered.
    NoMemory,
}

impl<P: Store> Group<P> {
    // Why a call on this line is refused, if it is: a full history comes first.
    fn refused(&self, line: Option<u32>) -> Option<Opened>
        ensures { MatchOption result (MayOpen line self.now) (Refuses line self.now) }
    {
        match self.full_for(line) {
            Some(Fullness { entries, bytes }) => Some(Opened::Full { entries, bytes }),
            None if self.is_worn() => Some(Opened::Worn {
                limit: NUMBER_LIMIT,
            }),
            None => None,
        }
    }

    /// Enters a call under the next number, as `enter_call` does, unless it is refused: a call with
    /// a line where the history is full, and any call where numbers have come to their end. A call
    /// that is refused, or that finds no memory, changes nothing.
    pub fn open_call(&mut self, line: Option<u32>, asked: Asked) -> Opened
        requires lined { line ≡ None → goes_without asked ≡ true }
        requires lawful { MayBeAsked asked }
        ensures { Opens line asked self.old self.new result }
    {
        match self.refused(line) {
            Some(refused) => refused,
            None => match self.enter_call(line, asked) {
                Ok(number) => Opened::Call(number),
                Err(_) => Opened::NoMemory,
            },
        }
    }
}
