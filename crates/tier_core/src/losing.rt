//! What is between the pools is lost or forgotten.
ghost use Rattle.std.specs.Prelude.{◌≡◌, None};
ghost use Rattle.tier_core.specs.Steps.{IsStep};
ghost use Rattle.tier_view.specs.Starts.{forgot_kept, forgot_message, forgot_reply};

use crate::Group;
use store_face::Store;

impl<P: Store> Group<P> {
    /// A message is lost, or was served. It may come at any moment, in a doubt too. Where there is
    /// none of this number, nothing changes.
    pub fn forget_message(&mut self, number: u64)
        ensures forgot { self.new ≡ forgot_message number self.old }
        ensures step { IsStep None self.old self.new }
    {
        self.wires.forget_message(number);
    }

    /// A reply is lost, or was received. It may come at any moment, in a doubt too. Where there is
    /// none of this number, nothing changes.
    pub fn forget_reply(&mut self, number: u64)
        ensures forgot { self.new ≡ forgot_reply number self.old }
        ensures step { IsStep None self.old self.new }
    {
        self.wires.forget_reply(number);
    }

    /// What the last Fence keeps is forgotten, once whoever sent it was answered or is over.
    pub fn forget_kept(&mut self)
        ensures forgot { self.new ≡ forgot_kept self.old }
        ensures step { IsStep None self.old self.new }
    {
        self.start.kept = None;
    }
}
