//! The calls of a memory form: their numbers, and which of them fail. The promise: a call fails
//! exactly where its number is listed, and each failure is counted.

ghost use Rattle.std.specs.Prelude.{◌≡◌, ◌≤◌, true, if◌then◌else◌};
ghost use Rattle.tier_outside.specs.Causes.{Rose, one_more, is_listed};

/// The numbers of the calls that fail, and how many calls and faults there were.
#[derive(Drop)]
pub struct Calls {
    fails: Vec<u64>,
    made: u64,
    faults: u64,
}

impl Calls {
    /// No call so far.
    pub fn new(fails: Vec<u64>) -> Calls
        ensures { result ≡ record { fails = fails; made = 0; faults = 0 } }
    {
        Calls {
            fails,
            made: 0,
            faults: 0,
        }
    }

    /// Counts a call, and a fault where its number is listed.
    pub fn next_fails(&mut self) -> bool
        ensures listed { result ≡ is_listed (one_more self.old.made) self.old.fails.items }
        ensures counts { self.new ≡ record self.old {
          made = one_more self.old.made;
          faults = (if result then one_more self.old.faults else self.old.faults);
        } }
        ensures later { self.old.faults ≤ self.new.faults }
        ensures rose { result ≡ true → Rose self.old.faults self.new.faults }
    {
        self.made = self.made.saturating_add(1);
        let fails = self.fails.contains(&self.made);
        if fails {
            self.add_fault();
        }
        fails
    }

    /// Counts a fault.
    pub fn add_fault(&mut self)
        ensures counts { self.new ≡ record self.old { faults = one_more self.old.faults } }
        ensures later { self.old.faults ≤ self.new.faults }
        ensures rose { Rose self.old.faults self.new.faults }
    {
        self.faults = self.faults.saturating_add(1);
    }

    /// How many calls there were.
    pub fn made(&self) -> u64
        ensures { result ≡ self.now.made }
    {
        self.made
    }

    /// How many faults there were.
    pub fn faults(&self) -> u64
        ensures { result ≡ self.now.faults }
    {
        self.faults
    }
}
