//! Laws of the spellings, for those who keep several behind one another or compare them.
ghost use Rattle.rec_codec.specs.Spelling.{HaveOneSpelling, SpellsState, SpellsParts, SpellsTxn};

/// No two states have one spelling, and no spelling of a state begins another.
pub fn state_spellings()
    ensures { HaveOneSpelling SpellsState }
{}

/// No two records have one spelling, and no spelling of a record begins another.
pub fn tier_spellings()
    ensures { HaveOneSpelling SpellsParts }
{}

/// No two transactions have one spelling, and no spelling of a transaction begins another.
pub fn txn_spellings()
    ensures { HaveOneSpelling SpellsTxn }
{}
