//! The law of the spellings, for those who keep several behind one another or compare them.
ghost use Rattle.rec_codec.specs.Spelling.{HaveOneSpelling, SpellsReq};

/// No two requests have one spelling, and no spelling of a request begins another.
pub fn req_spellings()
    ensures { HaveOneSpelling SpellsReq }
{}
