//! Two steps that are one.
ghost use Rattle.tier_view.specs.Joining.{OpeningLeadsStep};

/// A call is entered, and a step that enters none is made: one step, which enters the call.
pub fn opening_leads_step()
    ensures { OpeningLeadsStep }
{}
