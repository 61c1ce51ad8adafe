//! What holds over every run of moves.
ghost use Rattle.tier_owners.specs.Runs.{ClosedActNoMore, HistoryGrows, LegalActOnce, MovesKeep, RunsAreFaithful, RunsKeep, TakenIsLost};

/// Each move keeps the pair sound, and each Write with its owner.
pub fn moves_keep()
    ensures { MovesKeep }
{}

/// So does each run, in every moment.
pub fn runs_keep()
    ensures { RunsKeep }
{}

/// No run forgets or changes an act.
pub fn history_grows()
    ensures { HistoryGrows }
{}

/// A call that was answered for good has no act more, whatever comes.
pub fn closed_act_no_more()
    ensures { ClosedActNoMore }
{}

/// A legal history has no two acts of one request id.
pub fn legal_act_once()
    ensures { LegalActOnce }
{}

/// In each moment of every run from an attached pair on: the history is legal, no request id acts
/// twice, each act is its call's, what readers and writers are told and what records show is the
/// plain store's, and where no record is left the base alone is the plain store.
pub fn runs_are_faithful()
    ensures { RunsAreFaithful }
{}

/// A commit of the base in doubt that is there is a delivery whose reply was lost.
pub fn taken_is_lost()
    ensures { TakenIsLost }
{}
