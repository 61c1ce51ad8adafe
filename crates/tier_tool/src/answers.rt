//! What a line is answered, from what a request or a reading came to.
ghost use Rattle.std.specs.Prelude.{◌≡◌};
ghost use Rattle.tier_tool.specs.Answers.{replied, of_reading};

use obj_model::Reply;
use obj_ops::Looked;
use tier_chron::Answer;

/// The answer that gives a reply, which may be one that was kept.
pub fn replied(reply: Reply, kept: bool) -> Answer
    ensures { result ≡ replied reply kept }
{
    match reply {
        Reply::Done { ver } => Answer::Done { ver, kept },
        Reply::Refused { at, why, ver } => Answer::Refused { at, why, ver, kept },
    }
}

/// The answer to a reading.
pub fn of_reading(looked: Looked) -> Answer
    ensures { result ≡ of_reading looked }
{
    match looked {
        Looked::Values { ver, outs } => Answer::Values { ver, outs },
        Looked::Refused { at, why, ver } => Answer::Refused {
            at,
            why,
            ver,
            kept: false,
        },
    }
}
