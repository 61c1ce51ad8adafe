//! Messages of other epochs than the base's.
ghost use Rattle.std.specs.Prelude.{◌≡◌};
ghost use Rattle.base_pool.specs.Steps.{refusal, refused_epoch};

use tier_types::{BaseMsg, BaseReply};

// The refusal of a message that is served in its own epoch alone.
fn refused_epoch(have: u64, got: u64) -> Option<BaseReply>
    ensures { result ≡ refused_epoch have got }
{
    if got < have {
        Some(BaseReply::OldEpoch { have, got })
    } else if have < got {
        Some(BaseReply::NotFenced { have, got })
    } else {
        None
    }
}

/// The refusal of a message, if a base at this epoch refuses it.
pub(crate) fn refusal(have: u64, msg: &BaseMsg) -> Option<BaseReply>
    ensures { result ≡ refusal have msg.now }
{
    match msg {
        BaseMsg::Fence { epoch } => {
            if *epoch < have {
                Some(BaseReply::OldEpoch { have, got: *epoch })
            } else {
                None
            }
        }
        BaseMsg::GetChunk { epoch, .. } => refused_epoch(have, *epoch),
        BaseMsg::Look { epoch, .. } => refused_epoch(have, *epoch),
        BaseMsg::Write { epoch, .. } => refused_epoch(have, *epoch),
        BaseMsg::Install { epoch, .. } => refused_epoch(have, *epoch),
    }
}
