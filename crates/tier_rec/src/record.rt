//! The two moves of a record.
ghost use Rattle.std.specs.Prelude.{◌≡◌};
ghost use Rattle.tier_rec.specs.Records.{acted_record, cleaned_record};

use obj_model::NameState;
use tier_types::TierRec;

/// The record after a request acted and left this state: dirty, at this moment.
pub fn after_act(state: NameState, now: u64) -> TierRec
    ensures { result ≡ acted_record state now }
{
    TierRec {
        state,
        dirty: true,
        mtime: now,
    }
}

/// The record after the base took its state as of `seq`: clean. Where something acted since then,
/// the record is given back as it is.
pub fn cleaned(record: TierRec, seq: u64) -> Result<TierRec, TierRec>
    ensures { result ≡ cleaned_record «record» seq }
{
    if record.state.seq != seq {
        return Err(record);
    }
    let TierRec { state, mtime, .. } = record;
    Ok(TierRec {
        state,
        dirty: false,
        mtime,
    })
}
