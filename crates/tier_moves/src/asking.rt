//! What a client asks.
ghost use Rattle.base_pool.specs.Serves.{IsWriteReq};
ghost use Rattle.std.specs.Prelude.{◌≡◌, ◌↔◌, IfOk, IsTrue};
ghost use Rattle.tier_core.specs.Keeps.{MayBeAsked};
ghost use Rattle.tier_core.specs.Serves.{asked_of};
ghost use Rattle.tier_moves.specs.Asks.{want_of, writes};
ghost use Rattle.tier_types.specs.Flights.{name_asked};

use obj_model::{CLIENT_LIMIT, NUMBER_LIMIT, Name, NoMemory, Req};
use tier_chron::Asked;
use tier_flight::Want;
use tier_types::Ask;

// Whether it is a request that writes, with a client and a number within their limits.
fn is_write_req(req: &Req) -> bool
    ensures { IsTrue result ↔ IsWriteReq req.now }
{
    let client = req.client >= 1 && req.client <= CLIENT_LIMIT;
    req.vector.writes() && client && req.tid <= NUMBER_LIMIT
}

/// Whether this may be asked: a write request writes, with a client and a number within their
/// limits, and a reading does not write.
pub fn is_lawful(ask: &Ask) -> bool
    ensures { IsTrue result ↔ MayBeAsked (asked_of ask.now) }
{
    match ask {
        Ask::Write(req) => is_write_req(req),
        Ask::Read { vector, .. } => !vector.writes(),
    }
}

/// An equal ask.
pub fn copy_ask(ask: &Ask) -> Result<Ask, NoMemory>
    ensures { IfOk result (λ a. a ≡ ask.now) }
{
    match ask {
        Ask::Write(req) => Ok(Ask::Write(req.copy()?)),
        Ask::Read {
            client,
            name,
            vector,
        } => Ok(Ask::Read {
            client: *client,
            name: name.copy()?,
            vector: vector.copy()?,
        }),
    }
}

/// What is asked, as the table of calls has it.
pub(crate) fn asked_of(ask: &Ask) -> Result<Asked, NoMemory>
    ensures { IfOk result (λ a. a ≡ asked_of ask.now) }
{
    match ask {
        Ask::Write(req) => Ok(Asked::Write(req.copy()?)),
        Ask::Read {
            client,
            name,
            vector,
        } => Ok(Asked::Read {
            client: *client,
            name: name.copy()?,
            vector: vector.copy()?,
        }),
    }
}

/// The name that is asked about.
pub(crate) fn name_asked(ask: &Ask) -> &Name
    ensures { result.now ≡ name_asked ask.now }
{
    match ask {
        Ask::Write(req) => &req.name,
        Ask::Read { name, .. } => name,
    }
}

/// Whether it is a write request.
pub(crate) fn writes(ask: &Ask) -> bool
    ensures { result ≡ writes ask.now }
{
    matches!(ask, Ask::Write(_))
}

/// What it wants of the name before its way is chosen.
pub(crate) fn want_of(ask: &Ask) -> Want
    ensures { result ≡ want_of ask.now }
{
    match ask {
        Ask::Write(_) => Want::Write,
        Ask::Read { .. } => Want::Read,
    }
}
