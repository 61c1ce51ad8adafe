//! The most bytes of a log, and the parts of its first record.
ghost use Rattle.std.specs.Prelude.{◌≡◌};
ghost use Rattle.log_image.specs.Images.{role_byte};

use obj_model::Pool;

/// The most bytes of a log.
pub(crate) const LOG_LIMIT: u64 = 1 << 40;

/// The value of an open gate.
pub(crate) const OPEN: u8 = 1;

/// The value of the closed gates that are written.
pub(crate) const CLOSED: u8 = 0;

/// The byte that names the pool of a disk.
pub(crate) fn role_byte(role: Pool) -> u8
    ensures { result ≡ role_byte role }
{
    match role {
        Pool::Cache => 1,
        Pool::Base => 2,
    }
}
