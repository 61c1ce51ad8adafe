//! Formatting an empty disk, so that a stop at any moment leaves it empty, or with a log without
//! transactions.
ghost use Rattle.tier_outside.specs.Disk.{IsSettled};
ghost use Rattle.std.specs.Prelude.{◌≡◌, ◌≤◌, length, slice_index, IfOk, OnOk};
ghost use Rattle.std.specs.FinMap as fin;
ghost use Rattle.tier_outside.specs.Causes.{HasCause};
ghost use Rattle.tier_outside.specs.DiskMoments.{Now, Leaves};
ghost use Rattle.log_image.specs.Images.{IsHalfOpen, rest};
ghost use Rattle.log_image.specs.Fronts.{IsUnwritten};
ghost use Rattle.log_image.specs.Standing.{BlankOrNew, LogStands, first_journal};
ghost use Rattle.log_image.specs.Steps.Formatting.{IsZeroed, RestStands};

use crate::head::{CLOSED, LOG_LIMIT, OPEN, role_byte};
use byteorder::{BigEndian, ByteOrder};
use gate_journal::{Journal, put};
use obj_model::Pool;
use tier_outside::{Disk, DiskFault};

/// Formats a settled disk that has at most one byte or begins with a zero.
///
/// A first byte that is there and zero is not written again, since a stop in that write could leave
/// an open gate over bytes that are not whole. Then all behind the first gate is written and
/// settled, and then the gate.
pub fn format_log<D: Disk>(
    disk: &mut D,
    role: Pool,
    pair: u64,
    zeroed: bool,
) -> Result<Journal, DiskFault>
    requires settled { Now (D.moments disk.old) IsSettled }
    requires blank { Now (D.moments disk.old) (λ d. IsUnwritten d.content zeroed) }
    ensures any_moment { Leaves (D.moments disk.old) (D.moments disk.new)
        (λ d image. BlankOrNew role pair image) }
    ensures journal { IfOk result (λ journal. journal ≡ first_journal) }
    ensures stands { IfOk result
        (λ journal. Now (D.moments disk.new) (LogStands role pair journal fin.empty)) }
    ensures cause { HasCause (D.faults disk.old) (D.faults disk.new) result }
{
    close_first(disk, zeroed)?;
    stage(disk, role, pair)?;
    open_first(disk, role, pair)
}

/// Ends the formatting of a settled disk at which it stopped at its last write: the first gate is
/// written and settled.
pub fn finish_format<D: Disk>(disk: &mut D, role: Pool, pair: u64) -> Result<Journal, DiskFault>
    requires settled { Now (D.moments disk.old) IsSettled }
    requires half { Now (D.moments disk.old) (λ d. IsHalfOpen role pair d.content) }
    ensures any_moment { Leaves (D.moments disk.old) (D.moments disk.new)
        (λ d image. BlankOrNew role pair image) }
    ensures journal { IfOk result (λ journal. journal ≡ first_journal) }
    ensures stands { IfOk result
        (λ journal. Now (D.moments disk.new) (LogStands role pair journal fin.empty)) }
    ensures cause { HasCause (D.faults disk.old) (D.faults disk.new) result }
{
    open_first(disk, role, pair)
}

// Writes and settles a zero as the first byte, if there is none: of what a stop leaves until then
// nothing is longer than a byte.
fn close_first<D: Disk>(disk: &mut D, zeroed: bool) -> Result<(), DiskFault>
    requires settled { Now (D.moments disk.old) IsSettled }
    requires blank { Now (D.moments disk.old) (λ d. IsUnwritten d.content zeroed) }
    ensures any_moment { Leaves (D.moments disk.old) (D.moments disk.new)
        (λ d image. length image ≤ 1) }
    ensures zeroed { OnOk result (Now (D.moments disk.new) IsZeroed) }
    ensures cause { HasCause (D.faults disk.old) (D.faults disk.new) result }
{
    if !zeroed {
        put(disk, 0, &[CLOSED])?;
    }
    Ok(())
}

// Writes and settles all that stands behind the first gate, which stays closed.
fn stage<D: Disk>(disk: &mut D, role: Pool, pair: u64) -> Result<(), DiskFault>
    requires { Now (D.moments disk.old) IsZeroed }
    ensures any_moment { Leaves (D.moments disk.old) (D.moments disk.new)
        (λ d image. slice_index image 0 ≡ 0) }
    ensures staged { OnOk result (Now (D.moments disk.new) (RestStands role pair)) }
    ensures cause { HasCause (D.faults disk.old) (D.faults disk.new) result }
{
    put(disk, 1, &rest_bytes(role, pair))?;
    Ok(())
}

// Writes and settles the first gate, behind which all stands.
fn open_first<D: Disk>(disk: &mut D, role: Pool, pair: u64) -> Result<Journal, DiskFault>
    requires { Now (D.moments disk.old) (RestStands role pair) }
    ensures any_moment { Leaves (D.moments disk.old) (D.moments disk.new)
        (λ d image. BlankOrNew role pair image) }
    ensures journal { IfOk result (λ journal. journal ≡ first_journal) }
    ensures stands { IfOk result
        (λ journal. Now (D.moments disk.new) (LogStands role pair journal fin.empty)) }
    ensures cause { HasCause (D.faults disk.old) (D.faults disk.new) result }
{
    put(disk, 0, &[OPEN])?;
    Ok(Journal {
        start: 0,
        next: 22,
        end: LOG_LIMIT,
    })
}

// What stands behind the first gate of a disk without transactions.
fn rest_bytes(role: Pool, pair: u64) -> [u8; 22]
    ensures { result ≡ rest role pair }
{
    let mut bytes = *b"\0\0\0\x11RTLOG001\0\0\0\0\0\0\0\0\0\0";
    bytes[12] = role_byte(role);
    BigEndian::write_u64(&mut bytes[13..], pair);
    bytes
}
