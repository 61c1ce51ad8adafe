//! A disk that may stop at any moment. Its contract tells, moment by moment, what a stop may leave,
//! so that every promise above about power cuts is of one form: each image of each moment since
//! then has this.
ghost use Rattle.std.specs.Prelude.{◌≡◌, ◌+◌, ◌≤◌, List, ℕ, Option, length, IfOk, OnOk, OnErr};
ghost use Rattle.tier_outside.specs.Causes.{HasCause};
ghost use Rattle.tier_outside.specs.Disk.{disk_limit, DiskMoment, IsImage, Writes, Cuts, Syncs};
ghost use Rattle.tier_outside.specs.Disk.{Restarts, Reads, written, resized};
ghost use Rattle.tier_outside.specs.DiskMoments.{Now, Then, Goes};

/// The disk failed.
#[derive(Clone, Copy, Debug, PartialEq, Eq)]
pub struct DiskFault;

/// A disk of bytes, read and written at offsets in bytes, which may stop at any moment.
///
/// Between two syncs that succeeded each written range and everything past the least size may hold
/// anything after a stop, and the size may be any from the least to the greatest since then; other
/// bytes stay. What the disk reads as is itself one of these images.
pub trait Disk {
    /// The moments so far, the last of which is now, where the disk tells them. Whether it tells
    /// never changes.
    ghost moments: { Self → Option (List DiskMoment) };

    /// How often it has failed; the count never falls.
    ghost faults: { Self → ℕ };

    /// Reads the bytes from an offset into the buffer, and gives their number. It stops short only
    /// at the end of the disk, and past the end it gives 0. After a fault the buffer may hold
    /// anything; the disk is as it was.
    fn read_at(&mut self, off: u64, buf: &mut [u8]) -> Result<usize, DiskFault>
        ensures bound { IfOk result (λ n. n ≤ length buf.new) }
        ensures bytes { IfOk result (λ n.
            Now (moments self.old) (λ d. Reads off d n buf.old buf.new)) }
        ensures same { moments self.new ≡ moments self.old }
        ensures image { Now (moments self.new) (λ d. IsImage d d.content) }
        ensures cause { HasCause (faults self.old) (faults self.new) result };

    /// Writes all of the bytes at an offset; past the end the disk becomes longer. A write of no
    /// bytes changes nothing. After a fault any part of the work may be done.
    fn write_at(&mut self, off: u64, bytes: &[u8]) -> Result<(), DiskFault>
        requires { off + length bytes.now ≤ disk_limit }
        ensures step { Goes (Writes off (length bytes.now)) (moments self.old) (moments self.new) }
        ensures done { OnOk result (Then (moments self.old) (moments self.new)
            (λ d e. e.content ≡ written off bytes.now d.content)) }
        ensures image { Now (moments self.new) (λ d. IsImage d d.content) }
        ensures cause { HasCause (faults self.old) (faults self.new) result };

    /// Sets the length in bytes, shorter or longer. After a fault any part of the work may be done.
    fn cut(&mut self, size: u64) -> Result<(), DiskFault>
        requires { size ≤ disk_limit }
        ensures step { Goes (Cuts size) (moments self.old) (moments self.new) }
        ensures done { OnOk result (Then (moments self.old) (moments self.new)
            (λ d e. e.content ≡ resized size d.content)) }
        ensures image { Now (moments self.new) (λ d. IsImage d d.content) }
        ensures cause { HasCause (faults self.old) (faults self.new) result };

    /// Settles what the disk reads as: a later stop leaves just that. A sync that fails settles
    /// nothing.
    fn sync(&mut self) -> Result<(), DiskFault>
        ensures step { Goes Syncs (moments self.old) (moments self.new) }
        ensures done { OnOk result (Then (moments self.old) (moments self.new) Syncs) }
        ensures kept { OnErr result (moments self.new ≡ moments self.old) }
        ensures image { Now (moments self.new) (λ d. IsImage d d.content) }
        ensures cause { HasCause (faults self.old) (faults self.new) result };

    /// The size in bytes.
    fn size(&mut self) -> Result<u64, DiskFault>
        ensures value { IfOk result (λ n. Now (moments self.old) (λ d. n ≡ length d.content)) }
        ensures same { moments self.new ≡ moments self.old }
        ensures image { Now (moments self.new) (λ d. IsImage d d.content) }
        ensures cause { HasCause (faults self.old) (faults self.new) result };

    /// The disk comes back, as after a stop: it reads as one of the images of the moment before,
    /// and all of it is settled. A restart that fails changes nothing.
    fn restart(&mut self) -> Result<(), DiskFault>
        ensures step { Goes Restarts (moments self.old) (moments self.new) }
        ensures done { OnOk result (Then (moments self.old) (moments self.new) Restarts) }
        ensures kept { OnErr result (moments self.new ≡ moments self.old) }
        ensures image { Now (moments self.new) (λ d. IsImage d d.content) }
        ensures cause { HasCause (faults self.old) (faults self.new) result };
}
