//! How a call of the program ends.
use tool_jobs::DiskPair;

/// How a call of `tier_main` ended.
#[derive(Drop)]
pub struct Ended<D> {
    /// The exit status of the program: 0 where the job did all that it was asked for and told it, 2
    /// where the words of the command line are refused, 4 where the script is refused, 5 where the
    /// base's disk holds no log of the base, 6 where a disk failed, 7 where the source failed, 8
    /// where the sink failed, and 9 where memory lacked.
    pub status: u8,
    /// The disks that were handed in.
    pub disks: Vec<DiskPair<D>>,
}
