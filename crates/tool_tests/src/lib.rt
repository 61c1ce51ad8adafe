//! Whole runs over disks in memory: what is told and kept on an empty base, on the same disks
//! again, on disks that are refused or full, and after a stop or a fault at each call. The promises
//! themselves are proved over any disk.
#![tactic(auto)]

#[cfg(test)]
mod jobs;
#[cfg(test)]
mod runs;
#[cfg(test)]
mod scripts;
#[cfg(test)]
mod stops;
#[cfg(test)]
mod tools;
