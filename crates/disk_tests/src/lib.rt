//! Sources and sinks, disks, journals and stores over logs, run: what disks in memory and files do,
//! what a walk and an opening find after a stop or a fault at each call, in images that are
//! damaged, and on disks that lie. The promises themselves are proved over any disk.
#![tactic(auto)]

#[cfg(test)]
mod file_disks;
#[cfg(test)]
mod images;
#[cfg(test)]
mod journals;
#[cfg(test)]
mod large;
#[cfg(test)]
mod logs;
#[cfg(test)]
mod lying;
#[cfg(test)]
mod mem_disks;
#[cfg(test)]
mod pool_maps;
#[cfg(test)]
mod stops;
#[cfg(test)]
mod streams;
#[cfg(test)]
mod tools;
