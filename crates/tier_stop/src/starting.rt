//! A step of a start.
ghost use Rattle.std.specs.Prelude.{◌≡◌};
ghost use Rattle.tier_stop.specs.Needs.{start_needed};
ghost use Rattle.tier_stop.specs.Starts.{Starts, told_opened};
ghost use Rattle.tier_stop.specs.declared.choosing.StartStep.TheVariants as need;

use crate::choosing::{StartStep, next_start};
use store_face::Store;
use tier_core::{Group, OpenFault, RaiseFault};

/// Why a step of a start was not made.
#[derive(Debug, Drop)]
pub enum StartFault {
    /// The cache was not opened.
    Cache(OpenFault),
    /// The base was not opened.
    Base(OpenFault),
    /// The epoch was not raised.
    Raise(RaiseFault),
}

/// What a start came to.
#[derive(Debug, Drop)]
pub enum Started {
    /// The group is ready.
    Ready,
    /// A step was made, and a later one is needed.
    Going,
    /// The Fence of this number was sent. The group is ready once its Fenced is heard.
    Sent(u64),
    /// The step was not made.
    Failed(StartFault),
    /// No Fence was sent, for want of memory or of numbers. Nothing changed.
    NoMemory,
}

// What is told where an opening was made.
fn told_opened<P: Store>(group: &Group<P>) -> Started
    ensures { result ≡ told_opened (start_needed group.now) }
{
    match next_start(group) {
        StartStep::Nothing => Started::Ready,
        _ => Started::Going,
    }
}

// The cache is opened.
fn open_cache<P: Store>(group: &mut Group<P>) -> Started
    requires { start_needed group.old ≡ need.OpenCache }
    ensures { (line call : _) → Starts need.OpenCache line call group.old group.new result }
{
    match group.open_cache() {
        Ok(()) => told_opened(group),
        Err(fault) => Started::Failed(StartFault::Cache(fault)),
    }
}

// The base is opened, behind a cache that is open.
fn open_base<P: Store>(group: &mut Group<P>) -> Started
    requires { start_needed group.old ≡ need.OpenBase }
    ensures { (line call : _) → Starts need.OpenBase line call group.old group.new result }
{
    match group.open_base() {
        Ok(()) => told_opened(group),
        Err(fault) => Started::Failed(StartFault::Base(fault)),
    }
}

// The epoch is raised, where both stores are open.
fn raise<P: Store>(group: &mut Group<P>) -> Started
    requires { start_needed group.old ≡ need.Raise }
    ensures { (line call : _) → Starts need.Raise line call group.old group.new result }
{
    match group.raise_epoch() {
        Ok(_) => Started::Going,
        Err(fault) => Started::Failed(StartFault::Raise(fault)),
    }
}

// A Fence is sent, where the epoch was raised.
fn fence<P: Store>(group: &mut Group<P>, line: Option<u32>, call: Option<u64>) -> Started
    requires { start_needed group.old ≡ need.Fence }
    ensures { Starts need.Fence line call group.old group.new result }
{
    group.rest();
    match group.send_fence(line, call) {
        Ok(number) => Started::Sent(number),
        Err(_) => Started::NoMemory,
    }
}

/// Makes the first step of a start that is needed, if one is, and tells whether the group is ready.
/// A Fence keeps this line and this call.
///
/// With a fault the group is as the method that failed leaves it: what is in doubt stays so, and
/// the next start begins with what is needed then. Where a commit's disk failed, the epoch is in
/// doubt, and the cache is to be opened first.
pub fn start_step<P: Store>(group: &mut Group<P>, line: Option<u32>, call: Option<u64>) -> Started
    ensures { Starts (start_needed group.old) line call group.old group.new result }
{
    match next_start(group) {
        StartStep::OpenCache => open_cache(group),
        StartStep::OpenBase => open_base(group),
        StartStep::Raise => raise(group),
        StartStep::Fence => fence(group, line, call),
        StartStep::Nothing => {
            group.rest();
            Started::Ready
        }
    }
}
