//! What the words of the command line ask for, of the jobs and flags that stand so far.
ghost use Rattle.std.specs.Prelude.{◌≡◌, map, string_bytes, IfOk, IsErrOf, Some, None};
ghost use Rattle.tool_jobs.specs.Words.{asked_of, job_of, offered};

use std::alloc::Global;
use tool_words::{BadWords, Invocation, Job, read_words};

/// What the program is asked to do.
#[derive(Clone, Copy, Debug, PartialEq, Eq)]
pub enum Chosen {
    /// To run a script over the base.
    Run,
    /// To read a script alone.
    Check,
    /// To print a generated script of so many lines, from this start.
    Gen { count: u32, start: u64 },
}

/// What the words ask for. Of a job or a flag that does not stand yet they are refused.
pub fn read_job(alloc: Global, words: &[String]) -> Result<Chosen, BadWords>
    ensures taken { IfOk result (λ a. asked_of (map string_bytes words.now) ≡ Some a) }
    ensures refused { IsErrOf result BadWords.Refused
        → asked_of (map string_bytes words.now) ≡ None }
{
    match read_words(alloc, words) {
        Ok(invocation) => match offered(invocation) {
            Some(job) => Ok(job),
            None => Err(BadWords::Refused),
        },
        Err(fault) => Err(fault),
    }
}

// The job, where no flag is given.
fn offered(invocation: Invocation) -> Option<Chosen>
    ensures { result ≡ offered invocation }
{
    if invocation.paths || invocation.history || invocation.summary {
        return None;
    }
    job_of(invocation)
}

// The job, if it stands.
fn job_of(invocation: Invocation) -> Option<Chosen>
    ensures { result ≡ job_of invocation }
{
    match invocation.job {
        Job::Run => Some(Chosen::Run),
        Job::Check => Some(Chosen::Check),
        Job::Show => None,
        Job::Gen => Some(Chosen::Gen {
            count: invocation.count,
            start: invocation.start,
        }),
    }
}
