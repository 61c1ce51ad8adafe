//! Causes of faults in words, and the rows that name them.
use script_lang::{Cause, ScriptFault, read_script};
use std::alloc::Global;

// The cause in words; what it names is compared apart.
fn word_of(cause: &Cause) -> &'static str {
    match cause {
        Cause::Byte => "byte",
        Cause::Words => "words",
        Cause::LeftOut(_) => "left-out",
        Cause::Verb => "verb",
        Cause::Subop => "subop",
        Cause::Mode => "mode",
        Cause::Number => "number",
        Cause::Client => "client",
        Cause::Name => "name",
        Cause::Hex => "hex",
        Cause::Many => "many",
        Cause::Mixed(_) => "mixed",
        Cause::Heavy => "heavy",
        Cause::Time => "time",
        Cause::Par => "par",
        Cause::Long => "long",
        Cause::Lines => "lines",
    }
}

// Whether the cause is the one of these words, as `mixed 1` or `left-out snap`.
fn is_cause(cause: &Cause, words: &str) -> bool {
    let (word, named) = words.split_once(' ').unwrap_or((words, ""));
    let same = match cause {
        Cause::LeftOut(left_out) => left_out.as_slice() == named.as_bytes(),
        Cause::Mixed(place) => named.parse::<usize>() == Ok(*place),
        _ => named.is_empty(),
    };
    same && word_of(cause) == word
}

// Whether the text is wrong at this line for this cause.
pub(crate) fn is_wrong(alloc: Global, text: &[u8], line: u32, words: &str) -> bool {
    match read_script(alloc, text) {
        Err(ScriptFault::Bad { line: at, cause }) => at == line && is_cause(&cause, words),
        _ => false,
    }
}
