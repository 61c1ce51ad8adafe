//! The generated load: a script of reads and writes of 3,000 names by 16 clients, from a count and
//! a start number.
//!
//! Carries the promise that the script is exactly the lines of its definition, one for each place.
#![tactic(auto)]

ghost use Rattle.std.specs.Prelude.{◌≡◌, ◌++◌, Some, IfOk, OnOk};
ghost use Rattle.std.specs.String.{string_bytes};
ghost use Rattle.load_gen.specs.Script.{following, line_of, script_of, hex_digits};

use std::alloc::{AllocError, AllocFailed, Global};
use std::fmt;

/// There is not enough memory.
#[derive(Clone, Copy, Debug, PartialEq, Eq)]
pub struct NoMemory;

impl From<AllocError> for NoMemory {
    fn from(_: AllocError) -> Self {
        NoMemory
    }
}

impl<T: Drop> From<AllocFailed<T>> for NoMemory {
    fn from(_: AllocFailed<T>) -> Self {
        NoMemory
    }
}

/// The script of `count` lines that begins after the state `start`, as the bytes of its text.
///
/// The state of a line is the one before it times 6364136223846793005 plus 1442695040888963407,
/// modulo 2^64. Bits of the state choose the kind, the client from 1 to 16 and the name from `o0`
/// to `o2999`; a write carries the state as sixteen lower-case hexadecimal digits and the line's
/// number, from 1, as its request number. Equal arguments give equal scripts.
///
/// The time is linear in `count`; the text grows in one buffer. Answers `NoMemory` where that
/// cannot grow.
pub fn load_script(alloc: Global, count: u32, start: u64) -> Result<Vec<u8>, NoMemory>
    ensures { IfOk result (λ script. script.items ≡ script_of count start) }
{
    let mut script = String::new(alloc);
    let mut state = start;
    for place in 0..count {
        state = next_state(state);
        push_line(&mut script, place + 1, state)?;
    }
    Ok(script.into_bytes())
}

// The linear congruential step of Knuth's MMIX.
fn next_state(state: u64) -> u64
    ensures { result ≡ following state }
{
    state
        .wrapping_mul(6_364_136_223_846_793_005)
        .wrapping_add(1_442_695_040_888_963_407)
}

// Appends the line at a place.
fn push_line(script: &mut String, place: u32, state: u64) -> Result<(), NoMemory>
    ensures { OnOk result
        (string_bytes script.new ≡ string_bytes script.old ++ line_of place state) }
{
    let client = 1 + (state >> 24) % 16;
    let number = (state >> 32) % 3000;
    let payload = Digits(state);
    match (state >> 56) % 4 {
        0 => writeln!(script, "op {client} {place} o{number} writefull {payload}")?,
        1 => writeln!(script, "op {client} {place} o{number} append {payload}")?,
        2 => writeln!(script, "get {client} o{number} read 0 0")?,
        _ => writeln!(script, "get {client} o{number} stat")?,
    }
    Ok(())
}

// A state as its sixteen hexadecimal digits.
#[derive(Clone, Copy)]
struct Digits(u64);

#[tactic(auto, using(crate::proofs::HexDigits::padded_hex))]
impl fmt::Display for Digits {
    ghost output = { λ digits. Some (hex_digits 16 digits.0) };

    fn fmt<W: fmt::Write>(&self, f: &mut fmt::Formatter<W>) -> fmt::Result {
        let state = self.0;
        write!(f, "{state:016x}")
    }
}
