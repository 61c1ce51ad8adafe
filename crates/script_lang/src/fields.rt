//! The fields of lines and sub-operations: a word as a value, or why it is none.
ghost use Rattle.std.specs.Prelude.{◌≡◌};
ghost use Rattle.std.specs.Option.{option_copied};
ghost use Rattle.script_lang.specs.declared.cause.Cause.TheVariants as cause;
ghost use Rattle.script_lang.specs.Outcomes.{IsParse};
ghost use Rattle.script_lang.specs.Reading.{after_of, bytes_of, client_of, fit, name_of, number_of};

use crate::cause::{Cause, LineFault};
use crate::values::{read_after, read_bytes, read_name, read_number};
use obj_model::{Bytes, CLIENT_LIMIT, Name};
use std::alloc::Global;

/// A word as a number.
pub(crate) fn number_in(word: Option<&[u8]>) -> Result<u64, LineFault>
    ensures { IsParse result (fit cause.Number number_of (option_copied word.entry)) }
{
    match word {
        Some(word) => match read_number(word) {
            Some(number) => Ok(number),
            None => Err(LineFault::Wrong(Cause::Number)),
        },
        None => Err(LineFault::Wrong(Cause::Words)),
    }
}

/// A number as a client's.
pub(crate) fn client_in(number: u64) -> Result<u16, LineFault>
    ensures { IsParse result (client_of number) }
{
    if number >= 1 && number <= u64::from(CLIENT_LIMIT) {
        Ok(number as u16)
    } else {
        Err(LineFault::Wrong(Cause::Client))
    }
}

/// A word as bytes.
pub(crate) fn bytes_in(alloc: Global, word: Option<&[u8]>) -> Result<Bytes, LineFault>
    ensures { IsParse result (fit cause.Hex bytes_of (option_copied word.entry)) }
{
    match word {
        Some(word) => match read_bytes(alloc, word) {
            Ok(Some(bytes)) => Ok(bytes),
            Ok(None) => Err(LineFault::Wrong(Cause::Hex)),
            Err(_) => Err(LineFault::NoMemory),
        },
        None => Err(LineFault::Wrong(Cause::Words)),
    }
}

/// A word as a name.
pub(crate) fn name_in(alloc: Global, word: Option<&[u8]>) -> Result<Name, LineFault>
    ensures { IsParse result (fit cause.Name name_of (option_copied word.entry)) }
{
    match word {
        Some(word) => match read_name(alloc, word) {
            Ok(Some(name)) => Ok(name),
            Ok(None) => Err(LineFault::Wrong(Cause::Name)),
            Err(_) => Err(LineFault::NoMemory),
        },
        None => Err(LineFault::Wrong(Cause::Words)),
    }
}

/// A word as the key to go on from, or none.
pub(crate) fn after_in(alloc: Global, word: Option<&[u8]>) -> Result<Option<Name>, LineFault>
    ensures { IsParse result (fit cause.Name after_of (option_copied word.entry)) }
{
    match word {
        Some(word) => match read_after(alloc, word) {
            Ok(Some(after)) => Ok(after),
            Ok(None) => Err(LineFault::Wrong(Cause::Name)),
            Err(_) => Err(LineFault::NoMemory),
        },
        None => Err(LineFault::Wrong(Cause::Words)),
    }
}
