//! What single words say: numbers, bytes and names.
ghost use Rattle.std.specs.Prelude.{◌≡◌, ◌-◌, ◌^◌, ◌&&◌, ◌||◌, ◌==◌, ◌<◌, nat_le, true, min, length, slice_index, IfOk};
ghost use Rattle.std.specs.List.{list_all};
ghost use Rattle.std.specs.Result.{result_ok};
ghost use Rattle.hex.specs.Hex.{decode_of};
ghost use Rattle.std.specs.Char.{is_ascii_digit};
ghost use Rattle.std.specs.Str.Parse.{digits_value};
ghost use Rattle.script_lang.specs.Reading.{is_numeral, is_lower_digit, number_of, bytes_of, name_of, after_of};

use hex::FromHexError;
use obj_model::{Bytes, NUMBER_LIMIT, Name, NoMemory};
use std::alloc::Global;

/// The most digits of a number.
const DIGITS_LIMIT: usize = 19;

/// The number of the word.
#[tactic(auto, using(crate::proofs::Numbers::digits_of_numeral), unfolding(crate::specs::Reading::number_of))]
pub(crate) fn read_number(word: &[u8]) -> Option<u64>
    ensures { result ≡ number_of word.now }
{
    if !is_numeral(word) {
        return None;
    }
    let number = value_of(word);
    (number <= NUMBER_LIMIT).then_some(number)
}

/// The bytes of the word.
#[tactic(auto, unfolding(crate::specs::Reading::bytes_of))]
pub(crate) fn read_bytes(alloc: Global, word: &[u8]) -> Result<Option<Bytes>, NoMemory>
    ensures { IfOk result (λ bytes. bytes ≡ bytes_of word.now) }
{
    if word == b"-".as_slice() {
        return Ok(Some(Bytes::from_vec(Vec::new(alloc))));
    }
    if !are_lower_digits(word) {
        return Ok(None);
    }
    decode(alloc, word)
}

/// The name that the word is.
#[tactic(auto, unfolding(crate::specs::Reading::name_of))]
pub(crate) fn read_name(alloc: Global, word: &[u8]) -> Result<Option<Name>, NoMemory>
    ensures { IfOk result (λ name. name ≡ name_of word.now) }
{
    let Ok(bytes) = Vec::from_slice(alloc, word) else {
        return Err(NoMemory);
    };
    match Name::new(bytes) {
        Ok(name) => Ok(Some(name)),
        Err(_) => Ok(None),
    }
}

/// The key to go on from that the word is, or none for a dash.
#[tactic(auto, unfolding(crate::specs::Reading::after_of))]
pub(crate) fn read_after(alloc: Global, word: &[u8]) -> Result<Option<Option<Name>>, NoMemory>
    ensures { IfOk result (λ after. after ≡ after_of word.now) }
{
    if word == b"-".as_slice() {
        return Ok(Some(None));
    }
    match read_name(alloc, word) {
        Ok(Some(name)) => Ok(Some(Some(name))),
        Ok(None) => Ok(None),
        Err(fault) => Err(fault),
    }
}

// The bytes of digits in either case.
fn decode(alloc: Global, digits: &[u8]) -> Result<Option<Bytes>, NoMemory>
    ensures { IfOk result (λ bytes. bytes ≡ result_ok (decode_of digits.now)) }
{
    match hex::decode(alloc, digits) {
        Ok(bytes) => Ok(Some(Bytes::from_vec(bytes))),
        Err(FromHexError::OutOfMemory) => Err(NoMemory),
        Err(_) => Ok(None),
    }
}

// Whether there are digits, and none in upper case.
fn are_lower_digits(word: &[u8]) -> bool
    ensures { result ≡ (nat_le 1 (length word.now) && list_all is_lower_digit word.now) }
{
    !word.is_empty() && are_all_lower(word)
}

fn are_all_lower(word: &[u8]) -> bool
    ensures { result ≡ list_all is_lower_digit word.now }
{
    word.iter().all(is_lower_digit)
}

fn is_lower_digit(byte: &u8) -> bool
    ensures { result ≡ is_lower_digit byte.now }
{
    byte.is_ascii_digit() || (*byte >= b'a' && *byte <= b'f')
}

// Whether these are digits, not too many, and without a leading zero.
fn is_numeral(word: &[u8]) -> bool
    ensures { result ≡ is_numeral word.now }
{
    !word.is_empty() && word.len() <= DIGITS_LIMIT && are_digits(word) && has_lead(word)
}

fn are_digits(word: &[u8]) -> bool
    ensures { result ≡ list_all is_ascii_digit word.now }
{
    word.iter().all(u8::is_ascii_digit)
}

// Whether the digits begin with no zero, or there is one alone.
fn has_lead(word: &[u8]) -> bool
    requires { 0 < length word.now }
    ensures { result ≡ (nat_le 49 (slice_index word.now 0) || length word.now == 1) }
{
    word[0] > b'0' || word.len() == 1
}

// The number that the digits write, cut down to a `u64`.
#[tactic(auto, using(crate::proofs::Numbers::digits_step))]
fn value_of(word: &[u8]) -> u64
    requires { list_all is_ascii_digit word.now ≡ true }
    ensures { result ≡ min (digits_value 10 word.now) (2 ^ 64 - 1) }
{
    let mut value = 0u64;
    for digit in word {
        value = value
            .saturating_mul(10)
            .saturating_add(u64::from(digit.saturating_sub(b'0')));
    }
    value
}
