//! A row of bits in words of 64, and the places of a hash in it.
ghost use Rattle.std.specs.Prelude.{◌≡◌, ℕ, ◌<◌, ◌*◌, ◌/◌, ◌^◌, ◌||◌, ◌==◌, bit_or, length};
ghost use Rattle.hit_sets.specs.Sets.{bits_of, ranks_of, hash_place, place_at};
ghost use Rattle.hit_sets.specs.Steps.{bit_of};

use name_hash::fnv1a;
use obj_model::Name;

// The numbers of the places of a name.
const RANKS: [u64; 10] = [0, 1, 2, 3, 4, 5, 6, 7, 8, 9];

// A hash has two halves of 32 bits.
const HALF: u64 = 0x1_0000_0000;

/// How many bits a set with this rate of false positives has.
pub(crate) fn size_of(fpp: u32) -> u64
    ensures value { result ≡ bits_of fpp }
    ensures some { 0 < result }
{
    match fpp {
        1_000 => 61_440,
        10_000 => 40_960,
        _ => 28_672,
    }
}

/// The numbers of the places of a name in a set with this rate.
pub(crate) fn ranks(fpp: u32) -> &'static [u64]
    ensures { result.now ≡ ranks_of fpp }
{
    match fpp {
        1_000 => &RANKS,
        10_000 => &RANKS[..7],
        _ => &RANKS[..4],
    }
}

// The upper half of a hash, made odd: how far the places of a name lie from each other.
fn stride(hash: u64) -> u32
    ensures { result ≡ bit_or (hash / 2 ^ 32) 1 }
{
    (hash / HALF) as u32 | 1
}

/// The place of this rank of a hash among `size` bits.
pub(crate) fn place(size: u64, hash: u64, rank: u64) -> u64
    requires some { 0 < size }
    requires few { rank < 16 }
    ensures value { result ≡ hash_place size hash rank }
    ensures within { result < size }
{
    (hash % HALF + rank * u64::from(stride(hash))) % size
}

// How many places a name has in a set with this rate.
fn rank_count(fpp: u32) -> u32
    ensures value { result ≡ length (ranks_of fpp) }
    ensures few { result < 16 }
{
    match fpp {
        1_000 => 10,
        10_000 => 7,
        _ => 4,
    }
}

/// The place of this rank, from 0, of a name in a Bloom set with this rate of false positives, in
/// millionths; none where the name has no place of this rank.
pub fn bloom_place(fpp: u32, name: &Name, rank: u32) -> Option<u64>
    ensures { result ≡ place_at fpp name.now rank }
{
    if rank < rank_count(fpp) {
        Some(place(size_of(fpp), fnv1a(name.bytes()), u64::from(rank)))
    } else {
        None
    }
}

/// Whether a bit is set.
pub(crate) fn is_on(words: &[u64], bit: u64) -> bool
    requires { bit < 64 * length words.now }
    ensures { result ≡ bit_of words.now bit }
{
    words[(bit / 64) as usize] >> (bit % 64) & 1 == 1
}

/// Sets a bit.
#[tactic(auto, using(crate::proofs::Words::one_bit_set))]
pub(crate) fn set_on(words: &mut [u64], bit: u64)
    requires { bit < 64 * length words.old }
    ensures { (i : ℕ) → bit_of words.new i ≡ ((bit == i) || bit_of words.old i) }
{
    let word = &mut words[(bit / 64) as usize];
    *word |= 1 << (bit % 64);
}
