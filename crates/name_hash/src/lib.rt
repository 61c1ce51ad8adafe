//! The hash of names: FNV-1a of 64 bits, and the group that a name belongs to.
//!
//! Carries the promise that both are exactly their definitions, and that neither takes memory.
#![tactic(auto)]

ghost use Rattle.std.specs.Prelude.{◌≡◌, ◌<◌, ◌≤◌};
ghost use Rattle.name_hash.specs.Fnv.{hash_of, group_number};

/// The hash of no bytes, as the definition of FNV-1a gives it for 64 bits.
const OFFSET_BASIS: u64 = 0xcbf2_9ce4_8422_2325;

/// What each round multiplies by, from the same definition.
const PRIME: u64 = 0x0000_0100_0000_01b3;

/// The FNV-1a hash of 64 bits of `bytes`, of any length.
///
/// Starting from the offset basis, each byte in turn is combined by exclusive or, and the result is
/// multiplied by the prime modulo 2^64. Names that an enemy chooses can be made to collide.
pub fn fnv1a(bytes: &[u8]) -> u64
    ensures { result ≡ hash_of bytes.now }
{
    bytes.iter().fold(
        OFFSET_BASIS,
        |hash, byte| (hash ^ u64::from(*byte)).wrapping_mul(PRIME),
    )
}

/// The number of the group, from 0, in which `name` lives where there are `groups` groups: its hash
/// modulo `groups`.
pub fn group_of(name: &[u8], groups: u32) -> u32
    requires least { 1 ≤ groups }
    requires most { groups ≤ 16 }
    ensures group { result ≡ group_number name.now groups }
    ensures in_range { result < groups }
{
    (fnv1a(name) % u64::from(groups)) as u32
}
