//! Bloom filters over names.
ghost use Rattle.std.specs.Prelude.{◌≡◌, ℕ, ◌||◌, ◌*◌, [], not, IfOk, length};
ghost use Rattle.hit_sets.specs.Sets.{bits_of, bloom_contains, is_set_by};
ghost use Rattle.hit_sets.specs.Steps.{bit_of, grown};

use crate::bits::{is_on, place, ranks, set_on, size_of};
use crate::past::Past;
use name_hash::fnv1a;
use obj_model::{Name, NoMemory};
use std::alloc::Global;
use std::marker::Model;

/// A Bloom filter: its rate of false positives, and its bits.
#[derive(Drop)]
pub(crate) struct BloomHits {
    fpp: u32,
    words: Vec<u64>,
    past: Past,
}

impl Model for BloomHits {
    ghost use Rattle.hit_sets.specs.Past.{names_of};
    ghost use Rattle.hit_sets.specs.Steps.{BloomNames, HasBits};

    ghost Value = { BloomNames };

    ghost view = { λ s. record { fpp = s.fpp; names = names_of s.past } };

    ghost invariant = { λ s. HasBits s.fpp s.words.items (names_of s.past) };
}

// Sets the bits at all places of a hash.
fn set_places(words: &mut [u64], fpp: u32, hash: u64)
    requires { length words.old * 64 ≡ bits_of fpp }
    ensures { (i : ℕ) → bit_of words.new i ≡ (is_set_by fpp i hash || bit_of words.old i) }
{
    let size = size_of(fpp);
    for rank in ranks(fpp) {
        set_on(words, place(size, hash, *rank));
    }
}

#[tactic(auto, using(crate::proofs::Filters::bits_contain))]
impl BloomHits {
    pub(crate) fn new(alloc: Global, fpp: u32) -> Result<BloomHits, NoMemory>
        ensures { IfOk result (λ s. s ≡ record { fpp = fpp; names = [] }) }
    {
        let count = (size_of(fpp) / 64) as usize;
        Ok(BloomHits {
            fpp,
            words: vec![in alloc; 0u64; count]?,
            past: Past::new(),
        })
    }

    pub(crate) fn contains(&self, name: &Name) -> bool
        ensures { result ≡ bloom_contains self.now.fpp self.now.names name.now }
    {
        let size = size_of(self.fpp);
        let hash = fnv1a(name.bytes());
        let words = self.words.as_slice();
        ranks(self.fpp)
            .iter()
            .all(|rank| is_on(words, place(size, hash, *rank)))
    }

    // Inserts the name, and tells whether a bit was not set before.
    pub(crate) fn insert(&mut self, name: &Name) -> bool
        ensures new { result ≡ not (bloom_contains self.old.fpp self.old.names name.now) }
        ensures same { self.new.fpp ≡ self.old.fpp }
        ensures done { self.new.names
            ≡ grown (bloom_contains self.old.fpp self.old.names name.now) self.old.names name.now }
    {
        if self.contains(name) {
            return false;
        }
        set_places(self.words.as_mut_slice(), self.fpp, fnv1a(name.bytes()));
        self.past.push(name);
        true
    }
}
