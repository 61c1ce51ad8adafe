//! What several hit sets say of a name.
ghost use Rattle.std.specs.Prelude.{◌≡◌, ◌≤◌, ◌*◌, ◌^◌, length};
ghost use Rattle.std.specs.List.{list_all};
ghost use Rattle.hit_sets.specs.Sets.{contains};
ghost use Rattle.hit_archive.specs.Archives.{faded, warmth};

use hit_sets::HitSet;
use obj_model::Name;

/// The temperature that the current set gives, and of which the archives give a part.
pub(crate) const WHOLE: u64 = 1_000_000;

/// Whether each set contains the name.
pub(crate) fn all_contain(sets: &[HitSet], name: &Name) -> bool
    ensures { result ≡ list_all (λ s. contains s name.now) sets.now }
{
    sets.iter().all(|set| set.contains(name))
}

// A grade after one more decay.
fn fade(grade: u64, decay: u32) -> u64
    requires { grade ≤ 1000000 }
    ensures value { result ≡ faded decay grade }
    ensures falls { result ≤ 1000000 }
{
    grade * u64::from(100u32.saturating_sub(decay)) / 100
}

#[tactic(auto, using(crate::proofs::Sums::one_share))]
/// What the sets add to the name's temperature, the newest first.
pub(crate) fn sum_of_grades(sets: &[HitSet], name: &Name, decay: u32) -> u64
    requires { length sets.now ≤ 2 ^ 32 }
    ensures value { result ≡ warmth name.now decay 0 sets.now }
    ensures bound { result ≤ 1000000 * 2 ^ 32 }
{
    let mut total = 0u64;
    let mut grade = fade(WHOLE, decay);
    for set in sets {
        if set.contains(name) {
            total += grade;
        }
        grade = fade(grade, decay);
    }
    total
}
