//! What the tables of hit sets share: kinds and names by words.
use hit_sets::HitKind;
use obj_model::Name;
use std::alloc::Global;
use std::test::Fail;
use test_rows::name;

/// The kind of a word: `hash`, `object`, or a rate.
pub fn kind(word: &str) -> HitKind {
    match word {
        "hash" => HitKind::ExplicitHash,
        "object" => HitKind::ExplicitObject,
        "10000" => HitKind::Bloom(10_000),
        "1000" => HitKind::Bloom(1_000),
        _ => HitKind::Bloom(50_000),
    }
}

/// The name that a letter and a number make.
pub fn numbered(alloc: Global, letter: &str, number: u64) -> Result<Name, Fail> {
    name(alloc, format!(in alloc; "{letter}{number}")?.as_str())
}
