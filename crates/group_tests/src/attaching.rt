//! Two pools, what each holds, and whether they are attached as one group.
use crate::filling::{fill, log};
use agent_state::Share;
use obj_model::{Mode, Pool};
use pool_survey::SurveyFault;
use settings_json::read_values;
use std::alloc::Global;
use std::fmt::Write;
use std::process::Abort;
use std::test::Fail;
use store_face::Store;
use tier_core::{AttachFault, Group, Setup};

// What the cache holds, what the base holds, and what is told.
const ROWS: &str = "- | - => attached
- | state a 1 1 => attached
clean a 1 1 | state a 1 1 => attached
dirty a 2 2 | state a 1 1 => attached
dirty a 1 1 | state a 1 1 => attached
dirty a 1 1 | - => attached
clean a 0 0 | - => attached
dirty a 0 0 | state a 0 0 => attached
epoch 3 | - => attached
- | epoch 3 => attached
epoch 3 | epoch 3 => attached
epoch 3 | epoch 2 => attached
epoch 4611686018427387904 | epoch 4611686018427387904 => attached
epoch 2/clean a 1 1/dirty b 3 5 | epoch 1/state a 1 1/state b 4 4/state c 1 1 => attached
clean a 1 2 | state a 2 2 => unsound a
clean a 1 2 | state a 1 1 => unsound a
clean a 1 1 | - => unsound a
clean a 0 0 | state a 0 1 => unsound a
clean a 1 1 | state b 1 1 => unsound a
dirty a 1 1 | state a 1 2 => unsound a
dirty a 1 2 | state a 2 2 => unsound a
clean c 1 1/clean b 1 1/clean a 1 1 | state a 1 1/state b 1 2/state c 1 2 => unsound b
epoch 1/clean aa 1 1/dirty b 1 1 | epoch 1/state a 1 1/state b 2 2 => unsound aa
epoch 1 | epoch 2 => epochs 1 2
epoch 1/clean a 1 1 | epoch 3 => epochs 1 3
bad Ra | - => bad Cache Ra
epoch 1/bad Rb/bad Ra | epoch 2/bad Na => bad Cache Ra
epoch 0/bad Ra | - => bad Cache E
epoch 4611686018427387905 | - => bad Cache E
state a 1 1 | state a 1 1 => bad Cache Na
bad R | - => bad Cache R
- | bad Nb/bad Na => bad Base Na
clean a 1 1 | bad Nb => bad Base Nb
epoch 1/clean b 1 1 | epoch 2/bad Na => bad Base Na
- | epoch 0/bad Na => bad Base E
clean a 1 1 | clean a 1 1 => bad Base Ra";

fn put_text(told: &mut String, bytes: &[u8]) -> Result<(), Fail> {
    for byte in bytes {
        told.push(char::from(*byte))?;
    }
    Ok(())
}

// Why two pools are no group, in short words.
fn put_fault(told: &mut String, fault: &SurveyFault) -> Result<(), Fail> {
    match fault {
        SurveyFault::BadRecord { pool, key } => {
            write!(told, "bad {pool:?} ")?;
            put_text(told, key.as_slice())
        }
        SurveyFault::Epochs { cache, base } => Ok(write!(told, "epochs {cache} {base}")?),
        SurveyFault::Unsound { name } => {
            told.push_str("unsound ")?;
            put_text(told, name.bytes())
        }
        SurveyFault::Store { .. } | SurveyFault::NoMemory => Err("memory".into()),
    }
}

// What attaching a group over these stores tells.
fn attached<P: Store>(rt: &impl Abort, alloc: Global, cache: P, base: P) -> Result<String, Fail> {
    let setup = Setup {
        values: read_values(alloc, b"").ok().ok_or("values")?,
        share: Share {
            objects: 0,
            bytes: 0,
        },
        mode: Mode::Writeback,
        moment: 0,
    };
    assert!(rt; cache.is_live());
    assert!(rt; base.is_live());
    let fault = match Group::attach(alloc, cache, base, setup) {
        Ok(_group) => None,
        Err((fault, _cache, _base)) => Some(fault),
    };
    let mut told = String::new(alloc);
    match &fault {
        None => told.push_str("attached")?,
        Some(AttachFault::Survey(fault)) => put_fault(&mut told, fault)?,
        Some(AttachFault::Base(_)) => return Err("memory".into()),
    }
    Ok(told)
}

#[test]
fn pairs_of_pools(rt: HostRuntime) -> Result<(), Fail> {
    let alloc = rt.alloc();
    let mut rows = 0u32;
    for line in ROWS.lines() {
        let (held, want) = line.split_once(" => ").ok_or("a row")?;
        let (here, there) = held.split_once(" | ").ok_or("a row")?;
        let mut cache = log(&rt, alloc, Pool::Cache);
        fill(&rt, alloc, &mut cache, here)?;
        let mut base = log(&rt, alloc, Pool::Base);
        fill(&rt, alloc, &mut base, there)?;
        let told = attached(&rt, alloc, cache, base)?;
        assert_eq!(rt; told.as_str(), want, "{line}");
        rows = rows.saturating_add(1);
    }
    assert_eq!(rt; rows, 36);
    Ok(())
}
