//! The store: its map in memory, which the journal on its disk makes.
ghost use Rattle.std.specs.Prelude.{◌≡◌, ◌≤◌, ◌<◌, ◌+◌, ◌++◌, ◌∷◌, [], true, map, vec_len, vec_capacity, IfOk, IfErr};
ghost use Rattle.std.specs.Prelude.{length, drop};
ghost use Rattle.std.specs.Option.{option_copied};
ghost use Rattle.tier_outside.specs.Causes.{Rose};
ghost use Rattle.tier_outside.specs.Disk.{IsImage};
ghost use Rattle.tier_outside.specs.DiskMoments.{Leaves, SomeImage};
ghost use Rattle.obj_model.specs.Changes.{IsTxn};
ghost use Rattle.store_face.specs.Calls.{Got, Listed, Committed, Reopened};
ghost use Rattle.store_face.specs.Limits.{store_limit};
ghost use Rattle.store_face.specs.Rooms.{record_size};
ghost use Rattle.rec_codec.specs.Spelling.{SpellsTxn};
ghost use Rattle.store_face.specs.Tables.{changed_by};
ghost use Rattle.store_face.specs.Views.{Sound, alone};
ghost use Rattle.pool_map.specs.Pools.{at_rest};
ghost use Rattle.store_face.specs.Views as store;
ghost use Rattle.log_image.specs.Images.{HoldsLog};
ghost use Rattle.log_store.specs.Commits.{KeepsAll, SameStore, WithOrWithout};
ghost use Rattle.log_store.specs.Opens.{KeepsRefused, Opened, OpeningStops, Refused};
ghost use Rattle.log_store.specs.Inner.{crash_of};
ghost use Rattle.log_store.specs.Views.{EachHolds, store_of};

use crate::AttachFault;
use crate::moment::{Held, Moment};
use crate::opening::{open, reread};
use gate_journal::{Journal, Record, add, record_buffer};
use obj_model::{Bytes, Change, Items, NoMemory, Pool};
use pool_map::PoolMap;
use rec_codec::{put_txn, txn_room};
use std::alloc::Global;
use std::marker::Model;
use store_face::{Store, StoreFault};
use tier_outside::Disk;

/// A map from keys to values on one disk, of a pool and a pair of pools.
///
/// The whole map stands in memory too, so reading touches no disk. Each commit adds a record to the
/// log, as long as there is room.
#[derive(Drop)]
pub struct LogStore<D: Disk + Drop> {
    alloc: Global,
    disk: D,
    role: Pool,
    pair: u64,
    journal: Journal,
    pool: PoolMap,
    past: Vec<Moment>,
    live: bool,
}

impl<D: Disk + Drop> Model for LogStore<D> {
    ghost use Rattle.std.specs.Prelude.{◌+◌, map};
    ghost use Rattle.tier_outside.specs.Moments.{told};
    ghost use Rattle.log_store.specs.Inner.{IsWhole, crash_of};
    ghost use Rattle.log_store.specs.Views.{LogView, coded_log};

    ghost Value = { LogView };

    ghost coded = { coded_log };

    ghost view = { λ s. record {
      disk = D.moments s.disk;
      faults = D.faults s.disk;
      live = s.live;
      role = s.role;
      pair = s.pair;
      room = s.journal.end;
      used = s.journal.next + 1;
      moments = told (D.moments s.disk) (map crash_of s.past.items);
    } };

    ghost invariant = { λ s. IsWhole s.role s.pair s.journal s.pool s.live (D.moments s.disk)
        (map crash_of s.past.items) };
}

// The buffer of a record in which changes are spelled as the transaction that is its payload.
#[tactic(auto, using(crate::proofs::Spelled::spelled_size))]
fn spelled(alloc: Global, changes: &[Change]) -> Result<Vec<u8>, NoMemory>
    requires { IsTxn changes.now }
    ensures spelled { IfOk result (λ buffer. SpellsTxn (drop 4 buffer.items) changes.now) }
    ensures size { IfOk result (λ buffer. length buffer.items + 1 ≡ record_size changes.now) }
{
    let mut buffer = record_buffer(alloc, txn_room(changes))?;
    put_txn(&mut buffer, changes)?;
    Ok(buffer)
}

// The changes that are prepared are made: a crash may leave what was held before, or that with
// them.
fn change(pool: &mut PoolMap, past: &mut Vec<Moment>, used: u64, behind: u64)
    requires { vec_len past.old < vec_capacity past.old }
    ensures pool { pool.new ≡ at_rest (changed_by pool.old.table pool.old.ready) }
    ensures past { map crash_of past.new.items ≡ map crash_of past.old.items ++ (record {
      before = record { table = pool.old.table; used = used };
      after = record { table = changed_by pool.old.table pool.old.ready; used = behind };
    }) ∷ [] }
    ensures room { vec_capacity past.new + vec_len past.old + 1
        ≡ vec_capacity past.old + vec_len past.new }
{
    let before = Held::of(pool, used);
    pool.apply();
    let after = Held::of(pool, behind);
    past.push_reserved(Moment { before, after });
}

// A crash leaves this map and no other.
fn settle(pool: &PoolMap, past: &mut Vec<Moment>, used: u64)
    requires { vec_len past.old < vec_capacity past.old }
    ensures { map crash_of past.new.items ≡ map crash_of past.old.items ++ alone (record {
      table = pool.now.table;
      used = used;
    }) ∷ [] }
{
    let before = Held::of(pool, used);
    let after = Held::of(pool, used);
    past.push_reserved(Moment { before, after });
}

impl<D: Disk + Drop> LogStore<D> {
    /// Opens the store on a disk, of this pool and pair of pools. The disk is restarted; an empty
    /// one is formatted; the log of this pool and pair is read; anything else is refused, and stays
    /// as it is.
    ///
    /// The room, 64 to 2^40 bytes, bounds what commits may use of the disk, and nothing else: a
    /// longer log is read too. After an error the disk is handed back.
    pub fn attach(
        alloc: Global,
        disk: D,
        role: Pool,
        pair: u64,
        room: u64,
    ) -> Result<LogStore<D>, (AttachFault, D)>
        requires room_least { 64 ≤ room }
        requires room_most { room ≤ store_limit }
        ensures opened { IfOk result (λ s. Opened role pair room (D.moments disk) s) }
        ensures sound { IfOk result (λ s. Sound (store_of s)) }
        ensures stops { IfOk result (λ s. Leaves (D.moments disk) s.disk (OpeningStops role pair)) }
        ensures later { IfOk result (λ s. D.faults disk ≤ s.faults) }
        ensures refused { IfErr result (λ e. Refused role pair (D.moments disk)
            (Rose (D.faults disk) (D.faults e.1)) e.0) }
        ensures kept { IfErr result (λ e. KeepsRefused (D.moments disk) (D.moments e.1) e.0) }
        ensures stops_refused { IfErr result (λ e.
            Leaves (D.moments disk) (D.moments e.1) (OpeningStops role pair)) }
        ensures later_refused { IfErr result (λ e. D.faults disk ≤ D.faults e.1) }
    {
        let mut disk = disk;
        let mut past = match Vec::with_capacity(alloc, 1) {
            Ok(past) => past,
            Err(_) => return Err((AttachFault::NoMemory, disk)),
        };
        match open(alloc, &mut disk, role, pair) {
            Ok((journal, pool)) => {
                settle(&pool, &mut past, journal.next + 1);
                Ok(LogStore {
                    alloc,
                    disk,
                    role,
                    pair,
                    journal: Journal {
                        start: journal.start,
                        next: journal.next,
                        end: room,
                    },
                    pool,
                    past,
                    live: true,
                })
            }
            Err(fault) => Err((fault, disk)),
        }
    }

    /// The disk, which is left as it is. It takes no memory.
    pub fn into_disk(self) -> D
        ensures moments { D.moments result ≡ self.disk }
        ensures faults { D.faults result ≡ self.faults }
        ensures holds { store.Now (store_of self)
            (EachHolds self.role self.pair (D.moments result)) }
    {
        let LogStore {
            alloc: _,
            disk,
            role: _,
            pair: _,
            journal: _,
            pool: _,
            past: _,
            live: _,
        } = self;
        disk
    }
}

impl<D: Disk + Drop> Store for LogStore<D> {
    ghost use Rattle.log_store.specs.Views.{store_of};

    ghost state = { λ s. store_of s };

    fn is_live(&self) -> bool {
        self.live
    }

    fn get(&mut self, key: &[u8]) -> Result<Option<Bytes>, StoreFault>
        requires { (store_of self.old).live ≡ true }
        ensures got { Got key.now (store_of self.old) (store_of self.new) result }
        ensures sound { Sound (store_of self.new) }
        ensures same { self.new ≡ self.old }
    {
        match self.pool.get(key) {
            Some(value) => Ok(Some(value.clone()?)),
            None => Ok(None),
        }
    }

    fn keys_after(&mut self, after: Option<&[u8]>, max: u32) -> Result<Items<Bytes>, StoreFault>
        requires { (store_of self.old).live ≡ true }
        ensures listed { Listed (option_copied after.entry) max
            (store_of self.old) (store_of self.new) result }
        ensures sound { Sound (store_of self.new) }
        ensures same { self.new ≡ self.old }
    {
        Ok(self.pool.keys_after(after, max)?)
    }

    fn commit(&mut self, changes: Vec<Change>) -> Result<(), StoreFault>
        requires live { (store_of self.old).live ≡ true }
        requires lawful { IsTxn changes.items }
        ensures committed { Committed changes.items (store_of self.old) (store_of self.new) result }
        ensures sound { Sound (store_of self.new) }
        ensures any_moment { Leaves self.old.disk self.new.disk
            (λ d image. store.Now (store_of self.old)
            (λ s. WithOrWithout self.old.role self.old.pair changes.items s.before image)) }
        ensures refused { KeepsAll self.old self.new result }
        ensures same { SameStore self.old self.new }
    {
        let buffer = spelled(self.alloc, changes.as_slice())?;
        let used = self.journal.next + 1;
        let behind = used + buffer.len() as u64 + 1;
        match Record::of_buffer(&self.journal, buffer) {
            Err(fault) => Err(fault),
            Ok(more) => {
                self.past.reserve(2)?;
                self.pool.prepare(changes)?;
                match add(&mut self.disk, &mut self.journal, more) {
                    Ok(()) => {
                        change(&mut self.pool, &mut self.past, used, behind);
                        settle(&self.pool, &mut self.past, behind);
                        Ok(())
                    }
                    Err(_) => {
                        change(&mut self.pool, &mut self.past, used, behind);
                        self.live = false;
                        Err(StoreFault::Disk)
                    }
                }
            }
        }
    }

    fn reopen(&mut self) -> Result<(), StoreFault>
        ensures reopened { Reopened (store_of self.old) (store_of self.new) result }
        ensures sound { Sound (store_of self.new) }
        ensures any_moment { Leaves self.old.disk self.new.disk IsImage }
        ensures read { IfOk result (λ done. SomeImage self.old.disk
            (λ image. store.Now (store_of self.new)
            (λ s. HoldsLog self.old.role self.old.pair image s.before))) }
        ensures same { SameStore self.old self.new }
    {
        self.live = false;
        self.past.reserve(1)?;
        // The old map is let go before the new one is read, so that both never take memory at once.
        self.pool = PoolMap::new(self.alloc);
        match reread(self.alloc, &mut self.disk, self.role, self.pair) {
            Ok((journal, pool)) => {
                settle(&pool, &mut self.past, journal.next + 1);
                self.journal = Journal {
                    start: journal.start,
                    next: journal.next,
                    end: self.journal.end,
                };
                self.pool = pool;
                self.live = true;
                Ok(())
            }
            Err(fault) => Err(fault),
        }
    }
}
