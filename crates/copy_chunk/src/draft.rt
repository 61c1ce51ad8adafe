//! A state in the making. What a part would break is found before anything changes, and want of
//! memory leaves it as it was.
ghost use Rattle.std.specs.Prelude.{◌≡◌, ◌≤◌, ◌+◌, ◌++◌, ◌^◌, nat_lt, nat_le, ◌&&◌, length, take};
ghost use Rattle.std.specs.Prelude.{map, None, Some, IfOk, OnOk, OnErr};
ghost use Rattle.std.specs.BTreeMap.{IsOrdered};
ghost use Rattle.std.specs.Option.{option_copied};
ghost use Rattle.obj_model.specs.Names.{name_cmp};
ghost use Rattle.obj_model.specs.States.{unknown};
ghost use Rattle.copy_chunk.specs.declared.chunk.Cursor.TheVariants.{Head, Attrs, Omap, Seen};
ghost use Rattle.copy_chunk.specs.declared.chunk.Part.TheVariants as part;
ghost use Rattle.copy_chunk.specs.Chunks.{entry_of, last_key};
ghost use Rattle.copy_chunk.specs.Gathers.{goes_behind, pairs_fit, table_fits, body_fits};
ghost use Rattle.copy_chunk.specs.Gathers.{reply_fits, kept_fits, kepts_fit};
ghost use Rattle.copy_chunk.specs.Steps.{IsRising, state_of, Puts, PutsTable, PutsBody};

use crate::{Cursor, Part};
use obj_model::{
    ATTRS_LIMIT, BODY_LIMIT, Bytes, CLIENT_LIMIT, Items, Kept, KeptList, NUMBER_LIMIT, Name,
    NameMap, NameState, NoMemory, OMAP_LIMIT, Obj, Pair, PairList, Reply, VALUE_LIMIT,
    VECTOR_LIMIT,
};
use std::alloc::Global;
use std::collections::BTreeMap;

type Table = BTreeMap<Name, Bytes>;

/// A state in the making.
#[derive(Drop)]
pub(crate) struct Draft {
    ver: u64,
    seq: u64,
    present: bool,
    body: Vec<u8>,
    attrs: Table,
    omap: Table,
    seen: KeptList,
}

// Whether a key comes behind the last one.
fn goes_behind(last: Option<&Name>, key: &Name) -> bool
    ensures { result ≡ goes_behind (option_copied last.entry) key.now }
{
    match last {
        None => true,
        Some(last) => last < key,
    }
}

// Whether pairs go on rising behind a key, with values of lawful length.
fn pairs_fit(last: Option<&Name>, pairs: &[Pair]) -> bool
    ensures { result ≡ pairs_fit (option_copied last.entry) pairs.now }
{
    let mut before = last;
    for pair in pairs {
        if !goes_behind(before, &pair.key) || pair.value.as_slice().len() as u64 > VALUE_LIMIT {
            return false;
        }
        before = Some(&pair.key);
    }
    true
}

// The last key of a table.
fn last_key(table: &Table) -> Option<&Name>
    ensures { option_copied result ≡ last_key None table.now.entries }
{
    match table.last_key_value() {
        None => None,
        Some((key, _)) => Some(key),
    }
}

// Whether a table can take these pairs.
fn table_fits(most: u64, table: &Table, pairs: &[Pair]) -> bool
    ensures exact { result ≡ table_fits most table.now.entries pairs.now }
    ensures rising { IsOrdered name_cmp table.now }
{
    let count = table.len() as u64;
    if pairs.is_empty() || count > most || pairs.len() as u64 > most - count {
        return false;
    }
    pairs_fit(last_key(table), pairs)
}

// Takes the last entries away, down to so many.
fn cut_back(table: &mut Table, count: usize)
    requires { count ≤ length table.old.entries }
    ensures { table.new.entries ≡ take count table.old.entries }
{
    while table.len() > count {
        table.pop_last();
    }
}

fn reply_fits(reply: &Reply) -> bool
    ensures { result ≡ reply_fits reply.now }
{
    match reply {
        Reply::Done { .. } => true,
        Reply::Refused { at, .. } => (*at as usize) < VECTOR_LIMIT,
    }
}

fn kept_fits(kept: &Kept) -> bool
    ensures { result ≡ kept_fits kept.now }
{
    kept.client <= CLIENT_LIMIT && kept.tid <= NUMBER_LIMIT && reply_fits(&kept.reply)
}

// Whether kept requests are within their limits and rise by client.
fn kepts_fit(list: &[Kept]) -> bool
    ensures { result ≡ kepts_fit 0 list.now }
{
    let mut last = 0u16;
    for kept in list {
        if kept.client <= last || !kept_fits(kept) {
            return false;
        }
        last = kept.client;
    }
    true
}

// Puts pairs behind a table's entries. Without memory it is as it was.
fn put_pairs(table: &mut Table, pairs: Vec<Pair>) -> Result<(), NoMemory>
    requires { IsRising (table.old.entries ++ map entry_of pairs.items) }
    ensures put { OnOk result (table.new.entries ≡ table.old.entries ++ map entry_of pairs.items) }
    ensures refused { OnErr result (table.new.entries ≡ table.old.entries) }
{
    let count = table.len();
    for Pair { key, value } in pairs {
        match table.insert(key, value) {
            Ok(_) => {}
            Err(_) => {
                cut_back(table, count);
                return Err(NoMemory);
            }
        }
    }
    Ok(())
}

// The pairs of a part in a table of at most so many entries, where they fit.
fn put_table(table: &mut Table, most: u64, pairs: PairList) -> Result<bool, NoMemory>
    ensures put { IfOk result
        (λ done. PutsTable most pairs table.old.entries done table.new.entries) }
    ensures refused { OnErr result (table.new.entries ≡ table.old.entries) }
    ensures rising { IsOrdered name_cmp table.old }
{
    if !table_fits(most, table, pairs.as_slice()) {
        return Ok(false);
    }
    put_pairs(table, pairs.into_vec())?;
    Ok(true)
}

// A piece behind the body, where it fits. Without memory the body is as it was.
fn put_body(body: &mut Vec<u8>, bytes: &[u8]) -> Result<bool, NoMemory>
    ensures put { IfOk result (λ done. PutsBody bytes.now body.old.items done body.new.items) }
    ensures refused { OnErr result (body.new.items ≡ body.old.items) }
{
    let count = body.len() as u64;
    if bytes.is_empty() || count > BODY_LIMIT || bytes.len() as u64 > BODY_LIMIT - count {
        return Ok(false);
    }
    body.extend_from_slice(bytes)?;
    Ok(true)
}

impl Draft {
    /// The state of a name that was never written.
    pub(crate) fn new(alloc: Global) -> Draft
        ensures { state_of result ≡ unknown }
    {
        Draft {
            ver: 0,
            seq: 0,
            present: false,
            body: Vec::new(alloc),
            attrs: BTreeMap::new(alloc),
            omap: BTreeMap::new(alloc),
            seen: Items::new(alloc),
        }
    }

    // The head of a state, where it fits. It takes no memory.
    fn put_head(&mut self, ver: u64, seq: u64, present: bool) -> bool
        ensures { Puts Head (part.Head ver seq present) (state_of self.old) result
            (state_of self.new) }
    {
        if ver > seq || seq > NUMBER_LIMIT {
            return false;
        }
        self.ver = ver;
        self.seq = seq;
        self.present = present;
        self.body.clear();
        self.attrs.clear();
        self.omap.clear();
        self.seen = Items::new(*self.body.allocator());
        true
    }

    // The kept requests, where they fit. It takes no memory.
    fn put_seen(&mut self, list: KeptList) -> bool
        ensures { Puts Seen (part.Seen list) (state_of self.old) result (state_of self.new) }
    {
        if !kepts_fit(list.as_slice()) {
            return false;
        }
        self.seen = list;
        true
    }

    // Attributes behind those that are there, where they fit. Without memory nothing changes.
    fn put_attrs(&mut self, pairs: PairList) -> Result<bool, NoMemory>
        ensures put { IfOk result
            (λ done. Puts (Attrs None) (part.Pairs pairs) (state_of self.old) done
            (state_of self.new)) }
        ensures refused { OnErr result (state_of self.new ≡ state_of self.old) }
    {
        if !self.present {
            return Ok(false);
        }
        put_table(&mut self.attrs, ATTRS_LIMIT, pairs)
    }

    // Entries of the omap behind those that are there, where they fit. Without memory nothing
    // changes.
    fn put_omap(&mut self, pairs: PairList) -> Result<bool, NoMemory>
        ensures put { IfOk result
            (λ done. Puts (Omap None) (part.Pairs pairs) (state_of self.old) done
            (state_of self.new)) }
        ensures refused { OnErr result (state_of self.new ≡ state_of self.old) }
    {
        if !self.present {
            return Ok(false);
        }
        put_table(&mut self.omap, OMAP_LIMIT, pairs)
    }

    /// Puts a part where it fits, and answers whether it did. Without memory nothing changes.
    pub(crate) fn put(&mut self, at: &Cursor, part: Part) -> Result<bool, NoMemory>
        ensures put { IfOk result
            (λ done. Puts at.now part (state_of self.old) done (state_of self.new)) }
        ensures refused { OnErr result (state_of self.new ≡ state_of self.old) }
    {
        match (at, part) {
            (Cursor::Head, Part::Head { ver, seq, present }) => {
                Ok(self.put_head(ver, seq, present))
            }
            (Cursor::Body(_), Part::Body(bytes)) => {
                if !self.present {
                    return Ok(false);
                }
                put_body(&mut self.body, bytes.as_slice())
            }
            (Cursor::Attrs(_), Part::Pairs(pairs)) => self.put_attrs(pairs),
            (Cursor::Omap(_), Part::Pairs(pairs)) => self.put_omap(pairs),
            (Cursor::Seen, Part::Seen(list)) => Ok(self.put_seen(list)),
            _ => Ok(false),
        }
    }

    /// The state that was made. It takes no memory.
    pub(crate) fn into_state(self) -> NameState
        ensures { result ≡ state_of self }
    {
        let Draft {
            ver,
            seq,
            present,
            body,
            attrs,
            omap,
            seen,
        } = self;
        let obj = if present {
            Some(Obj {
                body: Bytes::from_vec(body),
                attrs: NameMap::from_map(attrs),
                omap: NameMap::from_map(omap),
            })
        } else {
            None
        };
        NameState {
            ver,
            seq,
            obj,
            seen,
        }
    }
}
