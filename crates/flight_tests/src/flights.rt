//! Work on names: what it holds up, cell by cell, what the end of a call leaves of it, and finding
//! it by its numbers.
ghost use Rattle.std.specs.Prelude.{IfOk, IsTrue};
ghost use Rattle.std.specs.Option.{option_copied};
ghost use Rattle.flight_tests.specs.Works.{IsOne, IsOnly};
ghost use Rattle.tier_flight.specs.Joins.{MayJoin};
ghost use Rattle.tier_flight.specs.Numbers.{IsNewBy, has_call, has_opid};

use copy_chunk::Gather;
use obj_model::{Items, Kind, Name, Req, SubOp, Vector};
use std::alloc::Global;
use std::process::Abort;
use std::test::Fail;
use test_rows::{Row, name};
use tier_flight::{Ask, Busy, Flight, Flights, ReadFlight, Want};

// A vector of this sub-operation alone.
fn vector(alloc: Global, op: SubOp) -> Result<Vector, Fail> {
    let mut ops = Vec::new(alloc);
    ops.push(op)?;
    Ok(Vector::new(ops).ok().ok_or("a vector")?)
}

// A write request.
fn request(alloc: Global) -> Result<Req, Fail> {
    Ok(Req {
        client: 1,
        tid: 1,
        name: name(alloc, "a")?,
        vector: vector(alloc, SubOp::Create)?,
    })
}

// One read.
fn read(alloc: Global, call: u64, opid: u64) -> Result<Flight, Fail>
    ensures { IfOk result (IsOne call opid) }
{
    let vector = vector(alloc, SubOp::Stat)?;
    let reads = vec![in alloc; ReadFlight { call, opid, vector }]?;
    Ok(Flight::Reads {
        list: Items::from_vec(reads),
    })
}

// The work of a word: this operation, for which this call waits unless it is 0.
fn work(alloc: Global, word: &str, call: u64, opid: u64) -> Result<Flight, Fail>
    ensures { IfOk result (IsOne call opid) }
{
    let waiter = if call == 0 { None } else { Some(call) };
    match word {
        "promote" => Ok(Flight::Promote {
            call,
            opid,
            gather: Gather::new(alloc),
            ask: Ask::Write(request(alloc)?),
        }),
        "write" => Ok(Flight::Write {
            driver: waiter,
            owner: 1,
            opid,
            req: request(alloc)?,
        }),
        "read" => read(alloc, call, opid),
        word => Ok(Flight::Flush {
            call: waiter,
            opid,
            seq: 3,
            blocking: word == "flush",
            drain: false,
        }),
    }
}

// Whether this work may come beside what stands.
fn may_join(standing: Option<&Flight>, work: &Flight) -> bool
    ensures { IsTrue result → MayJoin (option_copied standing.entry) work.now }
{
    match (standing, work) {
        (None, _) => true,
        (Some(Flight::Reads { .. }), Flight::Reads { .. }) => true,
        (_, _) => false,
    }
}

// Whether no work is this operation.
#[tactic(auto, using(crate::proofs::News::new_by))]
fn is_new_operation(flights: &Flights, work: &Flight, opid: u64) -> bool
    requires { IsOnly has_opid opid work.now }
    ensures { IsTrue result → IsNewBy has_opid flights.now work.now }
{
    match flights.by_opid(opid) {
        Some(_) => false,
        None => true,
    }
}

// Whether the call waits for no work.
#[tactic(auto, using(crate::proofs::News::new_by))]
fn is_new_call(flights: &Flights, work: &Flight, call: u64) -> bool
    requires { IsOnly has_call call work.now }
    ensures { IsTrue result → IsNewBy has_call flights.now work.now }
{
    match flights.by_call(call) {
        Some(_) => false,
        None => true,
    }
}

// Adds the work of a word, whose numbers are new.
fn add(
    alloc: Global,
    flights: &mut Flights,
    on: &str,
    word: &str,
    call: u64,
    opid: u64,
) -> Result<(), Fail> {
    let name = name(alloc, on)?;
    let work = work(alloc, word, call, opid)?;
    if !is_new_operation(flights, &work, opid) {
        return Err("a new operation")?;
    }
    if !is_new_call(flights, &work, call) {
        return Err("a call without work")?;
    }
    if !may_join(flights.get(&name), &work) {
        return Err("a free name")?;
    }
    Ok(flights.add(name, work).ok().ok_or("memory")?)
}

// The letter of a kind, `?` where the number is not 7; `-` of nothing.
fn letter(busy: Option<Busy>) -> char {
    match busy {
        None => '-',
        Some(busy) if busy.opid != 7 => '?',
        Some(busy) => match busy.kind {
            Kind::Promote => 'p',
            Kind::Write => 'w',
            Kind::Read => 'r',
            Kind::Flush => 'f',
        },
    }
}

// What holds up a read, a promoting read, a write, a flush and an eviction.
fn letters(alloc: Global, flights: &Flights, name: &Name) -> Result<String, Fail> {
    let mut letters = String::new(alloc);
    for want in [
        Want::Read,
        Want::PromoteRead,
        Want::Write,
        Want::Flush,
        Want::Evict,
    ] {
        letters.push(letter(flights.busy(name, want)))?;
    }
    Ok(letters)
}

// The work of a word under operation 7, of a call or of none, and what it holds up; then the call
// that ends, and what the name holds up afterwards.
const CELLS: &str = "\
promote 5 ppppp 5 -----
promote 5 ppppp 6 ppppp
write 5 wwwww 5 ---ww
write 5 wwwww 1 wwwww
write 0 ---ww 5 ---ww
read 5 -rr-- 5 -----
read 5 -rr-- 6 -rr--
flush 5 --fff 5 -----
flush 5 --fff 6 --fff
flush 0 --fff 5 --fff
tryflush 5 ---ff 5 -----
tryflush 0 ---ff 5 ---ff";

#[test]
fn each_cell_before_and_after_a_call_ends(rt: HostRuntime) -> Result<(), Fail> {
    let alloc = rt.alloc();
    let name = name(alloc, "a")?;
    for line in CELLS.lines() {
        let mut row = Row::new(line);
        let word = row.word();
        let mut flights = Flights::new(alloc);
        assert_eq!(rt; letters(alloc, &flights, &name)?.as_str(), "-----");
        add(alloc, &mut flights, "a", word, row.number()?, 7)?;
        assert_eq!(rt;
            letters(alloc, &flights, &name)?.as_str(),
            row.word(),
            "{line}"
        );
        flights.drop_call(row.number()?);
        assert_eq!(rt;
            letters(alloc, &flights, &name)?.as_str(),
            row.word(),
            "{line}"
        );
    }
    Ok(())
}

// Whether the name is this, or none where the word is `-`.
fn is_name(found: Option<&Name>, word: &str) -> bool {
    match found {
        Some(name) => name.bytes() == word.as_bytes(),
        None => word == "-",
    }
}

// Steps on one set of flights. `add NAME WORK CALL OPID`; `drop CALL`; `opid N` and `call N` with
// the name that is found; `busy NAME` with what it holds up.
const STEPS: &str = "\
add a read 5 7
add a read 6 8
add b write 9 10
add c tryflush 0 11
opid 7 a
opid 8 a
call 6 a
call 9 b
opid 11 c
opid 9 -
drop 5
opid 7 -
opid 8 a
call 5 -
call 6 a
busy a -??--
drop 4
drop 6
opid 8 -
busy a -----
drop 9
opid 10 b
call 9 -
opid 11 c
add a flush 5 7
busy a --fff";

// One step, and whether what it tells is what its line says.
fn steps(alloc: Global, flights: &mut Flights, line: &str) -> Result<bool, Fail> {
    let mut row = Row::new(line);
    match row.word() {
        "add" => {
            let (on, word) = (row.word(), row.word());
            let call = row.number()?;
            add(alloc, flights, on, word, call, row.number()?)?;
            Ok(true)
        }
        "drop" => {
            flights.drop_call(row.number()?);
            Ok(true)
        }
        "opid" => Ok(is_name(flights.by_opid(row.number()?), row.word())),
        "call" => Ok(is_name(flights.by_call(row.number()?), row.word())),
        _ => {
            let name = name(alloc, row.word())?;
            Ok(letters(alloc, flights, &name)?.as_str() == row.word())
        }
    }
}

#[test]
fn found_by_numbers(rt: HostRuntime) -> Result<(), Fail> {
    let alloc = rt.alloc();
    let mut flights = Flights::new(alloc);
    for line in STEPS.lines() {
        assert!(rt; steps(alloc, &mut flights, line)?, "{line}");
    }
    Ok(())
}
