// The depot cases that no trace reaches: calls on records that no run leaves. Each prints its number as `e case number`, with the answers as
// `a` lines. A case is the record of `base` with one word changed, with two, or as it is.
#![tactic(auto)]

use model::{Event, Fragment, Op};
use record::Record;
use std::io::Write;

// A word that is put, after its place in a record: the four counts are places 0 to 3, then the rows follow.
#[derive(Clone, Copy)]
struct Put(u32, u32);

// What unsound records change in the record of `base`, by the clauses of refusal 1.
const UNSOUND: [&[Put]; 47] = [
    // a cell count above 4,096
    &[Put(0, 4097)],
    // 17 uncommitted
    &[Put(2, 17), Put(3, 0)],
    // 65 live
    &[Put(3, 61)],
    // counts that overflow
    &[Put(2, 4294967295), Put(3, 4294967295)],
    // nine fragments run
    &[Put(1860, 9)],
    // 185 undo entries
    &[Put(1863, 185)],
    // a live number 0
    &[Put(4, 0)],
    // numbers not rising
    &[Put(33, 3)],
    // a number above the largest
    &[Put(149, 13)],
    // a stored fragment that 4 refuses, by a flag
    &[Put(121, 4)],
    // the same by a code
    &[Put(124, 9)],
    // by an amount of a read
    &[Put(126, 1)],
    // by a word in an unused place
    &[Put(133, 1)],
    // by no operation
    &[Put(123, 0)],
    // by a single with a coordinator
    &[Put(35, 1)],
    // by a multi with none
    &[Put(64, 0)],
    // a stored fragment that 5 refuses
    &[Put(154, 4)],
    // no fragment run
    &[Put(1892, 0), Put(1895, 0)],
    // one behind the front with two runs
    &[Put(1892, 2)],
    // a front that is a single
    &[Put(5, 2), Put(6, 0)],
    // a front that holds its answer
    &[Put(1862, 1)],
    // a single whose answer is not held
    &[Put(1878, 0)],
    // an unfinished one that is not the last
    &[Put(1877, 0)],
    // nine held numbers
    &[Put(1881, 9)],
    // a held place 9
    &[Put(1912, 9)],
    // an undo cell outside
    &[Put(2126, 4)],
    // 17 entries of two fragments
    &[Put(1863, 17)],
    // nine entries of one
    &[Put(1911, 9)],
    // a state that stands for nothing
    &[Put(1909, 3)],
    // a reply that stands for nothing
    &[Put(1910, 2)],
    // 65 entries of eight fragments
    &[Put(1860, 8), Put(1863, 65)],
    // a largest below a live number
    &[Put(1, 11)],
    // a stored fragment that 4 refuses, by an unknown flag alone
    &[Put(121, 6)],
    // by a single that is not last
    &[Put(121, 0)],
    // by code 0
    &[Put(124, 0)],
    // by a multi with coordinator 256
    &[Put(64, 256)],
    // by a cell in an unused place
    &[Put(134, 1)],
    // by an amount in an unused place
    &[Put(135, 1)],
    // stored fragments that 5 refuses, by the count of cells
    &[Put(0, 3)],
    // an attempt 0 of the front
    &[Put(32, 0)],
    // of one behind it
    &[Put(61, 0)],
    // of one that waits
    &[Put(148, 0)],
    // an attempt 65 of the front
    &[Put(32, 65)],
    // an attempt 64 with one ahead
    &[Put(61, 64)],
    // 61 with four ahead, of one that waits
    &[Put(148, 61)],
    // 60 with five ahead, of the last
    &[Put(177, 60)],
    // an attempt that overflows with those ahead
    &[Put(177, 4294967295)],
];

// Odd records that no run leaves and that are sound.
const ODD: [&[Put]; 28] = [
    // nothing odd
    &[],
    // the largest is TOP
    &[Put(1, 4294967295)],
    // eight fragments run
    &[Put(1860, 8)],
    // no entries
    &[Put(1863, 0), Put(1879, 0)],
    // failed ones that own entries
    &[Put(1877, 2), Put(1909, 2)],
    // finished without a last fragment
    &[Put(1909, 1)],
    // nothing uncommitted, six wait
    &[Put(2, 0), Put(3, 6)],
    // three wait behind a finished one
    &[Put(2, 3), Put(3, 3)],
    // a held place and numbers
    &[Put(1880, 8), Put(1881, 8)],
    // a held answer with none
    &[Put(1881, 0)],
    // garbage behind the live ones and the runs
    &[Put(178, 1), Put(1924, 4294967295)],
    // garbage behind the entries
    &[Put(2128, 4294967295), Put(2483, 1)],
    // garbage in held numbers
    &[Put(1884, 77), Put(1890, 4294967295)],
    // garbage of an answer that was sent
    &[Put(1864, 9), Put(1865, 9)],
    // 4,096 cells
    &[Put(0, 4096)],
    // the least number
    &[Put(4, 1)],
    // a number just above the one before
    &[Put(33, 4)],
    // 16 entries of two fragments
    &[Put(1863, 16)],
    // 64 entries of eight
    &[Put(1860, 8), Put(1863, 64)],
    // eight entries of one
    &[Put(1911, 8)],
    // code 8 in one that waits
    &[Put(124, 8)],
    // coordinator 255
    &[Put(64, 255)],
    // the last cell in one that waits
    &[Put(154, 3)],
    // both flags in one that waits
    &[Put(121, 3), Put(122, 1)],
    // an attempt 64 of the front
    &[Put(32, 64)],
    // 63 with one ahead, and 60 with four
    &[Put(61, 63), Put(148, 60)],
    // 62 with two ahead, and 59 with five
    &[Put(90, 62), Put(177, 59)],
    // garbage in the attempts behind the live ones
    &[Put(206, 65), Put(1859, 4294967295)],
];

// A place of the output, which has 4,096.
fn place(n: usize) -> u32 {
    n.min(4096) as u32
}

// The lines of a call's answers, from a place of the output on; where they end.
fn put_answers(out: &mut [u8], from: u32, room: &[u32], count: u32) -> u32 {
    let mut at = from;
    for i in 0..count {
        at = place(trace::put_a(out, at, room, i));
    }
    at
}

// Codes, kinds and flags are handed in as numbers, for some stand for nothing.
fn op(code: u32, cell: u32, amount: u32) -> Op {
    Op { code, cell, amount }
}

// A fragment of up to three operations.
fn fragment(flags: u32, coordinator: u32, count: u32, a: Op, b: Op, c: Op) -> Fragment {
    let none = op(0, 0, 0);
    Fragment {
        flags,
        coordinator,
        count,
        row: [a, b, c, none, none, none, none, none],
    }
}

// A fragment of one operation.
fn arrival(number: u32, flags: u32, coordinator: u32, o: Op) -> Event {
    Event {
        kind: 1,
        number,
        fragment: fragment(flags, coordinator, 1, o, op(0, 0, 0), op(0, 0, 0)),
    }
}

fn decision(kind: u32, number: u32) -> Event {
    Event {
        kind,
        number,
        fragment: fragment(0, 0, 0, op(0, 0, 0), op(0, 0, 0), op(0, 0, 0)),
    }
}

// The record after one call: a refusal leaves the one that came.
fn after(r: Record, cells: &mut [u32], event: Event, room: &mut [u32]) -> Record {
    carried::call(r, cells, event, room).next
}

// Four cells, and uncommitted: 3, finished in two fragments with three entries; single 5, held.
fn front(cells: &mut [u32], room: &mut [u32]) -> Record {
    let fresh = record::start(4);
    let three = Event {
        kind: 1,
        number: 3,
        fragment: fragment(1, 1, 3, op(2, 0, 1), op(3, 1, 1), op(1, 0, 0)),
    };
    let more = arrival(3, 3, 1, op(2, 2, 4));
    let five = Event {
        kind: 1,
        number: 5,
        fragment: fragment(2, 0, 2, op(3, 0, 1), op(1, 1, 0), op(0, 0, 0)),
    };
    let r3 = after(fresh.next, cells, three, room);
    let r4 = after(r3, cells, more, room);
    after(r4, cells, five, room)
}

// Behind them multi 6, sent; multi 8 of another coordinator, held and running.
fn behind(cells: &mut [u32], room: &mut [u32]) -> Record {
    let six = arrival(6, 3, 1, op(4, 1, 1));
    let eight = arrival(8, 1, 2, op(7, 3, 9));
    let r5 = front(cells, room);
    let r6 = after(r5, cells, six, room);
    after(r6, cells, eight, room)
}

// Waiting: single 9 and multi 12.
fn base(cells: &mut [u32], room: &mut [u32]) -> Record {
    let nine = arrival(9, 2, 0, op(1, 0, 0));
    let twelve = arrival(12, 3, 7, op(8, 1, 3));
    let r8 = behind(cells, room);
    let r9 = after(r8, cells, nine, room);
    after(r9, cells, twelve, room)
}

// The record with one word changed.
fn changed(mut r: Record, Put(place, word): Put) -> Record {
    let i = place as usize;
    match place {
        0 => r.counts.cells = word,
        1 => r.counts.largest = word,
        2 => r.counts.uncommitted = word,
        3 => r.counts.waiting = word,
        4..=1859 => operations::put_at(&mut r.live, i - 4, word),
        1860..=2115 => operations::put_at(&mut r.runs, i - 1860, word),
        _ => operations::put_at(&mut r.undo, i - 2116, word),
    }
    r
}

// The record of a case.
fn case(r: Record, puts: &[Put]) -> Record {
    let mut record = r;
    for p in puts {
        record = changed(record, *p);
    }
    record
}

// A call whose record is not kept: its lines, and where they end.
fn try_call(
    out: &mut [u8],
    at: u32,
    position: u32,
    r: Record,
    cells: &mut [u32],
    event: Event,
    room: &mut [u32],
) -> u32 {
    let (number, answers) = match carried::call(r, cells, event, room).answers {
        Ok(n) => (0, n),
        Err(refusal) => (refusal.into(), 0),
    };
    let end = trace::put_e(out, at, position, number);
    put_answers(out, place(end), room, answers)
}

// The cells as `base` leaves them.
fn refill(cells: &mut [u32]) {
    for (i, n) in [2, 10, 4, 9].iter().enumerate() {
        operations::put_at(cells, i, *n);
    }
}

// A decision of the front, on the cells as `base` leaves them.
fn decide(
    out: &mut [u8],
    at: u32,
    position: u32,
    r: Record,
    cells: &mut [u32],
    kind: u32,
    room: &mut [u32],
) -> u32 {
    refill(cells);
    try_call(out, at, position, r, cells, decision(kind, 3), room)
}

// A commit of the front and, on the cells as they were, an abort.
fn decide_both(
    out: &mut [u8],
    at: u32,
    position: u32,
    r: Record,
    cells: &mut [u32],
    room: &mut [u32],
) -> u32 {
    let middle = decide(out, at, position, r, cells, 2, room);
    decide(out, middle, position, r, cells, 3, room)
}

// All cases, both kinds numbered from 1: of an unsound one each is 1, whatever comes; a sound one is decided.
fn cases(out: &mut [u8], r: Record, cells: &mut [u32], room: &mut [u32]) -> u32 {
    let mut at = 0;
    for (i, puts) in UNSOUND.iter().enumerate() {
        let record = case(r, puts);
        at = try_call(out, at, i as u32 + 1, record, cells, decision(3, 3), room);
    }
    for (i, puts) in ODD.iter().enumerate() {
        at = decide_both(out, at, i as u32 + 1, case(r, puts), cells, room);
    }
    at
}

// A call with so many cells, 5 at most, and so much room, 1,024 at most, of an event of no known kind.
fn lend(out: &mut [u8], at: u32, position: u32, r: Record, many: usize, much: usize) -> u32 {
    let mut cells = [0u32; 5];
    let mut room = [0u32; 1024];
    try_call(
        out,
        at,
        position,
        r,
        &mut cells[..many.min(5)],
        decision(9, 0),
        &mut room[..much.min(1024)],
    )
}

// Such calls, each by its position, its record, and how many cells and how much room it is lent.
fn lend_each(out: &mut [u8], from: u32, calls: &[(u32, &Record, usize, usize)]) -> u32 {
    let mut at = from;
    for (position, r, many, much) in calls {
        at = lend(out, at, *position, **r, *many, *much);
    }
    at
}

// The lines of starts, each by its position and how many cells it asks for, and where they end.
fn start_each(out: &mut [u8], from: u32, starts: &[(u32, u32)]) -> u32 {
    let mut at = from;
    for (position, cells) in starts {
        let started = record::start(*cells);
        at = place(trace::put_e(out, at, *position, started.number));
    }
    at
}

// Calls that lend too little or too much, in the order of their numbers.
fn lendings(out: &mut [u8], from: u32, r: Record) -> u32 {
    let bad = changed(r, Put(0, 4097));
    let none = record::start(0).next;
    let one = record::start(1).next;
    let most = record::start(4096).next;
    let many = record::start(4097).next;
    let before = [
        // refusals 1, 2 and 3, each before the ones behind it; a cell too few and one too many
        (1, &bad, 3, 1023),
        (2, &r, 3, 1023),
        (3, &r, 3, 1024),
        (4, &r, 5, 1024),
        // no cell lent, and a record that has none; at last all that is asked for
        (5, &r, 0, 1024),
        (6, &none, 0, 1024),
        (7, &none, 4, 1024),
        (8, &r, 4, 1024),
    ];
    // starting with none and with too many, with the fewest and with the most
    let starts = [(9, 0), (10, 4097), (11, 1), (12, 4096)];
    let behind = [
        // refusal 2 with all else lent; then a record that was only started, with no cell and with the one that it has
        (13, &r, 4, 1023),
        (14, &r, 4, 0),
        (15, &one, 0, 1024),
        (16, &one, 1, 1024),
        // the same with one more, with too few, and records of too many
        (17, &one, 2, 1024),
        (18, &most, 5, 1024),
        (19, &many, 4, 1024),
        (20, &many, 4, 1023),
    ];
    let a = lend_each(out, from, &before);
    let b = start_each(out, a, &starts);
    lend_each(out, b, &behind)
}

fn main(rt: HostRuntime) {
    let mut out = [0u8; 4096];
    let mut cells = [5u32, 10, 0, 7];
    let mut room = [0u32; 1024];
    let r = base(&mut cells, &mut room);
    let a = cases(&mut out, r, &mut cells, &mut room);
    let b = lendings(&mut out, a, r);
    if b <= 4096 {
        let _written = rt.stdout().write_all(&out[..b as usize]);
    }
}
