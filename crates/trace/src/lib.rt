// The trace of document 01: reading one from bytes, and the lines of text that its run prints, written into a lent buffer. Every public
// function is total: a byte that is not there is 0, and what would stand past a slice's end is not kept.
#![tactic(auto)]

ghost use Rattle.std.specs.Prelude.{◌≡◌, ◌+◌, ◌*◌, ◌<◌, ◌≤◌, length, get_or};
ghost use Rattle.std.proofs.lemmas.List.Edits.{sets};
ghost use Rattle.trace.specs.Format.{word_at, words_from, op_from, event_at, shape_of};
ghost use Rattle.trace.specs.Text.{decimal, fields_from, line_from, line_e, told_from, line_a, line_c, bad_trace, bad_scheme};

use model::{Event, Fragment, Op};

// What a trace has: its counts and the word at which its events start.
#[derive(Clone, Copy)]
pub struct Shape {
    pub cells: u32,
    pub events: u32,
    pub first: u32,
}

// The byte at a place, 0 past the end.
pub(crate) fn byte_at(bytes: &[u8], i: usize) -> u8
    ensures { result ≡ get_or bytes.now i 0 }
{
    bytes.get(i).copied().unwrap_or(0)
}

// "32-bit little-endian words"
pub(crate) fn word_at(bytes: &[u8], i: usize) -> u32
    requires { i < 8589934592 }
    ensures { result ≡ word_at bytes.now i }
{
    let b0 = byte_at(bytes, 4 * i);
    let b1 = byte_at(bytes, 4 * i + 1);
    let b2 = byte_at(bytes, 4 * i + 2);
    let b3 = byte_at(bytes, 4 * i + 3);
    u32::from_le_bytes([b0, b1, b2, b3])
}

// The word number i, 0 past the end.
pub fn word(bytes: &[u8], i: u32) -> u32
    ensures { result ≡ word_at bytes.now i }
{
    word_at(bytes, i as usize)
}

// "1 to 4,096 cells, 0 to 256 events, nothing after. Else it prints `bad trace` alone."
pub fn shape_of(bytes: &[u8]) -> Option<Shape>
    ensures { result ≡ shape_of bytes.now }
{
    let cells = word(bytes, 0);
    let offset = word(bytes, 1);
    let events = word(bytes, 2);
    let first = word(bytes, 3);
    let good = 1 <= cells
        && cells <= model::MOST_CELLS
        && offset == 4
        && events <= 256
        && first == 4 + cells
        && bytes.len() == 4 * (4 + cells + model::EVENT_WORDS * events) as usize;
    good.then_some(Shape {
        cells,
        events,
        first,
    })
}

// The operation whose three words start at b: of bytes, which end anywhere, so that nothing of `record` reads them.
pub(crate) fn op_at(bytes: &[u8], b: usize) -> Op
    requires { b < 8589934590 }
    ensures { result ≡ op_from bytes.now b }
{
    Op {
        code: word_at(bytes, b),
        cell: word_at(bytes, b + 1),
        amount: word_at(bytes, b + 2),
    }
}

// The event whose 29 words start at word `at`.
pub fn event_at(bytes: &[u8], at: u32) -> Event
    ensures { result ≡ event_at bytes.now at }
{
    let b = at as usize;
    Event {
        kind: word_at(bytes, b),
        number: word_at(bytes, b + 1),
        fragment: Fragment {
            flags: word_at(bytes, b + 2),
            coordinator: word_at(bytes, b + 3),
            count: word_at(bytes, b + 4),
            row: [
                op_at(bytes, b + 5),
                op_at(bytes, b + 8),
                op_at(bytes, b + 11),
                op_at(bytes, b + 14),
                op_at(bytes, b + 17),
                op_at(bytes, b + 20),
                op_at(bytes, b + 23),
                op_at(bytes, b + 26),
            ],
        },
    }
}

// "copies the trace's numbers over them": the first `count` cells get the words from 4 on.
pub fn copy_cells(bytes: &[u8], count: u32, cells: &mut [u32])
    ensures { cells.new ≡ sets cells.old 0 (words_from bytes.now 4 count) }
{
    for i in 0..count as usize {
        operations::put_at(cells, i, word_at(bytes, 4 + i));
    }
}

// How many decimal digits a number has. The library has no decimal logarithm.
pub(crate) fn places(n: u32) -> usize
    ensures { result ≡ length (decimal n) }
{
    let mut k = 1;
    let mut m = n;
    while 10 <= m {
        m /= 10;
        k += 1;
    }
    k
}

// A number's decimal digits from place `at` on; the place behind them. By hand: `write!` into a lent buffer needs a writer of it and a result at each
// line, where this keeps what fits.
pub(crate) fn put_decimal(buffer: &mut [u8], at: usize, n: u32) -> usize
    requires { at < 17179869184 }
    ensures value { result ≡ at + length (decimal n) }
    ensures buffer_after { buffer.new ≡ sets buffer.old at (decimal n) }
{
    let k = places(n);
    let mut m = n;
    for i in (0..k).rev() {
        operations::put_at(buffer, at + i, b'0' + (m % 10) as u8);
        m /= 10;
    }
    at + k
}

// "one blank between fields": `count` numbers of a row from place `from` on, a blank before each.
pub(crate) fn put_fields(
    buffer: &mut [u8],
    at: usize,
    row: &[u32],
    from: usize,
    count: usize,
) -> usize
    requires { (at < 8589934592) × (from < 1099511627776) × (count ≤ 12) }
    ensures value { result ≡ at + length (fields_from row.now from count) }
    ensures buffer_after { buffer.new ≡ sets buffer.old at (fields_from row.now from count) }
{
    let mut p = at;
    for j in 0..count {
        operations::put_at(buffer, p, b' ');
        p = put_decimal(buffer, p + 1, operations::number_at(row, from + j));
    }
    p
}

// A line: a letter, the fields, the line's end.
pub(crate) fn put_line(
    buffer: &mut [u8],
    at: u32,
    letter: u8,
    row: &[u32],
    from: usize,
    count: usize,
) -> usize
    requires { (from < 1099511627776) × (count ≤ 12) }
    ensures value { result ≡ at + length (line_from letter row.now from count) }
    ensures buffer_after { buffer.new ≡ sets buffer.old at (line_from letter row.now from count) }
{
    let start = at as usize;
    operations::put_at(buffer, start, letter);
    let p = put_fields(buffer, start + 1, row, from, count);
    operations::put_at(buffer, p, b'\n');
    p + 1
}

// "prints `e` position (from 1) and returned number for each event"
pub fn put_e(buffer: &mut [u8], at: u32, position: u32, number: u32) -> usize
    ensures value { result ≡ at + length (line_e position number) }
    ensures buffer_after { buffer.new ≡ sets buffer.old at (line_e position number) }
{
    put_line(buffer, at, b'e', &[position, number], 0, 2)
}

// The fields of the answer whose words start at b: transaction and dependence, both attempts ("both after the dependence", 02, L2), place, count and
// at most eight numbers.
pub(crate) fn put_told(buffer: &mut [u8], at: usize, room: &[u32], b: usize) -> usize
    requires { (at < 4294967298) × (b < 68719476736) }
    ensures value { result ≡ at + length (told_from room.now b) }
    ensures buffer_after { buffer.new ≡ sets buffer.old at (told_from room.now b) }
{
    let count = operations::number_at(room, b + 3).min(8);
    let p = put_fields(buffer, at, room, b, 2);
    let q = put_fields(buffer, p, room, b + 12, 2);
    put_fields(buffer, q, room, b + 2, 2 + count as usize)
}

// "then `a` transaction, dependence, place, count and that many numbers for each answer": the one whose 16 words start at 16 * i in the room, with its
// attempts.
pub fn put_a(buffer: &mut [u8], at: u32, room: &[u32], i: u32) -> usize
    ensures value { result ≡ at + length (line_a room.now i) }
    ensures buffer_after { buffer.new ≡ sets buffer.old at (line_a room.now i) }
{
    let start = at as usize;
    operations::put_at(buffer, start, b'a');
    let p = put_told(buffer, start + 1, room, model::ANSWER_WORDS * (i as usize));
    operations::put_at(buffer, p, b'\n');
    p + 1
}

// "and at the end `c` cell and content for each cell"
pub fn put_c(buffer: &mut [u8], at: u32, cell: u32, content: u32) -> usize
    ensures value { result ≡ at + length (line_c cell content) }
    ensures buffer_after { buffer.new ≡ sets buffer.old at (line_c cell content) }
{
    put_line(buffer, at, b'c', &[cell, content], 0, 2)
}

// A text from place `at` on.
pub(crate) fn put_text(buffer: &mut [u8], at: u32, text: &[u8]) -> usize
    requires { length text.now < 1024 }
    ensures value { result ≡ at + length text.now }
    ensures buffer_after { buffer.new ≡ sets buffer.old at text.now }
{
    let start = at as usize;
    for i in 0..text.len() {
        operations::put_at(buffer, start + i, text[i]);
    }
    start + text.len()
}

// "Else it prints `bad trace` alone."
pub fn put_bad(buffer: &mut [u8], at: u32) -> usize
    ensures value { result ≡ at + length bad_trace }
    ensures buffer_after { buffer.new ≡ sets buffer.old at bad_trace }
{
    put_text(buffer, at, b"bad trace\n")
}

// `bad scheme` alone, where the command's word names none.
pub fn put_bad_scheme(buffer: &mut [u8], at: u32) -> usize
    ensures value { result ≡ at + length bad_scheme }
    ensures buffer_after { buffer.new ≡ sets buffer.old at bad_scheme }
{
    put_text(buffer, at, b"bad scheme\n")
}
