// What the trace program of document 01 prints for the word of its command and for the bytes that it read: all of its text, put into a lent
// buffer part by part, since a text may be longer than a buffer. The first word of the command names the scheme, speculation without a word;
// one that names no scheme gets `bad scheme` alone.
#![tactic(auto)]

ghost use Rattle.std.specs.Prelude.{◌+◌, ◌*◌, ◌<◌, ◌≤◌, ◌≡◌, length, take, drop, replicate};
ghost use Rattle.std.proofs.lemmas.List.Edits.{sets};
ghost use Rattle.trace.specs.Text.{bad_trace, bad_scheme};
ghost use Rattle.listing.specs.Chosen.{scheme_of};
ghost use Rattle.listing.specs.Played.{playing, played};
ghost use Rattle.listing.specs.Printed.{answer_lines, event_lines, events_lines, cell_lines, trace_lines, lines_of, together, listing_of, seen, Put};

use model::Scheme;
use record::Record;
use trace::Shape;

// The most bytes of a line, and more.
const LINE: usize = 160;

// A part of the text, shown in a buffer: its bytes from place `from` on, as far as the buffer goes. The text is put up to place `at`.
#[derive(Drop)]
pub(crate) struct Page<'a> {
    buffer: &'a mut [u8],
    from: usize,
    at: u32,
}

impl<'a> Page<'a> {
    // The next byte of the text.
    pub(crate) fn put_byte(&mut self, b: u8)
        requires { self.old.at + 1 < 4294967296 }
        ensures same { self.new.buffer.ghost_name ≡ self.old.buffer.ghost_name }
        ensures from { self.new.from ≡ self.old.from }
        ensures place { self.new.at ≡ self.old.at + 1 }
        ensures bytes { self.new.buffer.now ≡ seen self.old.from self.old.buffer.now self.old.at b }
    {
        let at = self.at as usize;
        if self.from <= at && at - self.from < self.buffer.len() {
            self.buffer[at - self.from] = b;
        }
        self.at += 1;
    }

    // The next part of the text.
    pub(crate) fn put_text(&mut self, text: &[u8])
        requires { self.old.at + length text.now < 4294967296 }
        ensures same { self.new.buffer.ghost_name ≡ self.old.buffer.ghost_name }
        ensures from { self.new.from ≡ self.old.from }
        ensures put { Put self.old.from self.old.buffer.now self.new.buffer.now self.old.at self.new.at
            text.now }
    {
        for b in text {
            self.put_byte(*b);
        }
    }

    // "then `a` transaction, dependence, place, count and that many numbers for each answer", with both attempts: the lines of one call's
    // answers.
    pub(crate) fn put_answers(&mut self, room: &[u32], count: u32)
        requires { self.old.at + 156 * count < 4294967296 }
        ensures same { self.new.buffer.ghost_name ≡ self.old.buffer.ghost_name }
        ensures from { self.new.from ≡ self.old.from }
        ensures put { Put self.old.from self.old.buffer.now self.new.buffer.now self.old.at self.new.at
            (together (answer_lines room.now count)) }
    {
        let mut line = [0; LINE];
        for i in 0..count {
            let n = trace::put_a(&mut line, 0, room, i);
            self.put_text(&line[..n]);
        }
    }

    // "prints `e` position (from 1) and returned number for each event, then `a` .. for each answer"
    pub(crate) fn put_event(&mut self, position: u32, number: u32, answers: u32, room: &[u32])
        requires { self.old.at + 24 + 156 * answers < 4294967296 }
        ensures same { self.new.buffer.ghost_name ≡ self.old.buffer.ghost_name }
        ensures from { self.new.from ≡ self.old.from }
        ensures put { Put self.old.from self.old.buffer.now self.new.buffer.now self.old.at self.new.at
            (together (event_lines position number answers room.now)) }
    {
        let mut line = [0; LINE];
        let n = trace::put_e(&mut line, 0, position, number);
        self.put_text(&line[..n]);
        self.put_answers(room, answers);
    }

    // "and at the end `c` cell and content for each cell"
    pub(crate) fn put_cells(&mut self, cells: &[u32], count: u32)
        requires { self.old.at + 24 * count < 4294967296 }
        ensures same { self.new.buffer.ghost_name ≡ self.old.buffer.ghost_name }
        ensures from { self.new.from ≡ self.old.from }
        ensures put { Put self.old.from self.old.buffer.now self.new.buffer.now self.old.at self.new.at
            (together (cell_lines cells.now count)) }
    {
        let mut line = [0; LINE];
        for i in 0..count {
            let content = operations::number_at(cells, i as usize);
            let n = trace::put_c(&mut line, 0, i, content);
            self.put_text(&line[..n]);
        }
    }

    // The events of a trace by a scheme, in order, each with its lines.
    pub(crate) fn put_events(
        &mut self,
        scheme: Scheme,
        bytes: &[u8],
        shape: Shape,
        start: Record,
        cells: &mut [u32],
        room: &mut [u32],
    )
        requires { (self.old.at ≡ 0) × (shape.first ≤ 4100) × (shape.events ≤ 256) }
        ensures cells_after { cells.new
            ≡ (played scheme bytes.now shape.first shape.events (playing start cells.old room.old)).cells }
        ensures same { self.new.buffer.ghost_name ≡ self.old.buffer.ghost_name }
        ensures from { self.new.from ≡ self.old.from }
        ensures put { Put self.old.from self.old.buffer.now self.new.buffer.now self.old.at self.new.at
            (together (events_lines scheme bytes.now 1 shape.first shape.events (playing start cells.old room.old))) }
    {
        let mut record = start;
        for i in 0..shape.events {
            let event = trace::event_at(bytes, shape.first + model::EVENT_WORDS * i);
            let done = carried::call_by(scheme, record, cells, event, room);
            record = done.next;
            let (number, answers) = match done.answers {
                Ok(n) => (0, n),
                Err(refusal) => (refusal.into(), 0),
            };
            self.put_event(i + 1, number, answers, room);
        }
    }

    // "copies the trace's numbers over them", starts, runs the events, and shows the cells at the end.
    pub(crate) fn put_trace(
        &mut self,
        scheme: Scheme,
        bytes: &[u8],
        shape: Shape,
        cells: &mut [u32],
        room: &mut [u32],
    )
        requires { (self.old.at ≡ 0) × (shape.cells ≤ 4096) × (shape.first ≤ 4100) × (shape.events ≤ 256) }
        ensures same { self.new.buffer.ghost_name ≡ self.old.buffer.ghost_name }
        ensures from { self.new.from ≡ self.old.from }
        ensures put { Put self.old.from self.old.buffer.now self.new.buffer.now self.old.at self.new.at
            (together (trace_lines scheme bytes.now shape cells.old room.old)) }
    {
        trace::copy_cells(bytes, shape.cells, cells);
        let start = record::start(shape.cells).next;
        self.put_events(scheme, bytes, shape, start, cells, room);
        self.put_cells(cells, shape.cells);
    }

    // "It starts from cells cleared to 0": as many as the trace has are lent, with an answer room.
    pub(crate) fn put_run(&mut self, scheme: Scheme, bytes: &[u8], shape: Shape)
        requires { (self.old.at ≡ 0) × (shape.cells ≤ 4096) × (shape.first ≤ 4100) × (shape.events ≤ 256) }
        ensures same { self.new.buffer.ghost_name ≡ self.old.buffer.ghost_name }
        ensures from { self.new.from ≡ self.old.from }
        ensures put { Put self.old.from self.old.buffer.now self.new.buffer.now self.old.at self.new.at
            (together (trace_lines scheme bytes.now shape (replicate shape.cells 0) (replicate 1024 0))) }
    {
        let mut cells = [0u32; 4096];
        let mut room = [0u32; 1024];
        let n = shape.cells as usize;
        self.put_trace(scheme, bytes, shape, &mut cells[..n], &mut room);
    }

    // All lines for what was read, by a scheme. "Else it prints `bad trace` alone."
    pub(crate) fn put_lines(&mut self, scheme: Scheme, bytes: &[u8])
        requires { self.old.at ≡ 0 }
        ensures same { self.new.buffer.ghost_name ≡ self.old.buffer.ghost_name }
        ensures from { self.new.from ≡ self.old.from }
        ensures put { Put self.old.from self.old.buffer.now self.new.buffer.now self.old.at self.new.at
            (together (lines_of scheme bytes.now)) }
    {
        match trace::shape_of(bytes) {
            Some(shape) => self.put_run(scheme, bytes, shape),
            None => {
                let mut line = [0; LINE];
                let n = trace::put_bad(&mut line, 0);
                self.put_text(&line[..n]);
            }
        }
    }

    // All lines, by what the command's word chooses.
    pub(crate) fn put_all(&mut self, word: &[u8], bytes: &[u8])
        requires { self.old.at ≡ 0 }
        ensures same { self.new.buffer.ghost_name ≡ self.old.buffer.ghost_name }
        ensures from { self.new.from ≡ self.old.from }
        ensures put { Put self.old.from self.old.buffer.now self.new.buffer.now self.old.at self.new.at
            (listing_of word.now bytes.now) }
    {
        match scheme_of(word) {
            Some(scheme) => self.put_lines(scheme, bytes),
            None => {
                let mut line = [0; LINE];
                let n = trace::put_bad_scheme(&mut line, 0);
                self.put_text(&line[..n]);
            }
        }
    }
}

// The scheme that a word names: no word is document 01's scheme.
pub(crate) fn scheme_of(word: &[u8]) -> Option<Scheme>
    ensures { result ≡ scheme_of word.now }
{
    // A `match` on the words leaves an answer for each of their bytes.
    if word.is_empty() || word == b"speculation".as_slice() {
        Some(Scheme::Speculation)
    } else if word == b"blocking".as_slice() {
        Some(Scheme::Blocking)
    } else {
        None
    }
}

// All that is printed for the command's word and for what was read: from byte `from` on into the buffer, as far as that goes, and the length
// of the whole.
pub fn put_listing(word: &[u8], bytes: &[u8], from: usize, buffer: &mut [u8]) -> usize
    ensures value { result ≡ length (listing_of word.now bytes.now) }
    ensures buffer_after { buffer.new ≡ sets buffer.old 0 (drop from (listing_of word.now bytes.now)) }
{
    let mut page = Page {
        buffer,
        from,
        at: 0,
    };
    page.put_all(word, bytes);
    page.at as usize
}
