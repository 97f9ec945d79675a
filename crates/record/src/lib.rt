// The engine's record by value, every field a 32-bit number, what is read off its rows and laid into them, and starting.
#![tactic(auto)]

ghost use Rattle.record.specs.Widths.{ops_end, live_width};
ghost use Rattle.std.specs.Fn.{FnOnceReturnsAt};
ghost use Rattle.std.specs.Prelude.{◌≡◌, ◌+◌, ◌*◌, ◌-◌, ◌<◌, ◌≤◌, min, length, get_or};
ghost use Rattle.std.proofs.lemmas.List.Edits.{sets};
ghost use Rattle.model.specs.Refusals as Refusals;
ghost use Rattle.model.specs.Transactions.{finished};
ghost use Rattle.record.specs.Words.{row_words, pack};
ghost use Rattle.record.specs.Events.{event_of, words_of};
ghost use Rattle.record.specs.Start.{fresh_of};
ghost use Rattle.record.specs.View.{op_at, fragment_at, attempt_at, multi_at, entries_from, numbers_from, shifted, state_of};
ghost use Rattle.record.specs.Ends.{capped, ends_at, largest_at, largest_by};

use model::{Event, Fragment, Kind, Op};

// The layout, in one place: the words of a live transaction, of a run and of an undo entry, as indices and as numbers of a record, and the
// words of the record's rows, for 64 live ones, 16 uncommitted ones and 184 entries.
pub const LIVE_WORDS: usize = 29;

pub const RUN_WORDS: usize = 16;

pub const LIVE_WIDTH: u32 = LIVE_WORDS as u32;

// where the operations of a live transaction's row begin and end
pub const OPS_START: usize = 4;

pub const OPS_END: usize = 28;

pub const RUN_WIDTH: u32 = RUN_WORDS as u32;

// the places of a run's words behind how many fragments ran: state, reply, how many undo entries are its own, and of a held answer the place, how
// many numbers and where these begin
pub const RUN_STATE: usize = 1;

pub const RUN_REPLY: usize = 2;

pub const RUN_ENTRIES: usize = 3;

pub const RUN_PLACE: usize = 4;

pub const RUN_COUNT: usize = 5;

pub const RUN_NUMBERS: usize = 6;

// what stands for a reply: sent, or held with the answer behind it
pub const SENT: u32 = 0;

pub const HELD: u32 = 1;

pub const ENTRY_WIDTH: u32 = 2;

pub const LIVE_LENGTH: usize = 1856;

pub const RUNS_LENGTH: usize = 256;

pub const UNDO_LENGTH: usize = 368;

// The record's counts, by value: "cell count, largest number accepted", and how many of the live ones are uncommitted and waiting.
#[repr(C)]
#[derive(Clone, Copy)]
pub struct Counts {
    pub cells: u32,
    pub largest: u32,
    pub uncommitted: u32,
    pub waiting: u32,
}

// How the queues' ends move. The live ones stand in one row in number order, so that no row moves with them.
impl Counts {
    // an event is accepted: a fragment with a new number is the largest accepted then; of any word for a kind, as `largest_by` has it
    pub fn accepts(self, kind: u32, number: u32) -> Counts
        ensures { result ≡ largest_at self (largest_by kind number self.largest) }
    {
        if kind != Kind::Fragment as u32 {
            return self;
        }
        Counts {
            largest: self.largest.max(number),
            ..self
        }
    }

    // "join the end of the waiting queue"
    pub fn waits(self) -> Counts
        ensures { result ≡ ends_at self self.uncommitted (capped (self.waiting + 1)) }
    {
        Counts {
            waiting: self.waiting.saturating_add(1),
            ..self
        }
    }

    // "take the first waiting one": it is the last uncommitted one then
    pub fn joins(self) -> Counts
        ensures { result ≡ ends_at self (capped (self.uncommitted + 1)) (self.waiting - 1) }
    {
        Counts {
            uncommitted: self.uncommitted.saturating_add(1),
            waiting: self.waiting.saturating_sub(1),
            ..self
        }
    }

    // the first uncommitted one "settles", or "is gone"
    pub fn leaves(self) -> Counts
        ensures { result ≡ ends_at self (self.uncommitted - 1) self.waiting }
    {
        Counts {
            uncommitted: self.uncommitted.saturating_sub(1),
            ..self
        }
    }

    // "return to the head of the waiting queue in their old order": the boundary between the queues moves back
    pub fn requeues(self) -> Counts
        ensures { result ≡ ends_at self 0 (capped (self.uncommitted + self.waiting)) }
    {
        Counts {
            uncommitted: 0,
            waiting: self.uncommitted.saturating_add(self.waiting),
            ..self
        }
    }
}

// "cell count, largest number accepted, uncommitted queue (at most 16), waiting queue, undo list": the live transactions stand in one row in
// number order, the uncommitted ones first; beside each of those a run; the undo entries of all of them in queue order, oldest first. Any words are a
// record: which of them are sound is asked by each call. Rows of a fixed length with counts beside them, since nothing is allocated and C lays out
// the same.
#[repr(C)]
#[derive(Clone, Copy)]
pub struct Record {
    pub counts: Counts,
    pub live: [u32; LIVE_LENGTH],
    pub runs: [u32; RUNS_LENGTH],
    pub undo: [u32; UNDO_LENGTH],
}

// What starting returns: the number and the record. No `Result`: a refused start too returns a record, the one with 0 cells (`fresh_of`,
// `start_unique`).
#[derive(Clone, Copy)]
pub struct Fresh {
    pub number: u32,
    pub next: Record,
}

// The N words from a place on, 0 past the row's end.
pub(crate) fn copied<const N: usize>(row: &[u32], at: usize) -> [u32; N]
    ensures { result ≡ numbers_from row.now at N }
{
    let mut words = [0u32; N];
    let there = &row[row.len().min(at)..];
    let n = there.len().min(N);
    words[..n].copy_from_slice(&there[..n]);
    words
}

// The 29 words from a place on, 0 past the row's end.
pub fn words_from(row: &[u32], at: usize) -> [u32; LIVE_WORDS]
    ensures { result ≡ numbers_from row.now at live_width }
{
    copied(row, at)
}

// What f makes of the 28 words from place b on, a live transaction's but for its attempt: of those that stand there where none would stand past the
// row's end, else of a copy.
pub(crate) fn on_words<R, F: FnOnce(&[u32; OPS_END]) -> R>(row: &[u32], b: u32, f: F) -> R
    requires { F.IsAlwaysCallable f }
    ensures { FnOnceReturnsAt F.FnOnce f (numbers_from row.now b ops_end) result }
{
    let at = b as usize;
    if at + OPS_END <= row.len() {
        if let Some(words) = row[at..at + OPS_END].first_chunk() {
            return f(words);
        }
    }
    f(&copied(row, at))
}

// How far the fragments of an uncommitted one have come, in the order of the words that stand for it in a run.
#[derive(Clone, Copy, Debug, PartialEq, Eq)]
pub enum State {
    Running,
    Finished,
    Failed,
}

// The word of a state that is finished, failed or not.
pub fn is_finished(word: u32) -> bool
    ensures { result ≡ finished (state_of word) }
{
    word == State::Finished as u32 || word == State::Failed as u32
}

// The operation whose words start at place b of 28.
pub(crate) fn op_in(words: &[u32; OPS_END], b: usize) -> Op
    requires { b + 3 ≤ ops_end }
    ensures { result ≡ op_at words.now b }
{
    Op {
        code: words[b],
        cell: words[b + 1],
        amount: words[b + 2],
    }
}

// The fragment that 28 words are. Its operations are named one by one: with `map` over their places no index in the closure is proved below 28.
#[tactic(auto, unfolding(crate::specs::View::fragment_at))]
pub(crate) fn fragment_in(words: &[u32; OPS_END]) -> Fragment
    ensures { result ≡ fragment_at words.now 0 }
{
    Fragment {
        flags: words[1],
        coordinator: words[2],
        count: words[3],
        row: [
            op_in(words, 4),
            op_in(words, 7),
            op_in(words, 10),
            op_in(words, 13),
            op_in(words, 16),
            op_in(words, 19),
            op_in(words, 22),
            op_in(words, 25),
        ],
    }
}

// The fragment of the transaction whose words start at b, its operations as a row of eight by value.
pub fn fragment_at(row: &[u32], b: u32) -> Fragment
    ensures { result ≡ fragment_at row.now b }
{
    on_words(row, b, |words| fragment_in(words))
}

// The attempt of the transaction whose words start at b: the word behind its operations.
pub fn attempt_at(row: &[u32], b: u32) -> u32
    ensures { result ≡ attempt_at row.now b }
{
    operations::number_at(row, b as usize + OPS_END)
}

// Whether the transaction whose words start at a place is a multi: a live one's in its row, or an event's behind its kind.
pub fn is_multi_at(row: &[u32], at: usize) -> bool
    ensures { result ≡ multi_at row.now at }
{
    operations::number_at(row, at.saturating_add(1)) % 2 == 1
}

// How many undo entries the first n runs own together.
pub fn entries_owned(runs: &[u32], n: u32) -> usize
    ensures { result ≡ entries_from runs.now 0 n }
{
    let mut sum = 0;
    for i in 0..n as usize {
        sum += operations::number_at(runs, RUN_WORDS * i + RUN_ENTRIES) as usize;
    }
    sum
}

// The 29 words of a live transaction. They are named one by one: made from their place alone (`from_fn`) each would choose among eight fields.
pub fn row_words(number: u32, attempt: u32, f: Fragment) -> [u32; LIVE_WORDS]
    ensures { result ≡ row_words number attempt f }
{
    let [a, b, c, d, e, g, h, i] = f.row;
    [
        number,
        f.flags,
        f.coordinator,
        f.count,
        a.code,
        a.cell,
        a.amount,
        b.code,
        b.cell,
        b.amount,
        c.code,
        c.cell,
        c.amount,
        d.code,
        d.cell,
        d.amount,
        e.code,
        e.cell,
        e.amount,
        g.code,
        g.cell,
        g.amount,
        h.code,
        h.cell,
        h.amount,
        i.code,
        i.cell,
        i.amount,
        attempt,
    ]
}

// The event that words stand for: 29 of them, or one that is not well formed.
#[tactic(auto, unfolding(crate::specs::Events::event_of))]
pub fn event_of(words: &[u32]) -> Event
    ensures { result ≡ event_of words.now }
{
    let well_formed = words.len() == model::EVENT_WORDS as usize;
    Event {
        kind: if well_formed {
            operations::number_at(words, 0)
        } else {
            0
        },
        number: operations::number_at(words, 1),
        fragment: fragment_at(words, 1),
    }
}

// The 29 words that stand for an event: its kind, and a live transaction's row but for the attempt.
pub fn event_words(v: Event) -> [u32; model::EVENT_WORDS as usize]
    ensures { result ≡ words_of v }
{
    let mut words = row_words(v.number, 0, v.fragment);
    words.copy_within(..OPS_END, 1);
    words[0] = v.kind;
    words
}

// Lays the first n words into a row from place `at` on; what would stand past its end is not kept. Two ways, since n is known at most calls: where all
// are there this is a copy of n words, else a loop that unrolls, and the compiler keeps the words out of memory. A copy clipped to what is there
// would be one way for both, and made a drained transaction slower by a fifth.
pub fn lay(row: &mut [u32], at: u32, words: &[u32], n: u32)
    ensures { row.new ≡ sets row.old at (numbers_from words.now 0 n) }
{
    let start = at as usize;
    let count = n as usize;
    if count <= words.len() && start + count <= row.len() {
        row[start..start + count].copy_from_slice(&words[..count]);
        return;
    }
    for i in 0..count {
        operations::put_at(row, start + i, operations::number_at(words, i));
    }
}

// Moves the first m words of a row k places to its start; the places that they leave are cleared.
pub fn shift(row: &mut [u32], k: u32, m: u32)
    ensures { row.new ≡ shifted row.old k m }
{
    // most calls move nothing
    if k == 0 {
        return;
    }
    let from = k as usize;
    let stop = row.len().min(m as usize);
    let n = stop.saturating_sub(from);
    row.copy_within(from.min(stop)..stop, 0);
    row[n..stop].fill(0);
}

// A record of so many cells with nothing live.
pub(crate) fn empty(count: u32) -> Record
    ensures { result ≡ pack (Refusals.empty count) }
{
    Record {
        counts: Counts {
            cells: count,
            largest: 0,
            uncommitted: 0,
            waiting: 0,
        },
        live: [0u32; LIVE_LENGTH],
        runs: [0u32; RUNS_LENGTH],
        undo: [0u32; UNDO_LENGTH],
    }
}

// "Starting with 0 or above 4,096 cells returns 3 and a record with 0 cells".
pub fn start(count: u32) -> Fresh
    ensures { result ≡ fresh_of count }
{
    if count == 0 || model::MOST_CELLS < count {
        return Fresh {
            number: 3,
            next: empty(0),
        };
    }
    Fresh {
        number: 0,
        next: empty(count),
    }
}
