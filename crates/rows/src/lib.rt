// The words of an answer and of a run, and what the steps read off rows. Each public function answers for every input.
#![tactic(auto)]

ghost use Rattle.std.specs.Prelude.{◌≡◌, ◌+◌, ◌*◌, min, [], get_or};
ghost use Rattle.record.specs.Widths.{run_width};
ghost use Rattle.model.specs.Steps.{run};
ghost use Rattle.operations.specs.Laid.{told};
ghost use Rattle.record.specs.View.{fragment_at, numbers_from};
ghost use Rattle.rows.specs.Rows.{placement_row, raised_row, raised_rows, trial_at, first_trial, no_trial, trial_or_none, told_row, run_by, state_number, state_word_after, begun_row, same_row, one_rows, nearer_row, nearest_rows, answered_now, may_take_row, holds_row, held_row, held_told, sent_row, again_row};
ghost use Rattle.std.proofs.lemmas.List.Edits.{sets};
ghost use Rattle.model.specs.Operations.{multi, pick};

use model::{Fragment, Scheme};
use operations::{Ran, Told};
use record::State;

// The words of an answer, as a number of a place in the room.
pub const ANSWER_WIDTH: u32 = model::ANSWER_WORDS as u32;

// A transaction in one of its attempts: an answer names its own and the one that it depends on so (02, L2).
#[derive(Clone, Copy)]
pub struct Trial {
    pub number: u32,
    pub attempt: u32,
}

// Word k of the row that starts at a place.
pub(crate) fn word_at(row: &[u32], at: usize, k: usize) -> u32
    ensures { result ≡ get_or row.now (at + k) 0 }
{
    operations::number_at(row, at.saturating_add(k))
}

// The transaction whose row of the live row starts at a place, in its attempt.
pub fn trial_at(live: &[u32], at: usize) -> Trial
    ensures { result ≡ trial_at live.now at }
{
    Trial {
        number: operations::number_at(live, at),
        attempt: word_at(live, at, record::OPS_END),
    }
}

// The words of an answer of `own` with a dependence on `near`: of none both numbers are 0.
pub(crate) fn answer_row(own: Trial, near: Option<Trial>, t: Told) -> [u32; model::ANSWER_WORDS]
    ensures { result ≡ told_row own (trial_or_none near) t }
{
    let near = near.unwrap_or(Trial {
        number: 0,
        attempt: 0,
    });
    let n = t.numbers;
    [
        own.number,
        near.number,
        t.place,
        t.count,
        n[0],
        n[1],
        n[2],
        n[3],
        n[4],
        n[5],
        n[6],
        n[7],
        own.attempt,
        near.attempt,
        0,
        0,
    ]
}

// The state after a fragment: "finished locally when its last fragment has run or when it has failed".
pub(crate) fn state_after(last: bool, place: u32) -> State
    ensures { state_number result ≡ state_word_after last place }
{
    if place != 0 {
        State::Failed
    } else if last {
        State::Finished
    } else {
        State::Running
    }
}

// A run: how many fragments ran, the word of the state, how many entries it owns, and the answer that it holds, none where that was sent. The state
// stays a word, which `mark_sent` passes on whatever it stands for (`sent_row`).
#[derive(Clone, Copy)]
pub(crate) struct Run {
    pub ran: u32,
    pub state: u32,
    pub entries: u32,
    pub held: Option<Told>,
}

impl Run {
    // Its words: 1 where it holds its answer, and 0 with no answer's words where that was sent.
    pub(crate) fn words(self) -> [u32; record::RUN_WORDS]
        ensures { result ≡ run_by self }
    {
        let reply = self.held.is_some() as u32;
        let t = self.held.unwrap_or(Told {
            place: 0,
            count: 0,
            numbers: [0; 8],
        });
        let n = t.numbers;
        [
            self.ran,
            self.state,
            reply,
            self.entries,
            t.place,
            t.count,
            n[0],
            n[1],
            n[2],
            n[3],
            n[4],
            n[5],
            n[6],
            n[7],
            0,
            0,
        ]
    }

    // Lays them into the row of runs, from a place on.
    pub(crate) fn put(self, runs: &mut [u32], at: u32)
        ensures { runs.new ≡ sets runs.old at (run_by self) }
    {
        record::lay(runs, at, &self.words(), record::RUN_WIDTH);
    }
}

// A row of the live row that is a single's, or has coordinator k.
pub fn same_coordinator(live: &[u32], at: usize, k: u32) -> bool
    ensures { result ≡ same_row live.now at k }
{
    !record::is_multi_at(live, at) || word_at(live, at, 2) == k
}

// "all uncommitted multis .. have one coordinator (singles do not count)": k, over n rows of the live row from place b on.
pub(crate) fn one_coordinator(live: &[u32], b: u32, n: u32, k: u32) -> bool
    ensures { result ≡ one_rows live.now b n k }
{
    (0..n).all(|i| same_coordinator(live, b as usize + record::LIVE_WORDS * i as usize, k))
}

// The transaction of a row that is a multi's, d for a single's.
pub fn nearer(live: &[u32], at: usize, d: Option<Trial>) -> Option<Trial>
    ensures { result ≡ nearer_row live.now at d }
{
    if record::is_multi_at(live, at) {
        Some(trial_at(live, at))
    } else {
        d
    }
}

// "the nearest multi ahead of it": the last multi of n rows, none where there is none.
pub(crate) fn nearest_multi(live: &[u32], b: u32, n: u32) -> Option<Trial>
    ensures { result ≡ nearest_rows None live.now b n }
{
    let mut near = None;
    for i in 0..n {
        near = nearer(live, b as usize + record::LIVE_WORDS * i as usize, near);
    }
    near
}

// One attempt more of a row of the live row; a row that is not all there stays.
pub(crate) fn raise_at(live: &mut [u32], at: usize)
    ensures { live.new ≡ raised_row live.old at }
{
    let place = at.saturating_add(record::OPS_END);
    if place < live.len() {
        live[place] = live[place].saturating_add(1);
    }
}

// "one more after each undoing" (02, L2): of each of n rows of the live row from place b on.
pub fn raise_attempts(live: &mut [u32], b: u32, n: u32)
    ensures { live.new ≡ raised_rows live.old b n }
{
    for i in 0..n {
        raise_at(live, b as usize + record::LIVE_WORDS * i as usize);
    }
}

// Is fragment f's transaction answered now, behind n uncommitted ones: with nothing uncommitted, or a multi with one coordinator. No row is read for
// a single.
pub(crate) fn is_answered(live: &[u32], b: u32, n: u32, f: Fragment) -> bool
    ensures { result ≡ answered_now n (multi f) (one_rows live.now b n f.coordinator) }
{
    n == 0 || (operations::is_multi(f) && one_coordinator(live, b, n, f.coordinator))
}

// What the drain does with the answer of one that ran: it is held, or sent now with the multi that it depends on, if there is one. Two options in one
// another would not say which is which.
#[derive(Clone, Copy)]
pub enum Reply {
    Held,
    Sent(Option<Trial>),
}

// Where the drain places one that ran: what it does with its answer, and does it join the uncommitted ones.
#[derive(Clone, Copy)]
pub struct Placement {
    pub reply: Reply,
    pub joins: bool,
}

// The same for fragment f, behind n uncommitted ones whose rows start at place b: all but a single with nothing uncommitted join.
pub fn place_ran(live: &[u32], b: u32, n: u32, f: Fragment) -> Placement
    ensures { result ≡ placement_row live.now b n f }
{
    let reply = if is_answered(live, b, n, f) {
        Reply::Sent(nearest_multi(live, b, n))
    } else {
        Reply::Held
    };
    Placement {
        reply,
        joins: n != 0 || operations::is_multi(f),
    }
}

// "either nothing is uncommitted or fewer than 16 are and the last of them is finished locally"; blocking, nothing is uncommitted
pub fn may_take(scheme: Scheme, runs: &[u32], uncommitted: u32) -> bool
    ensures { result ≡ may_take_row scheme runs.now uncommitted }
{
    if uncommitted == 0 {
        return true;
    }
    if matches!(scheme, Scheme::Blocking) || model::DEPTH <= uncommitted {
        return false;
    }
    let state = operations::number_at(
        runs,
        record::RUN_WORDS * (uncommitted as usize - 1) + record::RUN_STATE,
    );
    record::is_finished(state)
}

// Lays an answer into the room, from a place on. Inlined, so that its words go from where they are made into the room.
#[inline(always)]
pub fn put_answer(room: &mut [u32], at: u32, own: Trial, near: Option<Trial>, t: Told)
    ensures { room.new ≡ sets room.old at (told_row own (trial_or_none near) t) }
{
    let w = answer_row(own, near, t);
    record::lay(room, at, &w, ANSWER_WIDTH);
}

// A single that nothing is ahead of, its row's words from place b on: it runs where they stand, and is answered at the room's start, in its
// first attempt. Nobody keeps its entries.
pub fn run_alone(cells: &mut [u32], words: &[u32], b: u32, room: &mut [u32])
    ensures cells_after { cells.new ≡ (run (fragment_at words.now b) cells.old []).cells }
    ensures room_after { room.new ≡ sets room.old 0
        (told_row (first_trial words.now b) no_trial (told (run (fragment_at words.now b) cells.old []))) }
{
    let own = Trial {
        number: operations::number_at(words, b as usize),
        attempt: 1,
    };
    let t = operations::run_words(cells, words, b);
    put_answer(room, 0, own, None, t);
}

// The answer that run number i holds.
pub(crate) fn held_at(runs: &[u32], i: u32) -> Option<Told>
    ensures { result ≡ pick (holds_row runs.now (run_width * i)) (Some (held_told runs.now (run_width * i))) None }
{
    let b = record::RUN_WORDS * i as usize;
    if operations::number_at(runs, b + record::RUN_REPLY) != record::HELD {
        return None;
    }
    // no `array::from_fn`: it ensures a chain of calls, from which the proof of the numbers did not close
    let mut numbers = [0; 8];
    for k in 0..8 {
        numbers[k] = operations::number_at(runs, b + record::RUN_NUMBERS + k);
    }
    Some(Told {
        place: operations::number_at(runs, b + record::RUN_PLACE),
        count: operations::number_at(runs, b + record::RUN_COUNT),
        numbers,
    })
}

// Lays the answer that run number i holds into the room, from a place on, with a dependence; whether it holds one.
pub fn put_held(
    room: &mut [u32],
    at: u32,
    runs: &[u32],
    i: u32,
    own: Trial,
    near: Option<Trial>,
) -> bool
    ensures value { result ≡ holds_row runs.now (run_width * i) }
    ensures room_after { room.new ≡ pick (holds_row runs.now (run_width * i))
        (sets room.old at (held_row runs.now (run_width * i) own (trial_or_none near))) room.old }
{
    let Some(t) = held_at(runs, i) else {
        return false;
    };
    put_answer(room, at, own, near, t);
    true
}

// Lays the run of one that ran its first fragment, from a place on.
pub fn put_run(runs: &mut [u32], at: u32, held: bool, last: bool, r: Ran)
    ensures { runs.new ≡ sets runs.old at (begun_row held last r) }
{
    let begun = Run {
        ran: 1,
        state: state_after(last, r.told.place) as u32,
        entries: r.entries,
        held: if held { Some(r.told) } else { None },
    };
    begun.put(runs, at);
}

// Lays the undo entries of a run, from a place on: it has at most one for each operation.
pub fn put_entries(undo: &mut [u32], at: u32, r: Ran)
    ensures { undo.new ≡ sets undo.old at (numbers_from r.undo 0 (2 * min r.entries 8)) }
{
    record::lay(undo, at, &r.undo, record::ENTRY_WIDTH * r.entries.min(8));
}

// The run at a place says that its answer was sent.
pub fn mark_sent(runs: &mut [u32], at: u32)
    ensures { runs.new ≡ sets runs.old at (sent_row runs.old at) }
{
    let b = at as usize;
    let sent = Run {
        ran: operations::number_at(runs, b),
        state: operations::number_at(runs, b + record::RUN_STATE),
        entries: operations::number_at(runs, b + record::RUN_ENTRIES),
        held: None,
    };
    sent.put(runs, at);
}

// The run of the front after one more fragment, answered at once.
pub fn run_again(runs: &mut [u32], f: Fragment, place: u32, entries: u32)
    ensures { runs.new ≡ sets runs.old 0 (again_row runs.old f place entries) }
{
    let again = Run {
        ran: operations::number_at(runs, 0).min(7) + 1,
        state: state_after(operations::is_last(f), place) as u32,
        entries,
        held: None,
    };
    again.put(runs, 0);
}
