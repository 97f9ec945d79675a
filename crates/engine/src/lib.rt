// The engine of one partition: a call by a scheme on a lent record, `call_lent`.
#![tactic(auto)]

ghost use Rattle.record.specs.Widths.{live_width};
ghost use Rattle.std.specs.Prelude.{◌≡◌, ℕ, ◌+◌, ◌*◌, ◌≤◌, ◌&&◌, [], eqb, length, get_or};
ghost use Rattle.std.proofs.lemmas.List.Edits.{sets};
ghost use Rattle.model.specs.Refusals.{refusal};
ghost use Rattle.model.specs.declared.Scheme.{Scheme};
ghost use Rattle.record.specs.Words.{row_words};
ghost use Rattle.model.specs.Steps.{run};
ghost use Rattle.operations.specs.Laid.{told};
ghost use Rattle.rows.specs.Rows.{first_trial, no_trial, told_row};
ghost use Rattle.record.specs.View.{fragment_at, view};
ghost use Rattle.record.specs.Events.{event_of};
ghost use Rattle.refusals.specs.Rest.{call_of};
ghost use Rattle.engine.specs.Work.{Same, waiting_more};
ghost use Rattle.engine.specs.Called.{Leaves, told_by, settled_alone};
ghost use Rattle.engine.specs.Ready.{Accepts, Entered};

use crate::course::Course;
use model::{Event, Fragment, Kind, Scheme};
use record::{Counts, Record};
use refusals::Refusal;

mod abort;
mod course;
mod drain;
mod front;
mod settle;

// The steps take the record's rows one by one: one that a step only reads it takes by `&`, so that no clause has to say that the row stays.

// "Arrival, new number: join the end of the waiting queue".
pub(crate) fn join_waiting(live: &mut [u32], c: Course, number: u32, f: Fragment) -> Course
    requires { c.first + c.counts.uncommitted + c.counts.waiting ≤ 64 }
    ensures value { result ≡ waiting_more c }
    ensures live_after { live.new
        ≡ sets live.old (live_width * (c.first + c.counts.uncommitted + c.counts.waiting)) (row_words number 1 f) }
{
    record::lay(
        live,
        record::LIVE_WIDTH * (c.first + c.counts.uncommitted + c.counts.waiting),
        &record::row_words(number, 1, f),
        record::LIVE_WIDTH,
    );
    c.waits()
}

// An accepted fragment: the front's, or a new one that waits; the drain is still to come.
pub(crate) fn arrive(
    live: &mut [u32],
    runs: &mut [u32],
    undo: &mut [u32],
    cells: &mut [u32],
    room: &mut [u32],
    c: Course,
    event: Event,
) -> Course
    requires accepts { (σ : Scheme) × Accepts σ live.old runs.old undo.old room.old cells.old c event }
    requires kind_value { event.kind ≡ 1 }
    ensures entered { (σ : Scheme) → Entered σ live.old runs.old undo.old room.old cells.old c event
        live.new runs.new undo.new room.new cells.new result }
    ensures same { Same c result }
{
    if refusals::is_front(c.counts.uncommitted, live, event.number) {
        front::continue_front(live, runs, undo, cells, room, c, event.fragment)
    } else {
        join_waiting(live, c, event.number, event.fragment)
    }
}

// An accepted event's step; the drain is still to come.
pub(crate) fn enter(
    live: &mut [u32],
    runs: &mut [u32],
    undo: &mut [u32],
    cells: &mut [u32],
    room: &mut [u32],
    c: Course,
    event: Event,
) -> Course
    requires { (σ : Scheme) × Accepts σ live.old runs.old undo.old room.old cells.old c event }
    ensures entered { (σ : Scheme) → Entered σ live.old runs.old undo.old room.old cells.old c event
        live.new runs.new undo.new room.new cells.new result }
    ensures same { Same c result }
{
    match Kind::try_from(event.kind) {
        Ok(Kind::Fragment) => arrive(live, runs, undo, cells, room, c, event),
        Ok(Kind::Commit) => settle::commit(live, runs, undo, room, c),
        // an accepted event has no other kind
        _ => abort::abort(live, runs, undo, cells, c),
    }
}

// An accepted call, carried out where the rows stand: the event's step, the drain, and the rows of those that are gone closed up. Returns the
// count of answers.
pub(crate) fn carry_out(
    scheme: Scheme,
    r: &mut Record,
    cells: &mut [u32],
    event: Event,
    room: &mut [u32],
) -> u32
    requires { refusal (view r.old) (call_of scheme event cells.old room.old) ≡ 0 }
    ensures { Leaves scheme r.old event cells.old room.old (told_by (Ok result) r.new) cells.new room.new }
{
    let entries = tidy::tidy(&mut r.runs, r.counts.uncommitted);
    let c = Course {
        counts: r.counts.accepts(event.kind, event.number),
        first: 0,
        entries,
        answers: 0,
    };
    let e = enter(&mut r.live, &mut r.runs, &mut r.undo, cells, room, c, event);
    // "then drain"
    let d = drain::drain(
        scheme,
        &mut r.live,
        &mut r.runs,
        &mut r.undo,
        cells,
        room,
        e,
    );
    record::shift(
        &mut r.live,
        record::LIVE_WIDTH * d.first,
        record::LIVE_WIDTH * (d.first + d.counts.uncommitted + d.counts.waiting),
    );
    r.counts = d.counts;
    d.answers
}

// Does an accepted event bring a single that meets nothing live?
pub(crate) fn is_alone(counts: Counts, event: &[u32]) -> bool
    ensures { result ≡ (eqb counts.uncommitted 0 && (eqb counts.waiting 0 && eqb (get_or event.now 2 0) 2)) }
{
    // its flags: no multi, and its last fragment
    counts.uncommitted == 0 && counts.waiting == 0 && operations::number_at(event, 2) == 2
}

// A single that meets nothing live runs from its words, is answered and settles: of the record only the largest number moves, and the place that it takes
// and leaves is cleared. Returns the count of answers.
pub(crate) fn settle_alone(
    r: &mut Record,
    cells: &mut [u32],
    event: &[u32],
    room: &mut [u32],
) -> u32
    ensures value { told_by (Ok result) r.new ≡ settled_alone r.old (get_or event.now 1 0) }
    ensures cells_after { cells.new ≡ (run (fragment_at event.now 1) cells.old []).cells }
    ensures room_after { room.new ≡ sets room.old 0
        (told_row (first_trial event.now 1) no_trial (told (run (fragment_at event.now 1) cells.old []))) }
{
    rows::run_alone(cells, event, 1, room);
    record::shift(&mut r.live, record::LIVE_WIDTH, record::LIVE_WIDTH);
    r.counts = r.counts.accepts(1, operations::number_at(event, 1));
    1
}

// A call on a lent record: refused with nothing touched, or carried out. Returns the count of answers.
pub fn call_lent(
    scheme: Scheme,
    r: &mut Record,
    cells: &mut [u32],
    event: &[u32],
    room: &mut [u32],
) -> Result<u32, Refusal>
    ensures { Leaves scheme r.old (event_of event.now) cells.old room.old
        (told_by result r.new) cells.new room.new }
{
    refusals::refused(r.counts, &r.live, &r.runs, &r.undo, cells, room, event)?;
    if is_alone(r.counts, event) {
        return Ok(settle_alone(r, cells, event, room));
    }
    Ok(carry_out(scheme, r, cells, record::event_of(event), room))
}
