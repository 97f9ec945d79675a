// "Drain": take the first waiting one while the scheme may, run it, and place it.
ghost use Rattle.record.specs.Widths.{run_width};
ghost use Rattle.std.specs.Prelude.{◌≡◌, ◌+◌, ◌*◌, ◌≤◌, ◌<◌};
ghost use Rattle.std.proofs.lemmas.List.Edits.{sets};
ghost use Rattle.engine.specs.Work.{Kept, Small, joined_by, Took, Drained};
ghost use Rattle.rows.specs.Rows.{begun_row};
ghost use Rattle.record.specs.View.{numbers_from};

use crate::course::Course;
use model::Scheme;
use operations::Ran;
use rows::Reply;

// The one that ran joins the uncommitted ones, its run and its own entries behind the others'.
pub(crate) fn join(
    runs: &mut [u32],
    undo: &mut [u32],
    c: Course,
    held: bool,
    last: bool,
    r: Ran,
) -> Course
    requires { (c.entries ≤ 184) × (0 < c.counts.waiting) × (c.counts.uncommitted < 16) × (r.entries ≤ 8) }
    ensures value { result ≡ joined_by c r }
    ensures runs_after { runs.new ≡ sets runs.old (run_width * c.counts.uncommitted) (begun_row held last r) }
    ensures undo_after { undo.new ≡ sets undo.old (2 * c.entries) (numbers_from r.undo 0 (2 * r.entries)) }
{
    rows::put_run(
        runs,
        record::RUN_WIDTH * c.counts.uncommitted,
        held,
        last,
        r,
    );
    rows::put_entries(undo, record::ENTRY_WIDTH * c.entries, r);
    c.joins(r.entries)
}

// One turn of the drain: "take the first waiting one and run it", then answer it, hold its answer, or settle it.
pub(crate) fn take_first(
    live: &[u32],
    runs: &mut [u32],
    undo: &mut [u32],
    cells: &mut [u32],
    room: &mut [u32],
    c: Course,
) -> Course
    requires small { Small c }
    requires first_may_run { (0 < c.counts.waiting) × (c.counts.uncommitted < 16) }
    ensures still_small { Small result }
    ensures one_less { result.counts.waiting + 1 ≡ c.counts.waiting }
    ensures took { Took live.now runs.old undo.old room.old cells.old c
        runs.new undo.new room.new cells.new result }
    ensures kept { Kept c result }
{
    let at = record::LIVE_WIDTH * (c.first + c.counts.uncommitted);
    let own = rows::trial_at(live, at as usize);
    let f = record::fragment_at(live, at);
    let r = operations::run_fragment(cells, f);
    let p = rows::place_ran(live, record::LIVE_WIDTH * c.first, c.counts.uncommitted, f);
    let sent = match p.reply {
        Reply::Sent(near) => {
            rows::put_answer(room, rows::ANSWER_WIDTH * c.answers, own, near, r.told);
            true
        }
        Reply::Held => false,
    };
    let d = c.sends(sent);
    if p.joins {
        join(runs, undo, d, !sent, operations::is_last(f), r)
    } else {
        d.settles()
    }
}

// "Drain: while something waits, and" the scheme may take the first of them.
pub(crate) fn drain(
    scheme: Scheme,
    live: &[u32],
    runs: &mut [u32],
    undo: &mut [u32],
    cells: &mut [u32],
    room: &mut [u32],
    from: Course,
) -> Course
    requires { Small from }
    ensures small { Small result }
    ensures drained { Drained scheme live.now runs.old undo.old room.old cells.old from
        runs.new undo.new room.new cells.new result }
    ensures kept { Kept from result }
{
    let mut c = from;
    while 0 < c.counts.waiting && rows::may_take(scheme, runs, c.counts.uncommitted) {
        c = take_first(live, runs, undo, cells, room, c);
    }
    c
}
