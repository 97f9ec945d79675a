// "Commit of the front": it settles, then the singles behind it; the new front is answered, and those behind it that may be.
ghost use Rattle.std.specs.Prelude.{◌≡◌, ◌+◌, ◌*◌, ◌≤◌, ◌<◌, min, get_or};
ghost use Rattle.record.specs.Widths.{run_width};
ghost use Rattle.rows.specs.Rows.{trial_or_none};
ghost use Rattle.engine.specs.Work.{Kept, with_answers, Fair, SettledOne, Singles, ReleasedOne, Fronted, Committed};

use crate::course::Course;
use rows::Trial;

// How many undo entries run number i owns, at most so many.
pub(crate) fn entries_at(runs: &[u32], i: u32, most: u32) -> u32
    ensures { result ≡ min (get_or runs.now (run_width * i + 3) 0) most }
{
    operations::number_at(runs, record::RUN_WORDS * i as usize + 3).min(most)
}

// The first uncommitted one is answered if it holds its answer, and leaves the queue. Its run stands where it stood, behind those that left before it.
pub(crate) fn settle_one(live: &[u32], runs: &[u32], room: &mut [u32], c: Course) -> Course
    requires fair { Fair c }
    requires some_uncommitted { 0 < c.counts.uncommitted }
    ensures still_fair { Fair result }
    ensures one_less { result.counts.uncommitted + 1 ≡ c.counts.uncommitted }
    ensures no_more_entries { result.entries ≤ c.entries }
    ensures settled_one { SettledOne live.now runs.now room.old c room.new result }
    ensures kept { Kept c result }
{
    let own = rows::trial_at(live, record::LIVE_WORDS * c.first as usize);
    let held = rows::put_held(
        room,
        rows::ANSWER_WIDTH * c.answers,
        runs,
        c.first,
        own,
        None,
    );
    let entries = entries_at(runs, c.first, c.entries);
    c.leaves(entries).sends(held)
}

// "Then singles settle and are answered from the front of the queue until a multi is first."
pub(crate) fn settle_singles(live: &[u32], runs: &[u32], room: &mut [u32], from: Course) -> Course
    requires { Fair from }
    ensures still_fair { Fair result }
    ensures no_more_entries { result.entries ≤ from.entries }
    ensures singles { Singles live.now runs.now room.old from room.new result }
    ensures kept { Kept from result }
{
    let mut c = from;
    while 0 < c.counts.uncommitted
        && !record::is_multi_at(live, record::LIVE_WORDS * c.first as usize)
    {
        c = settle_one(live, runs, room, c);
    }
    c
}

// Run number i is sent what it holds, with a dependence, if it is a multi's and holds its answer; its run says so then.
pub(crate) fn release_one(
    live: &[u32],
    runs: &mut [u32],
    room: &mut [u32],
    c: Course,
    i: u32,
    near: Option<Trial>,
) -> Course
    requires { (c.first + i ≤ 64) × (i ≤ 16) × (c.answers < 64) }
    ensures answers_alone { result ≡ with_answers result.answers c }
    ensures one_at_most { result.answers ≤ c.answers + 1 }
    ensures released_one { ReleasedOne live.now runs.old room.old c i (trial_or_none near) runs.new room.new result }
{
    let at = record::LIVE_WORDS * (c.first + i) as usize;
    if !record::is_multi_at(live, at) {
        return c;
    }
    let own = rows::trial_at(live, at);
    // most hold nothing
    if !rows::put_held(room, rows::ANSWER_WIDTH * c.answers, runs, i, own, near) {
        return c;
    }
    rows::mark_sent(runs, record::RUN_WIDTH * i);
    c.sends(true)
}

// "That one is the new front; if its answer was held, it is sent now with dependence 0". Then 02's L6: "held answers are looked at in queue
// order, and each multi for which the multis ahead of it and itself have one coordinator is answered with its dependence": the front's
// coordinator, up to the first multi of another one.
pub(crate) fn release(live: &[u32], runs: &mut [u32], room: &mut [u32], from: Course) -> Course
    requires { Fair from }
    ensures answers_alone { result ≡ with_answers result.answers from }
    ensures fronted { Fronted live.now runs.old room.old from runs.new room.new result }
{
    let front = record::LIVE_WORDS * from.first as usize;
    let k = operations::number_at(live, front + 2);
    let mut c = from;
    let mut near = None;
    for i in 0..from.counts.uncommitted {
        let at = record::LIVE_WORDS * (from.first + i) as usize;
        if !rows::same_coordinator(live, at, k) {
            return c;
        }
        c = release_one(live, runs, room, c, i, near);
        near = rows::nearer(live, at, near);
    }
    c
}

// "Commit of the front: it settles. Then singles settle ..": who settles is found first, and then each row is shifted once; the drain is still to
// come.
pub(crate) fn commit(
    live: &[u32],
    runs: &mut [u32],
    undo: &mut [u32],
    room: &mut [u32],
    c: Course,
) -> Course
    requires fair { Fair c }
    requires some_uncommitted { 0 < c.counts.uncommitted }
    requires none_gone { c.first ≡ 0 }
    ensures committed { Committed live.now runs.old undo.old room.old c
        runs.new undo.new room.new result }
    ensures kept { Kept c result }
{
    let entries = entries_at(runs, 0, c.entries);
    let d = settle_singles(live, runs, room, c.leaves(entries));
    record::shift(
        runs,
        record::RUN_WIDTH * d.first,
        record::RUN_WIDTH * c.counts.uncommitted,
    );
    record::shift(
        undo,
        record::ENTRY_WIDTH * (c.entries - d.entries),
        record::ENTRY_WIDTH * c.entries,
    );
    release(live, runs, room, d)
}
