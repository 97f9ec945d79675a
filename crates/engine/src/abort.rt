// "Abort of the front": everything uncommitted is undone, and all but the front waits again.
ghost use Rattle.std.specs.Prelude.{◌≡◌, ◌<◌};
ghost use Rattle.engine.specs.Work.{Kept, Fair, Aborted};

use crate::course::Course;

// "Abort of the front: undo all uncommitted from the tail to the front; the front is gone; the others return to the head of the waiting
// queue in their old order": the boundary between the two queues moves back, and each that returns has an attempt more (02, L2); the drain is still
// to come.
pub(crate) fn abort(
    live: &mut [u32],
    runs: &mut [u32],
    undo: &mut [u32],
    cells: &mut [u32],
    c: Course,
) -> Course
    requires fair { Fair c }
    requires some_uncommitted { 0 < c.counts.uncommitted }
    ensures aborted { Aborted live.old runs.old undo.old cells.old c
        live.new runs.new undo.new cells.new result }
    ensures kept { Kept c result }
{
    operations::undo(cells, undo, c.entries);
    record::shift(
        runs,
        record::RUN_WIDTH * c.counts.uncommitted,
        record::RUN_WIDTH * c.counts.uncommitted,
    );
    record::shift(
        undo,
        record::ENTRY_WIDTH * c.entries,
        record::ENTRY_WIDTH * c.entries,
    );
    let d = c.leaves(0);
    rows::raise_attempts(live, record::LIVE_WIDTH * d.first, d.counts.uncommitted);
    d.requeues()
}
