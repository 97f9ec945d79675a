// "Arrival, number of the front": one more fragment of it runs.
ghost use Rattle.std.specs.Prelude.{◌≡◌, ◌+◌, ◌*◌, ◌≤◌, ◌<◌, eqb};
ghost use Rattle.std.proofs.lemmas.List.Edits.{sets};
ghost use Rattle.engine.specs.Work.{Kept, Fair, Continued};
ghost use Rattle.record.specs.View.{numbers_from, shifted};
ghost use Rattle.model.specs.Operations.{pick};

use crate::course::Course;
use model::Fragment;
use operations::Ran;

// The entries of the front after one more fragment: its own behind the earlier ones, or none where it failed.
pub(crate) fn note_entries(undo: &mut [u32], entries: u32, r: Ran) -> u32
    requires { (entries ≤ 184) × (r.entries ≤ 8) }
    ensures value { result ≡ pick (eqb r.told.place 0) (entries + r.entries) 0 }
    ensures undo_after { undo.new ≡ pick (eqb r.told.place 0)
        (sets undo.old (2 * entries) (numbers_from r.undo 0 (2 * r.entries)))
        (shifted undo.old (2 * entries) (2 * entries)) }
{
    if r.told.place == 0 {
        rows::put_entries(undo, record::ENTRY_WIDTH * entries, r);
        entries + r.entries
    } else {
        record::shift(
            undo,
            record::ENTRY_WIDTH * entries,
            record::ENTRY_WIDTH * entries,
        );
        0
    }
}

// "Arrival, number of the front (first uncommitted): run the fragment, answer with dependence 0"; the drain is still to come.
pub(crate) fn continue_front(
    live: &[u32],
    runs: &mut [u32],
    undo: &mut [u32],
    cells: &mut [u32],
    room: &mut [u32],
    c: Course,
    f: Fragment,
) -> Course
    requires fair { Fair c }
    requires some_uncommitted { 0 < c.counts.uncommitted }
    ensures continued { Continued live.now runs.old undo.old room.old cells.old c f
        runs.new undo.new room.new cells.new result }
    ensures kept { Kept c result }
{
    let own = rows::trial_at(live, record::LIVE_WORDS * c.first as usize);
    let r = operations::continue_fragment(cells, f, undo, c.entries);
    let entries = note_entries(undo, c.entries, r);
    rows::run_again(runs, f, r.told.place, entries);
    rows::put_answer(room, rows::ANSWER_WIDTH * c.answers, own, None, r.told);
    Course {
        entries,
        answers: c.answers + 1,
        ..c
    }
}
