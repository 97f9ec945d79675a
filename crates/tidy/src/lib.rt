// Leaves the runs of a sound record, with anything in the places that they do not use, canonical: zero there.
#![tactic(auto)]

ghost use Rattle.record.specs.Widths.{runs_length};
ghost use Rattle.std.specs.Prelude.{◌≡◌, ℕ, ◌≤◌};
ghost use Rattle.model.specs.Operations.{pick};
ghost use Rattle.tidy.specs.Runs.{used, tidy_run, tidy_runs, entries_from, few_runs};

// How many words of the run at a place are in use: six and its numbers where its answer is held, four where it was sent.
#[tactic(auto, unfolding(crate::specs::Runs::used))]
pub(crate) fn used_at(runs: &[u32], at: u32) -> u32
    ensures { result ≡ used runs.now at }
{
    let c = at as usize;
    if operations::number_at(runs, c + record::RUN_REPLY) == record::HELD {
        6 + operations::number_at(runs, c + record::RUN_COUNT).min(8)
    } else {
        4
    }
}

// Clears what a run does not use of its sixteen places.
pub(crate) fn tidy_run(runs: &mut [u32], at: u32)
    requires { at ≤ runs_length }
    ensures { runs.new ≡ tidy_run runs.old at }
{
    let k = used_at(runs, at);
    record::lay(runs, at + k, &[0; record::RUN_WORDS], record::RUN_WIDTH - k);
}

// So for the first n runs.
pub(crate) fn tidy_runs(runs: &mut [u32], n: u32)
    requires { n ≤ 16 }
    ensures { runs.new ≡ tidy_runs runs.old 0 n }
{
    for i in 0..n {
        tidy_run(runs, record::RUN_WIDTH * i);
    }
}

// The runs of a sound record's uncommitted ones made canonical, and how many undo entries they own. More than the limits allow are no sound
// record's: such runs are left as they are.
pub fn tidy(runs: &mut [u32], uncommitted: u32) -> u32
    ensures value { result ≡ pick (few_runs runs.old uncommitted) (entries_from runs.old 0 uncommitted) 0 }
    ensures runs_after { runs.new ≡ pick (few_runs runs.old uncommitted) (tidy_runs runs.old 0 uncommitted) runs.old }
{
    if model::DEPTH < uncommitted {
        return 0;
    }
    let n = record::entries_owned(runs, uncommitted);
    if (model::MOST_ENTRIES as usize) < n {
        return 0;
    }
    tidy_runs(runs, uncommitted);
    n as u32
}
