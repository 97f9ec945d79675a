// How far a call has come: the record's counts, and what a call counts besides. By value: each step hands back the next.
ghost use Rattle.std.specs.Prelude.{◌≡◌, ◌+◌, ◌≤◌, ◌<◌};
ghost use Rattle.model.specs.Operations.{pick};
ghost use Rattle.engine.specs.Work.{with_answers, joined_with, left_by, settled_at_once, requeued_all, waiting_more};

use record::Counts;

// Where the transactions of a call stand in the live row, and how far it has come: the counts as they are now, how many are gone in this call
// and stand before the others still, the undo entries, the answers sent. Its bounds are no ghost fields: a step begins with `Fair` and the drain
// with `Small`, of which neither gives the other, and a struct with a ghost field takes no `..self`. The rows go to a step one by one beside it:
// a row that a step is not lent stays, with no clause that says so.
#[derive(Clone, Copy)]
pub(crate) struct Course {
    pub counts: Counts,
    pub first: u32,
    pub entries: u32,
    pub answers: u32,
}

impl Course {
    // one answer more is sent, or none
    pub(crate) fn sends(self, sent: bool) -> Course
        requires { self.answers < 64 }
        ensures { result ≡ with_answers (pick sent (self.answers + 1) self.answers) self }
    {
        if sent {
            Course {
                answers: self.answers + 1,
                ..self
            }
        } else {
            self
        }
    }

    // one more waits, at the end
    pub(crate) fn waits(self) -> Course
        requires { self.counts.waiting ≤ 64 }
        ensures { result ≡ waiting_more self }
    {
        Course {
            counts: self.counts.waits(),
            ..self
        }
    }

    // the first waiting one joins the uncommitted ones, with its own entries
    pub(crate) fn joins(self, own: u32) -> Course
        requires { (0 < self.counts.waiting) × (self.counts.uncommitted < 16) × (self.entries ≤ 184) × (own ≤ 8) }
        ensures { result ≡ joined_with self own }
    {
        Course {
            counts: self.counts.joins(),
            entries: self.entries + own,
            ..self
        }
    }

    // The first uncommitted one leaves, with its own entries: here alone a transaction goes out of the queue, one that settles behind others, one
    // that settles at once, and one that is aborted.
    pub(crate) fn leaves(self, own: u32) -> Course
        requires { (0 < self.counts.uncommitted) × (self.first ≤ 64) × (own ≤ self.entries) }
        ensures { result ≡ left_by self own }
    {
        Course {
            counts: self.counts.leaves(),
            first: self.first + 1,
            entries: self.entries - own,
            ..self
        }
    }

    // the first waiting one settles at once: as one that joins with nothing and leaves
    pub(crate) fn settles(self) -> Course
        requires { (0 < self.counts.waiting) × (self.counts.uncommitted < 16) × (self.first ≤ 64) × (self.entries ≤ 184) }
        ensures { result ≡ settled_at_once self }
    {
        self.joins(0).leaves(0)
    }

    // all uncommitted ones "return to the head of the waiting queue in their old order", and none has entries
    pub(crate) fn requeues(self) -> Course
        requires { self.counts.uncommitted + self.counts.waiting ≤ 64 }
        ensures { result ≡ requeued_all self }
    {
        Course {
            counts: self.counts.requeues(),
            entries: 0,
            ..self
        }
    }
}
