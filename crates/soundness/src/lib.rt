// Refusal 1 of document 01: whether a record of any words is sound. Each walk over a row of words asks what it can of one row at a time; every
// function is total, and a read past a row's end gives 0. A stored fragment is asked as 4 and 5 ask an event's, so what asks them is public.
#![tactic(auto)]

ghost use Rattle.record.specs.Widths.{ops_end, live_width, run_width};
ghost use Rattle.std.specs.Prelude.{◌≡◌, ◌&&◌, ◌+◌, ◌*◌, ◌-◌, ◌<◌, ◌≤◌, length, get_or};
ghost use Rattle.model.specs.Refusals.{every, formed, blank, storable, sound};
ghost use Rattle.record.specs.View.{fragment_at, numbers_from, view_by};
ghost use Rattle.soundness.specs.Groups.{is_zero, ops_from, storable_op, row_ok, live_from, reply_ok, run_ok, front_ok, next_ok, behind_from, members_ok, undo_ok};

use model::Op;
use record::{Counts, State};

// "unused place not zero": are the words of a row from `from` to before `to` all 0. The loop has no way out before its end, so that it can
// take several words at once.
pub(crate) fn all_zero(row: &[u32], from: usize, to: usize) -> bool
    requires { (from ≤ to) × (to ≤ length row.now) }
    ensures { result ≡ every is_zero (numbers_from row.now from (to - from)) }
{
    let mut all = 0;
    for w in &row[from..to] {
        all |= *w;
    }
    all == 0
}

// An operation that 4 and 5 would not refuse.
pub(crate) fn op_ok(o: Op, cells: u32) -> bool
    ensures { result ≡ storable_op cells o }
{
    operations::is_formed_op(o) && o.cell < cells
}

// The n operations whose words start at b.
pub(crate) fn used_ok(row: &[u32], b: usize, n: usize, cells: u32) -> bool
    requires { (n ≤ 8) × (b + 3 * n ≤ length row.now) }
    ensures { result ≡ every (storable_op cells) (ops_from row.now b n) }
{
    for i in 0..n {
        let at = b + 3 * i;
        let o = Op {
            code: row[at],
            cell: row[at + 1],
            amount: row[at + 2],
        };
        if !op_ok(o, cells) {
            return false;
        }
    }
    true
}

// "a stored fragment that 4 or 5 would refuse", all its words there: asked where they stand, with no fragment made of them.
#[tactic(auto, using(crate::proofs::Stored::stored))]
pub(crate) fn storable_in(live: &[u32], at: usize, cells: u32) -> bool
    requires { at + ops_end ≤ length live.now }
    ensures { result ≡ storable cells (fragment_at live.now at) }
{
    let count = live[at + 3];
    let ops = at + record::OPS_START;
    count <= model::MOST_OPERATIONS
        && 1 <= count
        && used_ok(live, ops, count as usize, cells)
        && all_zero(live, ops + 3 * count as usize, at + record::OPS_END)
        && live[at + 1] <= 3
        && operations::is_formed_kind(live[at + 1], live[at + 2])
}

// The same of words that may stand past the row's end, which are asked in a copy: with a fragment made of them the compiler would keep the slice
// in memory on every way.
pub fn is_storable(row: &[u32], b: u32, cells: u32) -> bool
    ensures { result ≡ storable cells (fragment_at row.now b) }
{
    let at = b as usize;
    if at + record::OPS_END <= row.len() {
        return storable_in(row, at, cells);
    }
    let words = record::words_from(row, at);
    storable_in(&words, 0, cells)
}

// "not well formed": not the fragment whose row starts at b. This is asked only of what is not storable, so here a fragment is made.
pub fn is_formed_at(row: &[u32], b: u32) -> bool
    ensures { result ≡ formed (fragment_at row.now b) }
{
    let f = record::fragment_at(row, b);
    operations::is_formed(f)
}

// "a decision with more than its number": not the one whose number stands at b. The two ways stand here and in is_storable: one function over
// what is asked would be no plainer, for its contract would speak of every slice that it may lend a closure.
pub fn is_blank_at(row: &[u32], b: u32) -> bool
    ensures { result ≡ blank (fragment_at row.now b) }
{
    let at = b as usize;
    if at + record::OPS_END <= row.len() {
        return all_zero(row, at + 1, at + record::OPS_END);
    }
    let words = record::words_from(row, at);
    all_zero(&words, 1, record::OPS_END)
}

// "live numbers 0, not rising", "a stored fragment that 4 or 5 would refuse", and "an attempt is at least 1, and attempt plus transactions ahead at
// most 64" (02, L2): of the live row that starts at b, behind the number `low` and so many transactions.
#[tactic(auto, unfolding(crate::specs::Groups::row_ok))]
pub(crate) fn row_ok(live: &[u32], b: u32, low: u32, ahead: u32, cells: u32) -> bool
    requires { ahead ≤ 64 }
    ensures { result ≡ row_ok cells live.now b low ahead }
{
    let number = operations::number_at(live, b as usize);
    let attempt = record::attempt_at(live, b);
    low < number
        && 1 <= attempt
        && attempt <= model::MOST_LIVE - ahead
        && is_storable(live, b, cells)
}

// The first n live rows: numbers that rise to at most the largest accepted, attempts that those ahead allow, fragments that may be stored.
pub(crate) fn live_ok(live: &[u32], n: u32, largest: u32, cells: u32) -> bool
    requires { n ≤ 64 }
    ensures { result ≡ live_from largest cells live.now 0 n 0 0 }
{
    let mut low = 0;
    for ahead in 0..n {
        let b = record::LIVE_WIDTH * ahead;
        if !row_ok(live, b, low, ahead, cells) {
            return false;
        }
        low = operations::number_at(live, b as usize);
    }
    low <= largest
}

// A word of the run of the uncommitted one that so many are ahead of. Each is read only where it is asked: a run read whole, into a struct of its
// words, made is_sound slower.
pub(crate) fn run_word(runs: &[u32], ahead: u32, word: usize) -> u32
    requires { word < run_width }
    ensures { result ≡ get_or runs.now (run_width * ahead + word) 0 }
{
    operations::number_at(runs, record::RUN_WORDS * ahead as usize + word)
}

// "a held answer of more than 8 numbers or a place above 8", or a word that stands for no reply: not in that run.
#[tactic(auto, unfolding(crate::specs::Groups::reply_ok))]
pub(crate) fn reply_ok(runs: &[u32], ahead: u32) -> bool
    ensures { result ≡ reply_ok runs.now (run_width * ahead) }
{
    let reply = run_word(runs, ahead, record::RUN_REPLY);
    reply == record::SENT
        || reply == record::HELD
            && run_word(runs, ahead, record::RUN_PLACE) <= model::MOST_OPERATIONS
            && run_word(runs, ahead, record::RUN_COUNT) <= model::MOST_OPERATIONS
}

// "fragments run beyond the limits", "no fragment run", "undo entries beyond 8 for each fragment its owner ran", or a word that stands for no
// state or reply: not in that run, where at most `most` fragments may have run.
#[tactic(auto, unfolding(crate::specs::Groups::run_ok))]
pub(crate) fn run_ok(runs: &[u32], ahead: u32, most: u32) -> bool
    requires { most ≤ 8 }
    ensures { result ≡ run_ok most runs.now (run_width * ahead) }
{
    let ran = run_word(runs, ahead, 0);
    1 <= ran
        && ran <= most
        && run_word(runs, ahead, record::RUN_STATE) <= State::Failed as u32
        && run_word(runs, ahead, record::RUN_ENTRIES) <= model::MOST_OPERATIONS * ran
        && reply_ok(runs, ahead)
}

// "a front that is a single or holds its answer": not this one.
#[tactic(auto, unfolding(crate::specs::Groups::front_ok))]
pub(crate) fn front_ok(live: &[u32], runs: &[u32]) -> bool
    ensures { result ≡ front_ok live.now runs.now }
{
    record::is_multi_at(live, 0)
        && run_word(runs, 0, record::RUN_REPLY) == record::SENT
        && run_ok(runs, 0, model::MOST_FRAGMENTS)
}

// "one behind the front with more than one run", "an uncommitted single whose answer is not held": not the one that so many are ahead of.
#[tactic(auto, unfolding(crate::specs::Groups::next_ok))]
pub(crate) fn next_ok(live: &[u32], runs: &[u32], ahead: u32) -> bool
    ensures { result ≡ next_ok live.now (live_width * ahead) runs.now (run_width * ahead) }
{
    run_ok(runs, ahead, 1)
        && (record::is_multi_at(live, record::LIVE_WORDS * ahead as usize)
            || run_word(runs, ahead, record::RUN_REPLY) == record::HELD)
}

// The n uncommitted ones behind the front, "an unfinished one that is not the last" with them.
pub(crate) fn behind_ok(live: &[u32], runs: &[u32], n: u32) -> bool
    ensures { result ≡ behind_from live.now 0 runs.now 0 n }
{
    for ahead in 0..n {
        if run_word(runs, ahead, record::RUN_STATE) == State::Running as u32
            || !next_ok(live, runs, ahead + 1)
        {
            return false;
        }
    }
    true
}

// The n uncommitted ones.
#[tactic(auto, unfolding(crate::specs::Groups::members_ok))]
pub(crate) fn members_ok(live: &[u32], runs: &[u32], n: u32) -> bool
    ensures { result ≡ members_ok live.now runs.now n }
{
    n == 0 || front_ok(live, runs) && behind_ok(live, runs, n - 1)
}

// The cell of undo entry i, 0 past the row's end.
pub(crate) fn cell_of(undo: &[u32], i: usize) -> u32
    ensures { result ≡ get_or undo.now (2 * i) 0 }
{
    if i < undo.len().div_ceil(2) {
        undo[2 * i]
    } else {
        0
    }
}

// "an undo cell outside": none among the first n entries.
pub(crate) fn undo_ok(undo: &[u32], n: usize, cells: u32) -> bool
    ensures { result ≡ undo_ok cells undo.now 0 n }
{
    (0..n).all(|i| cell_of(undo, i) < cells)
}

// Refusal 1: whether these words are a sound record.
#[tactic(auto, using(crate::proofs::Grouped::sound_groups), unfolding(crate::specs::Groups::groups))]
pub fn is_sound(counts: Counts, live: &[u32], runs: &[u32], undo: &[u32]) -> bool
    ensures { result ≡ sound (view_by counts live.now runs.now undo.now) }
{
    counts.cells <= model::MOST_CELLS
        && counts.uncommitted <= model::DEPTH
        && counts.waiting <= model::MOST_LIVE - counts.uncommitted
        && live_ok(
            live,
            counts.uncommitted + counts.waiting,
            counts.largest,
            counts.cells,
        )
        && members_ok(live, runs, counts.uncommitted)
        && undo_ok(
            undo,
            record::entries_owned(runs, counts.uncommitted),
            counts.cells,
        )
}
