// The operations of document 01 over lent cells: the table of codes, one operation, a fragment's run with its undo entries, undoing, and the
// checks that read the table. Every function is total: a cell that is not there holds 0 and keeps nothing, as the definitions say.
#![tactic(auto)]

ghost use Rattle.std.specs.Prelude.{◌≡◌, List, [], ◌∷◌, ◌+◌, ◌*◌, ◌≤◌, ◌<◌, ◌^◌, min, length, get_or, set, take, drop};
ghost use Rattle.std.specs.List.{list_all};
ghost use Rattle.model.specs.Operations.{known, uses, writes, may_fail, meaning, multi, last, operations};
ghost use Rattle.model.specs.Steps.{undone, run, run_from};
ghost use Rattle.model.specs.Refusals.{formed_op, blank_op, formed};
ghost use Rattle.operations.specs.Laid.{entry_at, entries_of, operated, afterwards, note_count, note_row, laid, told};
ghost use Rattle.operations.specs.Words.{fragment_at, formed_kind_of};
ghost use Rattle.model.specs.declared.Op.{Op};

use model::{Fragment, Op, Undo};

mod code;

pub use code::{Code, Columns, UnknownCode};

// What is asked by number answers for any word: a `Code` would take fewer.
pub fn is_known(code: u32) -> bool
    ensures { result ≡ known code }
{
    Code::try_from(code).is_ok()
}

pub fn uses_amount(code: u32) -> bool
    ensures { result ≡ uses code }
{
    Code::try_from(code).is_ok_and(|c| c.columns().uses_amount)
}

pub fn may_write(code: u32) -> bool
    ensures { result ≡ writes code }
{
    Code::try_from(code).is_ok_and(|c| c.columns().may_write)
}

pub fn may_fail(code: u32) -> bool
    ensures { result ≡ may_fail code }
{
    Code::try_from(code).is_ok_and(|c| c.columns().may_fail)
}

// What a code makes of content x and amount v; what is no code fails. "A failing operation now gives the number it found" (02, L4).
pub fn apply(code: u32, x: u32, v: u32) -> Result<u32, u32>
    ensures { result ≡ meaning code x v }
{
    Code::try_from(code).map_err(|_| x)?.apply(x, v)
}

// The number at a place of a slice, 0 past its end.
pub fn number_at(s: &[u32], i: usize) -> u32
    ensures { result ≡ get_or s.now i 0 }
{
    s.get(i).copied().unwrap_or(0)
}

// Puts a number, a byte or another value that is copied at a place of a slice, nowhere past its end.
pub fn put_at<T: Copy>(s: &mut [T], i: usize, y: T)
    ensures { s.new ≡ set s.old i y }
{
    if i < s.len() {
        s[i] = y;
    }
}

// What an operation did, and the content that it found.
#[derive(Clone, Copy, Debug, PartialEq, Eq)]
pub struct Operated {
    pub did: Result<u32, u32>,
    pub old: u32,
}

// One operation on the lent cells: "A failing operation writes nothing".
pub fn operate_on(cells: &mut [u32], o: Op) -> Operated
    ensures value { result ≡ operated o cells.old }
    ensures cells_after { cells.new ≡ afterwards o cells.old }
{
    let at = o.cell as usize;
    let old = number_at(cells, at);
    let did = apply(o.code, old, o.amount);
    if let Ok(y) = did {
        if may_write(o.code) {
            put_at(cells, at, y);
        }
    }
    Operated { did, old }
}

// Entry k of a row of numbers. That an entry is 2 words there, its cell and its old number, is known in this crate here and in `note`.
pub(crate) fn entry_at(row: &[u32], k: usize) -> Undo
    requires { k < 2 ^ 32 }
    ensures { result ≡ entry_at row.now (2 * k) }
{
    Undo {
        cell: number_at(row, 2 * k),
        old: number_at(row, 2 * k + 1),
    }
}

// One entry more in a fragment's own row of entries, if the operation writes; how many there are then.
#[tactic(auto, unfolding(crate::specs::Laid::note_count, crate::specs::Laid::note_row))]
pub(crate) fn note(row: &mut [u32; 16], k: usize, o: Op, old: u32) -> usize
    requires row_len { length row.old ≡ 16 }
    requires k_bound { k < 8 }
    ensures value { result ≡ note_count o k }
    ensures row_after { row.new ≡ note_row o old k row.old }
{
    if may_write(o.code) {
        row[2 * k] = o.cell;
        row[2 * k + 1] = old;
        k + 1
    } else {
        k
    }
}

// "Undoing walks the entries from the newest to the oldest": the lent ones, where they lie. One whose cell is not there changes nothing.
pub(crate) fn undo_entries(cells: &mut [u32], entries: &[Undo])
    ensures { cells.new ≡ undone entries.now cells.old }
{
    for i in (0..entries.len()).rev() {
        let u = entries[i];
        put_at(cells, u.cell as usize, u.old);
    }
}

// n entries of a row from entry `from` on, at the start of eight.
pub(crate) fn few_entries(row: &[u32], from: usize, n: usize) -> [Undo; 8]
    requires { (n ≤ 8) × (from + n < 2 ^ 32) }
    ensures { take n result ≡ entries_of row.now (2 * from) n }
{
    let mut few = [Undo { cell: 0, old: 0 }; 8];
    for i in 0..n {
        few[i] = entry_at(row, from + i);
    }
    few
}

// Undoes the first `count` entries of a row, copied out a few at a time from the newest on: so there is no count that it cannot hold. It goes by
// eights from the end, the last turn by what is left.
pub fn undo(cells: &mut [u32], entries: &[u32], count: u32)
    ensures { cells.new ≡ undone (entries_of entries.now 0 count) cells.old }
{
    let mut left = count as usize;
    while 0 < left {
        let n = left.min(8);
        left -= n;
        let few = few_entries(entries, left, n);
        undo_entries(cells, &few[..n]);
    }
}

// What a run tells, as an answer of document 01 has it: the place of failure or 0, and the numbers with their count; unused places are zero. Where it
// failed, the numbers are the one that the failing operation found. `told` holds it to these words, place 0 too, and so it is no Result.
#[derive(Clone, Copy, Debug, PartialEq, Eq)]
pub struct Told {
    pub place: u32,
    pub count: u32,
    pub numbers: [u32; 8],
}

// What a fragment's run gives: what it tells, and its own undo entries with their count, in a row of a fixed length, since nothing is allocated;
// unused places are zero.
#[derive(Clone, Copy, Debug, PartialEq, Eq)]
pub struct Ran {
    pub told: Told,
    pub entries: u32,
    pub undo: [u32; 16],
}

// Operations, read where they stand.
pub(crate) trait Listed: Copy {
    ghost operations: { Self → List Op };

    fn count(&self) -> usize
        ensures { result ≡ length (operations self.now) };

    fn operation(&self, i: usize) -> Op
        requires { i < length (operations self.now) }
        ensures { drop i (operations self.now) ≡ result ∷ drop (i + 1) (operations self.now) };
}

// At most eight operations in order over the lent cells. Where one fails, everything that they changed is taken back.
pub(crate) fn run<L: Listed>(cells: &mut [u32], list: L) -> Ran
    requires { length (L.operations list) ≤ 8 }
    ensures value { result ≡ laid (run_from 1 (L.operations list) cells.old [] []) }
    ensures cells_after { cells.new ≡ (run_from 1 (L.operations list) cells.old [] []).cells }
{
    let mut numbers = [0u32; 8];
    let mut own = [0u32; 16];
    let mut entries: usize = 0;
    let n = list.count();
    for i in 0..n {
        let o = list.operation(i);
        let s = operate_on(cells, o);
        let d = s.did;
        match d {
            Ok(y) => {
                numbers[i] = y;
                entries = note(&mut own, entries, o, s.old);
            }
            Err(x) => {
                undo(cells, &own, entries as u32);
                return Ran {
                    told: Told {
                        place: (i + 1) as u32,
                        count: 1,
                        numbers: [x, 0, 0, 0, 0, 0, 0, 0],
                    },
                    entries: 0,
                    undo: [0u32; 16],
                };
            }
        }
    }
    Ran {
        told: Told {
            place: 0,
            count: n as u32,
            numbers,
        },
        entries: entries as u32,
        undo: own,
    }
}

impl Listed for &[Op] {
    ghost operations = { λ s. s.now };

    fn count(&self) -> usize {
        self.len()
    }

    fn operation(&self, i: usize) -> Op {
        self[i]
    }
}

// A fragment's operations in order over the lent cells. Where one fails, everything that the fragment changed is taken back here; what its
// transaction changed before is taken back by the caller, who has those entries.
pub fn run_fragment(cells: &mut [u32], f: Fragment) -> Ran
    ensures value { result ≡ laid (run f cells.old []) }
    ensures cells_after { cells.new ≡ (run f cells.old []).cells }
{
    let n = f.count.min(model::MOST_OPERATIONS) as usize;
    run(cells, &f.row[..n])
}

// A later fragment of a transaction that owns `count` earlier entries: where it fails, "all changes of that transaction (earlier fragments
// too) are taken back at once". The result has the fragment's own entries.
pub fn continue_fragment(cells: &mut [u32], f: Fragment, earlier: &[u32], count: u32) -> Ran
    ensures value { result ≡ laid (run f cells.old []) }
    ensures cells_after { cells.new ≡ (run f cells.old (entries_of earlier.now 0 count)).cells }
{
    let r = run_fragment(cells, f);
    if r.told.place == 0 {
        return r;
    }
    undo(cells, earlier, count);
    r
}

// The operations of the fragment whose words start at b.
#[derive(Clone, Copy)]
pub(crate) struct InWords<'a> {
    words: &'a [u32],
    b: u32,
}

impl Listed for InWords<'_> {
    ghost operations = { λ s. operations (fragment_at s.words.now s.b) };

    fn count(&self) -> usize {
        number_at(self.words, self.b as usize + 3).min(model::MOST_OPERATIONS) as usize
    }

    fn operation(&self, i: usize) -> Op {
        let at = self.b as usize + 4 + 3 * i;
        Op {
            code: number_at(self.words, at),
            cell: number_at(self.words, at + 1),
            amount: number_at(self.words, at + 2),
        }
    }
}

// The fragment whose words start at b, run where they stand, for one that settles at once: no fragment is made of the words, and nobody keeps its
// entries.
pub fn run_words(cells: &mut [u32], words: &[u32], b: u32) -> Told
    ensures value { result ≡ told (run (fragment_at words.now b) cells.old []) }
    ensures cells_after { cells.new ≡ (run (fragment_at words.now b) cells.old []).cells }
{
    run(cells, InWords { words, b }).told
}

// "flags (1 multi + 2 last)"
pub fn is_multi(f: Fragment) -> bool
    ensures { result ≡ multi f }
{
    f.flags % 2 == 1
}

pub fn is_last(f: Fragment) -> bool
    ensures { result ≡ last f }
{
    f.flags / 2 % 2 == 1
}

// "unknown code, read with v above 0"
pub fn is_formed_op(o: Op) -> bool
    ensures { result ≡ formed_op o }
{
    is_known(o.code) && (uses_amount(o.code) || o.amount == 0)
}

// "unused place not zero"
pub fn is_blank_op(o: Op) -> bool
    ensures { result ≡ blank_op o }
{
    o.code == 0 && o.cell == 0 && o.amount == 0
}

// "single not last, coordinator of the wrong range", of a fragment's flags and coordinator, which may be any words.
#[tactic(auto, unfolding(model::specs::Operations::multi, model::specs::Operations::last))]
pub fn is_formed_kind(flags: u32, coordinator: u32) -> bool
    ensures { result ≡ formed_kind_of flags coordinator }
{
    if flags % 2 == 1 {
        1 <= coordinator && coordinator <= model::MOST_COORDINATOR
    } else {
        flags / 2 % 2 == 1 && coordinator == 0
    }
}

// Every one of some operations is well formed. This and the next are two functions, for with both walks in it `is_formed` is left unproved at
// the limit of the search.
pub(crate) fn ops_formed(ops: &[Op]) -> bool
    ensures { result ≡ list_all formed_op ops.now }
{
    ops.iter().all(|o| is_formed_op(*o))
}

// Every one of some places is zero.
pub(crate) fn ops_blank(ops: &[Op]) -> bool
    ensures { result ≡ list_all blank_op ops.now }
{
    ops.iter().all(|o| is_blank_op(*o))
}

// Refusal 4, of a fragment.
#[tactic(auto, using(crate::proofs::Checks::every_all), unfolding(model::specs::Refusals::formed, model::specs::Operations::operations, model::specs::Operations::multi, model::specs::Operations::last))]
pub fn is_formed(f: Fragment) -> bool
    ensures { result ≡ formed f }
{
    if f.count < 1 || model::MOST_OPERATIONS < f.count {
        return false;
    }
    let (used, unused) = f.row.split_at(f.count as usize);
    ops_formed(used) && ops_blank(unused) && f.flags <= 3 && is_formed_kind(f.flags, f.coordinator)
}
