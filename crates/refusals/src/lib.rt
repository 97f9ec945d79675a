// Document 01's table of refusals, read off a record's words: rows 2 to 14, and behind soundness, row 1, all of it. Every function is total: no word has to be sound.
#![tactic(auto)]

ghost use Rattle.std.specs.Prelude.{IfOk, Ok, ◌≡◌, ◌&&◌, ◌+◌, leb};
ghost use Rattle.model.specs.Limits.{most_live};
ghost use Rattle.model.specs.Transactions.{finished};
ghost use Rattle.model.specs.Refusals.{rows, first_of, refusal, is_in};
ghost use Rattle.model.specs.Kinds.{kind_of};
ghost use Rattle.model.specs.declared.Scheme.{Scheme};
ghost use Rattle.record.specs.View.{view_by, state_of};
ghost use Rattle.record.specs.Events.{event_of};
ghost use Rattle.refusals.specs.declared.Refusal.TheVariants.{NotWellFormed};
ghost use Rattle.refusals.specs.Numbers.{number_of, returned};
ghost use Rattle.refusals.specs.Rest.{call_of, behind_first, row_numbers, front_is, foreign, arrival_rows, event_rows, shape_rows, known_rows, fragment_rows, decision_rows};

use model::{Kind, UnknownKind};
use record::{Counts, State};

// Why a call was refused, each by its row of document 01's table.
#[derive(Clone, Copy, Debug, PartialEq, Eq)]
pub enum Refusal {
    // "the record is not sound"
    UnsoundRecord = 1,
    // "answer room under 1,024 numbers"
    SmallRoom = 2,
    // "cells lent: none, or not the count given at the start"
    WrongCells = 3,
    // "not well formed"
    NotWellFormed = 4,
    // "a cell at or beyond the count"
    CellOutside = 5,
    // "number not live and not above the largest accepted"
    NotLive = 6,
    // "number live, but not the front"
    NotFront = 7,
    // "fragment for a front that is finished"
    FrontFinished = 8,
    // "fragment for the front with another coordinator, or a single's"
    OtherCoordinator = 9,
    // "new number, 64 live"
    TooManyLive = 10,
    // "front has run 8 fragments"
    TooManyFragments = 11,
    // "decision for a number above the largest accepted"
    NotYetAccepted = 12,
    // "commit, front not finished"
    NotFinished = 13,
    // "commit, front failed"
    Failed = 14,
}

// The number that a call returns for a refusal.
impl From<Refusal> for u32 {
    ghost from_gives = { λ e r. r ≡ number_of e };

    fn from(e: Refusal) -> u32 {
        e as u32
    }
}

// "event kind not 1 to 3"
impl From<UnknownKind> for Refusal {
    ghost from_gives = { λ _ e. e ≡ NotWellFormed };

    fn from(_e: UnknownKind) -> Refusal {
        Refusal::NotWellFormed
    }
}

// Refusals 4 and 5 of an arrival's fragment: one look where neither applies.
#[tactic(auto, unfolding(record::specs::Events::event_of))]
pub(crate) fn arrival_row(count: u32, event: &[u32]) -> Result<(), Refusal>
    ensures { returned result ≡ first_of (arrival_rows count (event_of event.now).fragment) }
{
    if soundness::is_storable(event, 1, count) {
        Ok(())
    } else if soundness::is_formed_at(event, 1) {
        Err(Refusal::CellOutside)
    } else {
        Err(Refusal::NotWellFormed)
    }
}

// Refusals 4 and 5 of an event's words, else its kind: 29 of them, a number, and a fragment for an arrival or none of its words for a decision.
#[tactic(auto, using(crate::proofs::Firsts::event_short, crate::proofs::Firsts::event_number_0))]
pub(crate) fn event_row(count: u32, event: &[u32]) -> Result<Kind, Refusal>
    ensures row { returned result ≡ first_of (event_rows count (event_of event.now)) }
    ensures kind { IfOk result (λ kind. kind_of (event_of event.now).kind ≡ Ok kind) }
{
    if event.len() != model::EVENT_WORDS as usize || event[1] < 1 {
        return Err(Refusal::NotWellFormed);
    }
    let kind = Kind::try_from(event[0])?;
    match kind {
        Kind::Fragment => arrival_row(count, event)?,
        Kind::Commit | Kind::Abort => {
            if !soundness::is_blank_at(event, 1) {
                return Err(Refusal::NotWellFormed);
            }
        }
    }
    Ok(kind)
}

// Refusals 2 to 5, else the event's kind: the room, the cells and the event as they are lent.
pub(crate) fn shape_row(
    count: u32,
    cells: &[u32],
    room: &[u32],
    event: &[u32],
) -> Result<Kind, Refusal>
    ensures row { returned result ≡ first_of (shape_rows count (event_of event.now) cells.now room.now) }
    ensures kind { IfOk result (λ kind. kind_of (event_of event.now).kind ≡ Ok kind) }
{
    if room.len() < model::LEAST_ROOM {
        return Err(Refusal::SmallRoom);
    }
    if cells.is_empty() || cells.len() != count as usize {
        return Err(Refusal::WrongCells);
    }
    event_row(count, event)
}

// "Live means accepted and not yet settled or aborted: uncommitted or waiting."
pub(crate) fn is_live(live: &[u32], uncommitted: u32, waiting: u32, number: u32) -> bool
    ensures { result ≡ is_in number (row_numbers live.now 0 (uncommitted + waiting)) }
{
    let n = uncommitted as usize + waiting as usize;
    (0..n).any(|i| operations::number_at(live, record::LIVE_WORDS * i) == number)
}

// Is the number the front's.
pub fn is_front(uncommitted: u32, live: &[u32], number: u32) -> bool
    ensures { result ≡ front_is uncommitted live.now number }
{
    uncommitted != 0 && operations::number_at(live, 0) == number
}

// Refusals 6 and 7.
pub(crate) fn known_row(lives: bool, fresh: bool, front: bool) -> Result<(), Refusal>
    ensures { returned result ≡ first_of (known_rows lives fresh front) }
{
    if !lives && !fresh {
        Err(Refusal::NotLive)
    } else if lives && !front {
        Err(Refusal::NotFront)
    } else {
        Ok(())
    }
}

// Refusal 9, of the front: "with another coordinator, or a single's".
#[tactic(auto, unfolding(record::specs::Events::event_of, record::specs::View::fragment_at, model::specs::Operations::multi))]
pub(crate) fn is_foreign(live: &[u32], event: &[u32]) -> bool
    ensures { result ≡ foreign live.now (event_of event.now).fragment }
{
    !record::is_multi_at(event, 1)
        || operations::number_at(live, 2) != operations::number_at(event, 3)
}

// Refusal 10: "new number, 64 live".
pub(crate) fn is_full(fresh: bool, uncommitted: u32, waiting: u32) -> bool
    ensures { result ≡ (fresh && leb most_live (uncommitted + waiting)) }
{
    fresh && model::MOST_LIVE as usize <= uncommitted as usize + waiting as usize
}

// Refusals 8 to 11, of a fragment.
pub(crate) fn fragment_row(
    uncommitted: u32,
    waiting: u32,
    fresh: bool,
    front: bool,
    live: &[u32],
    runs: &[u32],
    event: &[u32],
) -> Result<(), Refusal>
    ensures { returned result ≡ first_of (fragment_rows (uncommitted + waiting) fresh front live.now runs.now
        (event_of event.now).fragment) }
{
    if front && record::is_finished(operations::number_at(runs, record::RUN_STATE)) {
        return Err(Refusal::FrontFinished);
    }
    if front && is_foreign(live, event) {
        return Err(Refusal::OtherCoordinator);
    }
    if is_full(fresh, uncommitted, waiting) {
        return Err(Refusal::TooManyLive);
    }
    if front && model::MOST_FRAGMENTS <= operations::number_at(runs, 0) {
        return Err(Refusal::TooManyFragments);
    }
    Ok(())
}

// Refusals 12 to 14, of a decision.
pub(crate) fn decision_row(
    commits: bool,
    fresh: bool,
    front: bool,
    runs: &[u32],
) -> Result<(), Refusal>
    ensures { returned result ≡ first_of (decision_rows commits fresh front runs.now) }
{
    if fresh {
        return Err(Refusal::NotYetAccepted);
    }
    if commits && front {
        let state = operations::number_at(runs, record::RUN_STATE);
        if !record::is_finished(state) {
            return Err(Refusal::NotFinished);
        }
        if state == State::Failed as u32 {
            return Err(Refusal::Failed);
        }
    }
    Ok(())
}

// "Checks run in this order and the first that applies is returned": from row 2 on, whatever the scheme. What is lent comes as slices of its own, as
// the contracts name them: nothing below takes all of it, so a struct of references would be made for these two alone.
pub(crate) fn refused_row(
    counts: Counts,
    live: &[u32],
    runs: &[u32],
    undo: &[u32],
    cells: &[u32],
    room: &[u32],
    event: &[u32],
) -> Result<(), Refusal>
    ensures { (σ : Scheme) → returned result ≡ first_of (behind_first (rows
        (view_by counts live.now runs.now undo.now)
        (call_of σ (event_of event.now) cells.now room.now))) }
{
    let kind = shape_row(counts.cells, cells, room, event)?;
    let number = event[1];
    let lives = is_live(live, counts.uncommitted, counts.waiting, number);
    let fresh = counts.largest < number;
    let front = is_front(counts.uncommitted, live, number);
    known_row(lives, fresh, front)?;
    match kind {
        Kind::Fragment => fragment_row(
            counts.uncommitted,
            counts.waiting,
            fresh,
            front,
            live,
            runs,
            event,
        ),
        Kind::Commit => decision_row(true, fresh, front, runs),
        Kind::Abort => decision_row(false, fresh, front, runs),
    }
}

// The refusal of a call, whatever the scheme: soundness first, then the other rows of the table.
pub fn refused(
    counts: Counts,
    live: &[u32],
    runs: &[u32],
    undo: &[u32],
    cells: &[u32],
    room: &[u32],
    event: &[u32],
) -> Result<(), Refusal>
    ensures { (σ : Scheme) → returned result ≡ refusal (view_by counts live.now runs.now undo.now)
        (call_of σ (event_of event.now) cells.now room.now) }
{
    if !soundness::is_sound(counts, live, runs, undo) {
        return Err(Refusal::UnsoundRecord);
    }
    refused_row(counts, live, runs, undo, cells, room, event)
}
