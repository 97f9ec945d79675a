// Calls with the record by value: `call_by` a scheme, and `call` by speculation. What holds of sequences of them, on records, words and rooms, is
// said in specs/: demand 3, and what both schemes have in common.
#![tactic(auto)]

ghost use Rattle.std.specs.Prelude.{◌≡◌};
ghost use Rattle.model.specs.declared.Scheme.TheVariants.{Speculation};
ghost use Rattle.engine.specs.Called.{called, cells_after, room_after};
ghost use Rattle.carried.specs.Reported.{reported};

use model::{Event, Scheme};
use record::Record;
use refusals::Refusal;

// What a call returns: the count of answers or the refusal, and the next record, which is the one that came where the call was refused.
#[derive(Clone, Copy)]
pub struct Answered {
    pub answers: Result<u32, Refusal>,
    pub next: Record,
}

// One call by a scheme, of any record, any lent cells, any event and any lent answer room: refused with nothing touched, or carried out. The record
// goes in and comes back. It keeps no scheme: a depot may change over at any call.
pub fn call_by(
    scheme: Scheme,
    mut r: Record,
    cells: &mut [u32],
    event: Event,
    room: &mut [u32],
) -> Answered
    ensures value { reported result ≡ called scheme r event cells.old room.old }
    ensures cells_after { cells.new ≡ cells_after scheme r event cells.old room.old }
    ensures room_after { room.new ≡ room_after scheme r event cells.old room.old }
{
    let answers = engine::call_lent(scheme, &mut r, cells, &record::event_words(event), room);
    Answered { answers, next: r }
}

// The same by 01's scheme, speculation. One line, which stays: README.md and docs/STATEMENTS.md name it.
pub fn call(r: Record, cells: &mut [u32], event: Event, room: &mut [u32]) -> Answered
    ensures value { reported result ≡ called Speculation r event cells.old room.old }
    ensures cells_after { cells.new ≡ cells_after Speculation r event cells.old room.old }
    ensures room_after { room.new ≡ room_after Speculation r event cells.old room.old }
{
    call_by(Scheme::Speculation, r, cells, event, room)
}
