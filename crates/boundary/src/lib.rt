// The library for C and Rust: the engine over a lent record, lent cells, the words of an event and a lent answer room. What crosses is numbers,
// slices and references, nothing by value; whatever the words hold, each function ends and has said what it did.
#![tactic(auto)]

ghost use Rattle.std.specs.Prelude.{◌≡◌};
ghost use Rattle.model.specs.Limits.{most_cells, least_room, event_words, answer_words};
ghost use Rattle.model.specs.declared.Scheme.TheVariants.{Speculation, Blocking};
ghost use Rattle.record.specs.Events.{event_of};
ghost use Rattle.boundary.specs.Words.{record_bytes};
ghost use Rattle.engine.specs.Called.{Leaves};
ghost use Rattle.boundary.specs.Lent.{started, called_with};

use model::Scheme;
use record::Record;

// One call by a scheme on a lent record: it is lent on where it stands, the count of answers is stored, and the number is returned,
// as C takes it.
pub(crate) fn call_on(
    scheme: Scheme,
    r: &mut Record,
    cells: &mut [u32],
    event: &[u32],
    room: &mut [u32],
    answers: &mut u32,
) -> u32
    ensures { Leaves scheme r.old (event_of event.now) cells.old room.old
        (called_with result answers.new r.new) cells.new room.new }
{
    let done = engine::call_lent(scheme, r, cells, event, room);
    *answers = done.unwrap_or(0);
    match done {
        Ok(_) => 0,
        Err(e) => e.into(),
    }
}

// Starts a record of so many cells, whatever it held.
#[unsafe(no_mangle)]
pub extern "C" fn harukdalis_start(r: &mut Record, cells: u32) -> u32
    ensures { started cells result r.new }
{
    let f = record::start(cells);
    *r = f.next;
    f.number
}

// One call on a lent record by speculation.
#[unsafe(no_mangle)]
pub extern "C" fn harukdalis_call(
    r: &mut Record,
    cells: &mut [u32],
    event: &[u32],
    room: &mut [u32],
    answers: &mut u32,
) -> u32
    ensures { Leaves Speculation r.old (event_of event.now) cells.old room.old
        (called_with result answers.new r.new) cells.new room.new }
{
    call_on(Scheme::Speculation, r, cells, event, room, answers)
}

// The same by blocking. Two functions, so that no word that crosses stands for no scheme.
#[unsafe(no_mangle)]
pub extern "C" fn harukdalis_call_blocking(
    r: &mut Record,
    cells: &mut [u32],
    event: &[u32],
    room: &mut [u32],
    answers: &mut u32,
) -> u32
    ensures { Leaves Blocking r.old (event_of event.now) cells.old room.old
        (called_with result answers.new r.new) cells.new room.new }
{
    call_on(Scheme::Blocking, r, cells, event, room, answers)
}

// The size of the record in bytes.
#[unsafe(no_mangle)]
pub extern "C" fn harukdalis_record_bytes() -> u32
    ensures { result ≡ record_bytes }
{
    9936
}

// The words of an event.
#[unsafe(no_mangle)]
pub extern "C" fn harukdalis_event_words() -> u32
    ensures { result ≡ event_words }
{
    model::EVENT_WORDS
}

// The words of an answer.
#[unsafe(no_mangle)]
pub extern "C" fn harukdalis_answer_words() -> u32
    ensures { result ≡ answer_words }
{
    model::ANSWER_WORDS as u32
}

// The least answer room, in words.
#[unsafe(no_mangle)]
pub extern "C" fn harukdalis_least_room() -> u32
    ensures { result ≡ least_room }
{
    model::LEAST_ROOM as u32
}

// The most cells of a partition.
#[unsafe(no_mangle)]
pub extern "C" fn harukdalis_most_cells() -> u32
    ensures { result ≡ most_cells }
{
    model::MOST_CELLS
}
