// The values that document 01 speaks of, as every crate passes them, and its limits. What they mean is in specs/; nothing here runs but what tries a
// word for a kind.
#![tactic(auto)]

ghost use Rattle.std.specs.Prelude.{◌≡◌};
ghost use Rattle.model.specs.Kinds.{kind_of};

// "each a whole number from 0 to 4,294,967,295 (called TOP)"
pub const TOP: u32 = 4294967295;
// "A partition is 1 to 4,096 cells"
pub const MOST_CELLS: u32 = 4096;
// "A fragment holds 1 to 8 operations"
pub const MOST_OPERATIONS: u32 = 8;
// "up to 8 fragments"
pub const MOST_FRAGMENTS: u32 = 8;
// "A multi has coordinator 1 to 255"
pub const MOST_COORDINATOR: u32 = 255;
// "uncommitted queue (at most 16)"
pub const DEPTH: u32 = 16;
// "Live transactions: at most 64"
pub const MOST_LIVE: u32 = 64;
// "184 in all"
pub const MOST_ENTRIES: u32 = 184;
// "answer room under 1,024 numbers"
pub const LEAST_ROOM: usize = 1024;
// "An answer is 16 numbers of 32 bits"
pub const ANSWER_WORDS: usize = 16;
// "29 words an event"
pub const EVENT_WORDS: u32 = 29;

// "An operation has a code, a cell and an amount v of 0 to TOP.": as it is handed in, with any word for a code.
#[derive(Clone, Copy)]
pub struct Op {
    pub code: u32,
    pub cell: u32,
    pub amount: u32,
}

// "it is stored as a fixed row of eight with a count, unused places all zero"; flags are 1 multi + 2 last, in a word that may have
// others, as any words are an event.
#[derive(Clone, Copy)]
pub struct Fragment {
    pub flags: u32,
    pub coordinator: u32,
    pub count: u32,
    pub row: [Op; 8],
}

// "kind (1 fragment, 2 commit, 3 abort), number, flags (1 multi + 2 last), coordinator, operation count, eight times code, cell, amount": any words at all.
#[derive(Clone, Copy)]
pub struct Event {
    pub kind: u32,
    pub number: u32,
    pub fragment: Fragment,
}

// "Undo entries (cell, old number)"
#[derive(Clone, Copy)]
pub struct Undo {
    pub cell: u32,
    pub old: u32,
}

// Which scheme a call runs by: 01's steps, which speculate behind a finished front, or 02's L5, which runs nothing while anything is
// uncommitted.
#[derive(Clone, Copy)]
pub enum Scheme {
    Speculation,
    Blocking,
}

// What an event asks for: "kind (1 fragment, 2 commit, 3 abort)"
#[derive(Clone, Copy, Debug, PartialEq, Eq)]
pub enum Kind {
    Fragment = 1,
    Commit = 2,
    Abort = 3,
}

// "event kind not 1 to 3": a word that is no event's kind.
#[derive(Clone, Copy, Debug, PartialEq, Eq)]
pub struct UnknownKind(pub u32);

// The kind that a word stands for.
impl TryFrom<u32> for Kind {
    type Error = UnknownKind;

    ghost try_from_gives = { λ word r. r ≡ kind_of word };

    fn try_from(word: u32) -> Result<Self, UnknownKind> {
        match word {
            1 => Ok(Kind::Fragment),
            2 => Ok(Kind::Commit),
            3 => Ok(Kind::Abort),
            _ => Err(UnknownKind(word)),
        }
    }
}
