// The table of codes: what each operation uses, may do and makes of a cell.

ghost use Rattle.std.specs.Prelude.{◌≡◌};
ghost use Rattle.model.specs.Operations.{uses, writes, may_fail, meaning};
ghost use Rattle.operations.specs.Table.{number_of, Decodes};

// What an operation does: the codes of document 01's table.
#[derive(Clone, Copy, Debug, PartialEq, Eq)]
pub enum Code {
    Read,
    Set,
    Add,
    Take,
    Need,
    Match,
    Raise,
    Lower,
}

// A number that is no code.
#[derive(Clone, Copy, Debug, PartialEq, Eq)]
pub struct UnknownCode(pub u32);

impl TryFrom<u32> for Code {
    type Error = UnknownCode;

    ghost try_from_gives = { Decodes };

    fn try_from(code: u32) -> Result<Self, UnknownCode> {
        match code {
            1 => Ok(Code::Read),
            2 => Ok(Code::Set),
            3 => Ok(Code::Add),
            4 => Ok(Code::Take),
            5 => Ok(Code::Need),
            6 => Ok(Code::Match),
            7 => Ok(Code::Raise),
            8 => Ok(Code::Lower),
            _ => Err(UnknownCode(code)),
        }
    }
}

// The table's columns of yes and no.
#[derive(Clone, Copy, Debug, PartialEq, Eq)]
pub struct Columns {
    pub uses_amount: bool,
    pub may_write: bool,
    pub may_fail: bool,
}

// "One table of codes says for each whether v is used, whether it may write and whether it may fail": a row for each column, in the order of the
// codes: "constant rows of flags for eight operation codes", as document 01 names the form.
const USES: [bool; 8] = [false, true, true, true, true, true, true, true];

const WRITES: [bool; 8] = [false, true, true, true, false, false, true, true];

const MAY_FAIL: [bool; 8] = [false, false, true, true, true, true, false, false];

impl Columns {
    const fn of(uses_amount: bool, may_write: bool, may_fail: bool) -> Columns
        ensures { result ≡ record { uses_amount = uses_amount; may_write = may_write; may_fail = may_fail } }
    {
        Columns {
            uses_amount,
            may_write,
            may_fail,
        }
    }
}

impl Code {
    // What the table says of it. Each row is read at constant places, which the compiler folds: at a place that is not known it would lay the row out
    // on the stack at every look-up.
    #[tactic(auto, unfolding(model::specs::Operations::uses, model::specs::Operations::writes, model::specs::Operations::may_fail))]
    pub fn columns(self) -> Columns
        ensures uses { result.uses_amount ≡ uses (number_of self) }
        ensures writes { result.may_write ≡ writes (number_of self) }
        ensures fails { result.may_fail ≡ may_fail (number_of self) }
    {
        match self {
            Code::Read => Columns::of(USES[0], WRITES[0], MAY_FAIL[0]),
            Code::Set => Columns::of(USES[1], WRITES[1], MAY_FAIL[1]),
            Code::Add => Columns::of(USES[2], WRITES[2], MAY_FAIL[2]),
            Code::Take => Columns::of(USES[3], WRITES[3], MAY_FAIL[3]),
            Code::Need => Columns::of(USES[4], WRITES[4], MAY_FAIL[4]),
            Code::Match => Columns::of(USES[5], WRITES[5], MAY_FAIL[5]),
            Code::Raise => Columns::of(USES[6], WRITES[6], MAY_FAIL[6]),
            Code::Lower => Columns::of(USES[7], WRITES[7], MAY_FAIL[7]),
        }
    }

    // What it makes of content x and amount v: "A failing operation now gives the number it found" (02, L4).
    #[tactic(auto, unfolding(model::specs::Operations::meaning))]
    pub fn apply(self, x: u32, v: u32) -> Result<u32, u32>
        ensures { result ≡ meaning (number_of self) x v }
    {
        match self {
            Code::Read => Ok(x),
            Code::Set => Ok(v),
            Code::Add => x.checked_add(v).ok_or(x),
            Code::Take => x.checked_sub(v).ok_or(x),
            Code::Need => if x < v { Err(x) } else { Ok(x) },
            Code::Match => if x == v { Ok(x) } else { Err(x) },
            Code::Raise => Ok(x.max(v)),
            Code::Lower => Ok(x.min(v)),
        }
    }
}
