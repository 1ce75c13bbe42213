// The slice file: its limits, its layout, the words and codes of a slice's body, and the decoder of a pin's driver.
#![tactic(auto)]

ghost use Rattle.std.specs.Prelude.{◌≡◌, ◌+◌, ◌<◌, length};
ghost use Rattle.slicefile.specs.Format.{pair_at, HoldsSlice, contents_word, pin_count, pin_code};
ghost use Rattle.slicefile.specs.Driver.{driver_of};
ghost use Rattle.slicefile.specs.Refusals.{number, reason_of, refused};

// The most slices and outside inputs of a file.
pub const SLICE_LIMIT: usize = 64;

pub const INPUT_LIMIT: usize = 64;

// The tags of the size record, a slice and the end record.
pub const SIZE_TAG: usize = 1;

pub const SLICE_TAG: usize = 2;

pub const END_TAG: usize = 3;

// The lengths of a record's header, of the bodies, and of the whole records.
pub const HEAD: usize = 3;

pub const SIZE_BODY: usize = 2;

pub const SLICE_BODY: usize = 124;

pub const SIZE_RECORD: usize = HEAD + SIZE_BODY;

pub const SLICE_RECORD: usize = HEAD + SLICE_BODY;

// Where a file's slice count and outside inputs stand: the size record's body.
pub const SLICE_COUNT: usize = HEAD;

pub const INPUT_COUNT: usize = HEAD + 1;

// Offsets in a slice's body; where there is one a letter, that of letter A.
pub const NUMBER: usize = 0;

pub const KIND: usize = 1;

pub const MODE: usize = 2;

pub const SHIFT_DATA: usize = 6;

pub const CONTENTS: usize = 10;

pub const CARRY_DATA: usize = 42;

pub const CARRY_START: usize = 46;

pub const MUX: usize = 47;

pub const MAIN: usize = 51;

pub const SECOND: usize = 55;

pub const POWER_UP: usize = 59;

pub const SET_RESET_VALUES: usize = 60;

pub const SET_RESET_USED: usize = 61;

pub const PINS: usize = 62;

// The bytes of a contents word and of a pin's code.
pub const WORD: usize = 8;

pub const CODE: usize = 2;

// The pins in their order: six of each letter's table, the bypass pins AX to DX, CE, SR, WE.
pub const PIN_COUNT: usize = 31;

pub const TABLE_PINS: usize = 6;

pub const BYPASS_PIN: usize = 24;

pub const CE_PIN: usize = 28;

pub const SR_PIN: usize = 29;

pub const WE_PIN: usize = 30;

// What the other letters' memory goes by: D's mode and the pins of its table.
pub const MODE_D: usize = MODE + 3;

pub const PINS_D: usize = TABLE_PINS * 3;

// The end record.
pub const END: [u8; 3] = *b"\x03\x00\x00";

// One output of one slice: 0-3 the look-up tables' O6, 4-7 the MUX outputs, 8-11 the main flip-flops.
#[derive(Clone, Copy)]
pub struct Output {
    pub slice: usize,
    pub output: usize,
}

// What drives a pin: a constant, nothing (a pin left open is pulled up), an outside input, or one output of one slice.
#[derive(Clone, Copy)]
pub enum Driver {
    Constant(bool),
    Open,
    Input(usize),
    Output(Output),
}

// Why a file, a buffer or an argument is refused, in the order of the numbers that hosts see, from 1; and a number that names no reason, as a host's
// words may hold.
#[derive(Clone, Copy, Debug, PartialEq, Eq)]
pub enum Reason {
    Cut,
    UnknownTag,
    WrongLength,
    NotDue,
    OutsideList,
    Combination,
    NoDriver,
    BytesAfterEnd,
    OnLoop,
    WrongBuffer,
    OutOfRange,
    Other(usize),
}

impl From<Reason> for usize {
    ghost from_gives = { λ r k. k ≡ number r };

    // The names' numbers by themselves, and 12 in the place of `Other`'s: arms that count on are a sum for the compiler, and no jump by a table.
    fn from(reason: Reason) -> usize {
        let named = match reason {
            Reason::Cut => 1,
            Reason::UnknownTag => 2,
            Reason::WrongLength => 3,
            Reason::NotDue => 4,
            Reason::OutsideList => 5,
            Reason::Combination => 6,
            Reason::NoDriver => 7,
            Reason::BytesAfterEnd => 8,
            Reason::OnLoop => 9,
            Reason::WrongBuffer => 10,
            Reason::OutOfRange => 11,
            Reason::Other(_) => 12,
        };
        match reason {
            Reason::Other(number) => number,
            _ => named,
        }
    }
}

impl From<usize> for Reason {
    ghost from_gives = { λ k r. r ≡ reason_of k };

    fn from(number: usize) -> Reason {
        match number {
            1 => Reason::Cut,
            2 => Reason::UnknownTag,
            3 => Reason::WrongLength,
            4 => Reason::NotDue,
            5 => Reason::OutsideList,
            6 => Reason::Combination,
            7 => Reason::NoDriver,
            8 => Reason::BytesAfterEnd,
            9 => Reason::OnLoop,
            10 => Reason::WrongBuffer,
            11 => Reason::OutOfRange,
            _ => Reason::Other(number),
        }
    }
}

// A refusal: its reason, and its place.
#[derive(Clone, Copy, Debug, PartialEq, Eq)]
pub struct Refusal {
    pub reason: Reason,
    pub place: usize,
}

impl Reason {
    // The refusal for this reason at a place.
    pub fn at(self, place: usize) -> Refusal
        ensures { result ≡ refused self place }
    {
        Refusal {
            reason: self,
            place,
        }
    }
}

// The size of a file: n slices and m outside inputs.
#[derive(Clone, Copy, Debug, PartialEq, Eq)]
pub struct Size {
    pub n: usize,
    pub m: usize,
}

// What is judged: a refusal, or the size of what is accepted.
pub type Verdict = Result<Size, Refusal>;

// The driver that a pin code names in a file of n slices and m outside inputs, if there is one.
#[tactic(auto, unfolding(crate::specs::Driver::driver_of))]
pub fn decode_driver(code: u16, n: usize, m: usize) -> Option<Driver>
    ensures { result ≡ driver_of code n m }
{
    let c = usize::from(code);
    if c < 2 {
        return Some(Driver::Constant(c == 1));
    }
    if c < 256 {
        if c == 2 {
            return Some(Driver::Open);
        }
        return None;
    }
    if c < 4096 {
        let j = c - 256;
        if j < m {
            return Some(Driver::Input(j));
        }
        return None;
    }
    let slice = (c - 4096) / 16;
    let output = c % 16;
    if slice < n {
        if output < 12 {
            return Some(Driver::Output(Output { slice, output }));
        }
    }
    None
}

// A letter's contents word in a slice's body, low byte first.
pub fn contents_word(body: &[u8], l: usize) -> u64
    requires { HoldsSlice body.now × (l < 4) }
    ensures { result ≡ contents_word body.now l }
{
    let at = CONTENTS + WORD * l;
    u64::from_le_bytes([
        body[at],
        body[at + 1],
        body[at + 2],
        body[at + 3],
        body[at + 4],
        body[at + 5],
        body[at + 6],
        body[at + 7],
    ])
}

// A number of two bytes, low byte first.
pub fn pair_at(s: &[u8], i: usize) -> u16
    requires { i + 1 < length s.now }
    ensures { result ≡ pair_at s.now i }
{
    u16::from_le_bytes([s[i], s[i + 1]])
}

// The driver code of pin p in a slice's body.
pub fn pin_code(body: &[u8], p: usize) -> u16
    requires { HoldsSlice body.now × (p < pin_count) }
    ensures { result ≡ pin_code body.now p }
{
    pair_at(body, PINS + CODE * p)
}
