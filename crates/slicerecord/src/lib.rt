// One slice record as a struct: its fields read from a body's bytes, and its bytes.
#![tactic(auto)]

ghost use Rattle.std.specs.Prelude.{◌≡◌, ◌+◌, ◌*◌, ◌≤◌, length};
ghost use Rattle.std.proofs.lemmas.List.Edits.{sets};
ghost use Rattle.slicefile.specs.Format.{byte_at, HoldsSlice, pin_count, pin_code};
ghost use Rattle.slicefile.specs.Lists.{tabulate};
ghost use Rattle.slicerecord.specs.Record.{letters, record_of, all_bytes, record_bytes};

use slicefile::{
    CARRY_DATA, CARRY_START, CODE, CONTENTS, HEAD, KIND, MAIN, MODE, MUX, NUMBER, PIN_COUNT, PINS,
    POWER_UP, SECOND, SET_RESET_USED, SET_RESET_VALUES, SHIFT_DATA, SLICE_BODY, SLICE_RECORD,
    SLICE_TAG, WORD,
};

// The header of a slice's record.
const TAG: u8 = SLICE_TAG as u8;

const LENGTH: u8 = SLICE_BODY as u8;

// Where the fields stand in a whole record, after its header.
const MODES_AT: usize = HEAD + MODE;

const SHIFTS_AT: usize = HEAD + SHIFT_DATA;

const CONTENTS_AT: usize = HEAD + CONTENTS;

const CARRIES_AT: usize = HEAD + CARRY_DATA;

const START_AT: usize = HEAD + CARRY_START;

const MUXES_AT: usize = HEAD + MUX;

const MAINS_AT: usize = HEAD + MAIN;

const SECONDS_AT: usize = HEAD + SECOND;

const POWERUP_AT: usize = HEAD + POWER_UP;

const PINS_AT: usize = HEAD + PINS;

// A slice record as raw fields: choices and bits as their bytes, contents as words, pins as driver codes.
#[derive(Clone, Copy)]
pub struct Record {
    // Bytes 0 and 1: the slice's number; 0 SLICEL, 1 SLICEM.
    pub number: u8,
    pub kind: u8,
    // For each letter: its mode, its shift data, its contents, its carry data.
    pub modes: [u8; 4],
    pub shifts: [u8; 4],
    pub contents: [u64; 4],
    pub carries: [u8; 4],
    // The carry start.
    pub start: u8,
    // For each letter: its MUX output, what its main and its second flip-flop take.
    pub muxes: [u8; 4],
    pub mains: [u8; 4],
    pub seconds: [u8; 4],
    // Power-up bits; set/reset values; whether the set/reset pin is used.
    pub powerup: u8,
    pub resets: u8,
    pub resettable: u8,
    // Driver codes: A1-A6, B1-B6, C1-C6, D1-D6, AX to DX, CE, SR, WE.
    pub pins: [u16; PIN_COUNT],
}

// Four bytes of a body, a letter's each.
fn letter_bytes(body: &[u8], at: usize) -> [u8; 4]
    requires { at + 4 ≤ length body.now }
    ensures { result ≡ letters (λ l. byte_at body.now (at + l)) }
{
    [body[at], body[at + 1], body[at + 2], body[at + 3]]
}

// The driver codes of a body's pins.
fn pin_codes(body: &[u8]) -> [u16; PIN_COUNT]
    requires { HoldsSlice body.now }
    ensures { result ≡ tabulate 0 pin_count (pin_code body.now) }
{
    let mut codes = [0u16; PIN_COUNT];
    for p in 0..PIN_COUNT {
        codes[p] = slicefile::pin_code(body, p);
    }
    codes
}

// The record that a slice's body holds.
pub fn decode(body: &[u8]) -> Record
    requires { HoldsSlice body.now }
    ensures { result ≡ record_of body.now }
{
    Record {
        number: body[NUMBER],
        kind: body[KIND],
        modes: letter_bytes(body, MODE),
        shifts: letter_bytes(body, SHIFT_DATA),
        contents: [
            slicefile::contents_word(body, 0),
            slicefile::contents_word(body, 1),
            slicefile::contents_word(body, 2),
            slicefile::contents_word(body, 3),
        ],
        carries: letter_bytes(body, CARRY_DATA),
        start: body[CARRY_START],
        muxes: letter_bytes(body, MUX),
        mains: letter_bytes(body, MAIN),
        seconds: letter_bytes(body, SECOND),
        powerup: body[POWER_UP],
        resets: body[SET_RESET_VALUES],
        resettable: body[SET_RESET_USED],
        pins: pin_codes(body),
    }
}

// Stores bytes from an offset on: `copy_from_slice`, with the promise in the words that the callers need.
#[tactic(auto, using(crate::proofs::Stores::sets_part))]
pub fn put_bytes(out: &mut [u8], at: usize, src: &[u8])
    requires { at + length src.now ≤ length out.old }
    ensures { out.new ≡ sets out.old at src.now }
{
    out[at..at + src.len()].copy_from_slice(src);
}

// Stores words of contents, 8 bytes each, low byte first. One function for words and codes would want a trait for `to_le_bytes` with its law, longer than both.
fn put_words(out: &mut [u8], at: usize, words: &[u64])
    requires { at + 8 * length words.now ≤ length out.old }
    ensures { out.new ≡ sets out.old at (all_bytes 8 words.now) }
{
    for (i, word) in words.iter().enumerate() {
        put_bytes(out, at + WORD * i, &word.to_le_bytes());
    }
}

// Stores driver codes, 2 bytes each, low byte first.
fn put_codes(out: &mut [u8], at: usize, codes: &[u16])
    requires { at + 2 * length codes.now ≤ length out.old }
    ensures { out.new ≡ sets out.old at (all_bytes 2 codes.now) }
{
    for (i, code) in codes.iter().enumerate() {
        put_bytes(out, at + CODE * i, &code.to_le_bytes());
    }
}

// The bytes of a record: tag, length, body, field by field.
pub fn encode(slice: Record) -> [u8; SLICE_RECORD]
    ensures { result ≡ record_bytes slice }
{
    let mut out = [0u8; SLICE_RECORD];
    put_bytes(&mut out, 0, &[TAG, LENGTH, 0, slice.number, slice.kind]);
    put_bytes(&mut out, MODES_AT, &slice.modes);
    put_bytes(&mut out, SHIFTS_AT, &slice.shifts);
    put_words(&mut out, CONTENTS_AT, &slice.contents);
    put_bytes(&mut out, CARRIES_AT, &slice.carries);
    put_bytes(&mut out, START_AT, &[slice.start]);
    put_bytes(&mut out, MUXES_AT, &slice.muxes);
    put_bytes(&mut out, MAINS_AT, &slice.mains);
    put_bytes(&mut out, SECONDS_AT, &slice.seconds);
    put_bytes(
        &mut out,
        POWERUP_AT,
        &[slice.powerup, slice.resets, slice.resettable],
    );
    put_codes(&mut out, PINS_AT, &slice.pins);
    out
}
