// Runs the paper's worked cases on files of one slice, and writes what settles, what the clock leaves and what is refused, a line a case.
#![tactic(auto)]

ghost use Rattle.std.specs.Prelude.{◌<◌};
ghost use Rattle.slicefile.specs.Format.{slice_tag, body_length, pin_count};

use netlist::SLICE_SIGNALS;
use slicefile::{
    BYPASS_PIN, CARRY_DATA, CARRY_START, CODE, CONTENTS, END_TAG, HEAD, KIND, MODE_D, PINS, PINS_D,
    Refusal, SET_RESET_USED, SET_RESET_VALUES, SIZE_BODY, SIZE_RECORD, SIZE_TAG, SLICE_BODY,
    SLICE_COUNT, SLICE_RECORD, SLICE_TAG, SR_PIN, TABLE_PINS, WE_PIN,
};
use std::io;

// A file of one slice: where the slice's record, its body and the end record begin, and its length.
const RECORD: usize = SIZE_RECORD;

const BODY: usize = RECORD + HEAD;

const END_RECORD: usize = RECORD + SLICE_RECORD;

const LENGTH: usize = END_RECORD + HEAD;

type File = [u8; LENGTH];

// Parts of a body that the cases set: the high byte of pin A1, pins D1 to D6, and the pin DX.
const A1_HIGH: usize = PINS + 1;

const D1: usize = PINS + CODE * PINS_D;

const D_END: usize = D1 + CODE * TABLE_PINS;

const DX_PIN: usize = BYPASS_PIN + 3;

// What clocks leave: table D's word and the flip-flop byte.
#[derive(Clone, Copy)]
struct Left {
    word: u64,
    flops: u64,
}

// Base file Z: no outside input, and a body of 124 zero bytes.
fn base() -> File {
    let mut file = [0u8; LENGTH];
    file[0] = SIZE_TAG as u8;
    file[1] = SIZE_BODY as u8;
    file[SLICE_COUNT] = 1;
    file[RECORD] = SLICE_TAG as u8;
    file[RECORD + 1] = SLICE_BODY as u8;
    file[END_RECORD] = END_TAG as u8;
    file
}

// The file with a byte of the body set.
fn set(mut file: File, place: usize, byte: u8) -> File
    requires { place < body_length slice_tag }
{
    file[BODY + place] = byte;
    file
}

// The file with a pin driven by the constant 1: its low byte.
fn drive(file: File, pin: usize) -> File
    requires { pin < pin_count }
{
    set(file, PINS + CODE * pin, 1)
}

// The file with all contents ones.
fn fill(mut file: File) -> File {
    file[BODY + CONTENTS..BODY + CARRY_DATA].fill(255);
    file
}

// The file with the pins D1 to D6 driven by the constant 1: their low bytes.
fn address(mut file: File) -> File {
    for place in (D1..D_END).step_by(CODE) {
        file[BODY + place] = 1;
    }
    file
}

// Table D of a SLICEM in a mode, with DX and WE at 1.
fn writing(mode: u8) -> File {
    let file = set(set(base(), KIND, 1), MODE_D, mode);
    drive(drive(file, DX_PIN), WE_PIN)
}

// SR used and 1, CE 0, with set/reset values.
fn resetting(values: u8) -> File {
    let file = set(set(base(), SET_RESET_VALUES, values), SET_RESET_USED, 1);
    drive(file, SR_PIN)
}

// A space and the number.
fn print_number(rt: &impl Print, n: u64) -> io::Result<()> {
    print!(rt; " {n}")
}

// A refusal: its number and its place.
fn print_refusal(rt: &impl Print, refusal: Refusal) -> io::Result<()> {
    print!(rt; " refused")?;
    print_number(rt, usize::from(refusal.reason) as u64)?;
    print_number(rt, refusal.place as u64)
}

// The numbers of the signals at 1.
fn print_ones(rt: &impl Print, values: &[u8]) -> io::Result<()> {
    for (i, value) in values.iter().enumerate() {
        if *value == 1 {
            print_number(rt, i as u64)?;
        }
    }
    Ok(())
}

// Settles, in a frame of its own: the plan shall not stand on the stack while power up judges.
#[inline(never)]
fn settle(file: &File, contents: &[u64], flops: &[u8], values: &mut [u8]) -> Result<(), Refusal> {
    simulator::settle(file, contents, flops, &[], values)
}

// One clock, in a frame of its own as well.
#[inline(never)]
fn clock(file: &File, contents: &mut [u64], flops: &mut [u8]) -> Result<(), Refusal> {
    let mut values = [0u8; SLICE_SIGNALS];
    simulator::clock(file, contents, flops, &[], &mut values)
}

// What a file settles to from power-up, in the contents lent. The value table starts as ones. Power up's refusal is passed over: settle has the
// same to give.
fn settle_case(rt: &impl Print, label: &str, file: File, contents: &mut [u64]) -> io::Result<()> {
    let mut flops = [0u8; 1];
    let mut values = [1u8; SLICE_SIGNALS];
    calls::power_up(&file, contents, &mut flops).ok();
    print!(rt; "{label}")?;
    match settle(&file, contents, &flops, &mut values) {
        Ok(()) => print_ones(rt, &values)?,
        Err(refusal) => print_refusal(rt, refusal)?,
    }
    println!(rt; "")
}

// What a number of clocks leave from power-up.
fn clocked(file: File, clocks: usize) -> Result<Left, Refusal> {
    let mut contents = [0u64; 4];
    let mut flops = [0u8; 1];
    calls::power_up(&file, &mut contents, &mut flops)?;
    for _ in 0..clocks {
        clock(&file, &mut contents, &mut flops)?;
    }
    Ok(Left {
        word: contents[3],
        flops: u64::from(flops[0]),
    })
}

// A number that clocks leave.
fn print_left(rt: &impl Print, left: Result<u64, Refusal>) -> io::Result<()> {
    match left {
        Ok(n) => print_number(rt, n),
        Err(refusal) => print_refusal(rt, refusal),
    }
}

// Case 5 drives A1 by 4096: its high byte is 16.
fn main(rt: HostRuntime) -> io::Result<()> {
    let mut words = [0u64; 4];
    let mut short = [0u64; 3];
    settle_case(&rt, "case 1:", base(), &mut words)?;
    settle_case(&rt, "case 2:", set(base(), CONTENTS, 1), &mut words)?;
    settle_case(&rt, "case 3:", set(base(), CARRY_START, 1), &mut words)?;
    settle_case(
        &rt,
        "case 4:",
        fill(set(base(), CARRY_START, 1)),
        &mut words,
    )?;
    settle_case(&rt, "case 5:", set(base(), A1_HIGH, 16), &mut words)?;
    settle_case(&rt, "short contents:", base(), &mut short)?;
    print!(rt; "case 9:")?;
    print_left(&rt, clocked(writing(2), 1).map(|left| left.word))?;
    print_left(&rt, clocked(writing(2), 32).map(|left| left.word))?;
    print!(rt; "\ncase 10:")?;
    print_left(&rt, clocked(address(writing(1)), 1).map(|left| left.word))?;
    print!(rt; "\ncase 11:")?;
    print_left(&rt, clocked(resetting(1), 1).map(|left| left.flops))?;
    print_left(&rt, clocked(resetting(255), 1).map(|left| left.flops))?;
    println!(rt; "")
}
