// Where a slice takes its bits from: the numbers of its pins and of its own signals, and which of them is "wide".
#![tactic(auto)]

ghost use Rattle.std.specs.Prelude.{◌≡◌, ◌+◌, ◌*◌, ◌<◌, ◌≤◌};
ghost use Rattle.netlist.specs.Table.{slice_signals, signal_wire, code_of};
ghost use Rattle.slicefile.specs.Format.{pin_count, HoldsSlice};
ghost use Rattle.slicefile.specs.Driver.{Within, DecodedWithin};
ghost use Rattle.sources.specs.Sources.{column_limit, input_codes, output_signal, driver_source, decoded_source, pin_source, pin_numbers, wide_signal};

use netlist::{SIGNAL_WIRE, SLICE_SIGNALS};
use slicefile::{Driver, Output, PIN_COUNT, decode_driver, pin_code};

// The signals of a slice beside the O6 outputs, which are 0 to 3; where there is one a letter, that of letter A.
pub const O5_SIGNAL: usize = 4;

pub const CARRY_SIGNAL: usize = 8;

pub const SUM_SIGNAL: usize = 12;

pub const F7A_SIGNAL: usize = 16;

pub const F7B_SIGNAL: usize = 17;

pub const F8_SIGNAL: usize = 18;

pub const MC31_SIGNAL: usize = 19;

pub const MUX_SIGNAL: usize = 20;

pub const MAIN_SIGNAL: usize = 24;

pub const SECOND_SIGNAL: usize = MAIN_SIGNAL + 4;

// How far outputs 4 to 11, the MUX outputs and the main flip-flops, stand below their signals.
const PAST_O6: usize = MUX_SIGNAL - 4;

// Slice s of a file of n slices and m outside inputs, by the body of its record.
#[derive(Clone, Copy)]
pub struct Slice<'a> {
    pub n: usize,
    pub m: usize,
    pub s: usize,
    pub body: &'a [u8],
    pub ghost holds: { HoldsSlice body.now },
    pub ghost few: { n ≤ column_limit },
}

// The signal that is output k of its slice.
fn output_signal(k: usize) -> usize
    requires { k < 12 }
    ensures { (result ≡ output_signal k) × (result < slice_signals) }
{
    if k < 4 { k } else { k + PAST_O6 }
}

// The number of signal k of slice s.
pub fn own_number(s: usize, k: usize) -> u16
    requires { (s < column_limit) × (k < slice_signals) }
    ensures { result ≡ signal_wire + (slice_signals * s + k) }
{
    (SIGNAL_WIRE + SLICE_SIGNALS * s + k) as u16
}

// The number of an output of a slice.
fn output_number(o: Output) -> u16
    requires { (o.slice < column_limit) × (o.output < 12) }
    ensures { result ≡ signal_wire + (slice_signals * o.slice + output_signal o.output) }
{
    own_number(o.slice, output_signal(o.output))
}

// The number of a driver in the gate table of n slices.
#[tactic(auto, unfolding(netlist::specs::Table::code_of))]
fn driver_number(n: usize, d: Driver) -> u16
    requires { (n ≤ column_limit) × Within n input_codes d }
    ensures { result ≡ code_of n (driver_source d) }
{
    match d {
        Driver::Constant(b) => u16::from(b),
        Driver::Open => 1,
        Driver::Input(j) => (SIGNAL_WIRE + SLICE_SIGNALS * n + j) as u16,
        Driver::Output(o) => output_number(o),
    }
}

#[tactic(auto, unfolding(netlist::specs::Table::code_of))]
fn decoded_number(n: usize, d: Option<Driver>) -> u16
    requires { (n ≤ column_limit) × DecodedWithin n input_codes d }
    ensures { result ≡ code_of n (decoded_source d) }
{
    match d {
        Some(driver) => driver_number(n, driver),
        None => 0,
    }
}

impl Slice<'_> {
    // The number of its signal k.
    pub fn own_number(&self, k: usize) -> u16
        requires { (self.now.s < column_limit) × (k < slice_signals) }
        ensures { result ≡ signal_wire + (slice_signals * self.now.s + k) }
    {
        own_number(self.s, k)
    }

    // The number of where its pin p takes its bit from.
    #[tactic(auto, using(crate::proofs::InputCodes::code_within), unfolding(crate::specs::Sources::pin_source))]
    pub fn pin_number(&self, p: usize) -> u16
        requires { p < pin_count }
        ensures { result ≡ code_of self.now.n (pin_source self.now.n self.now.m self.now.body.now p) }
    {
        decoded_number(
            self.n,
            decode_driver(pin_code(self.body, p), self.n, self.m),
        )
    }

    // The numbers of all its pins.
    #[tactic(auto, using(slicefile::proofs::Tabulate::tabulated), unfolding(crate::specs::Sources::pin_numbers))]
    pub fn pin_numbers(&self) -> [u16; PIN_COUNT]
        ensures { result ≡ pin_numbers self.now.n self.now.m self.now.body.now }
    {
        let mut numbers = [0u16; PIN_COUNT];
        for (p, number) in numbers.iter_mut().enumerate() {
            *number = self.pin_number(p);
        }
        numbers
    }
}

// The signal that is "wide" for a letter.
pub fn wide_signal(l: usize) -> usize
    ensures { (result ≡ wide_signal l) × (result < slice_signals) }
{
    match l {
        0 => F7A_SIGNAL,
        1 => F8_SIGNAL,
        2 => F7B_SIGNAL,
        _ => MC31_SIGNAL,
    }
}
