// The slice of the 7 series as gates: what each of its 32 signals reads, from the body of its record, as the signal's row in the gate table.
#![tactic(auto, using(sources::proofs::PinLaws::pin_at), unfolding(netlist::specs::Table::code_of, netlist::specs::Table::gate_numbers, crate::specs::Signals::start_source, crate::specs::Signals::carry_in, crate::specs::Signals::carry_source, crate::specs::Signals::wide_gate, crate::specs::Signals::family_gate, crate::specs::Signals::slice_gate))]

ghost use Rattle.std.specs.Prelude.{◌≡◌, [], ◌∷◌, ◌*◌, ◌<◌, eqb};
ghost use Rattle.netlist.specs.Table.{slice_signals, code_of, gate_numbers};
ghost use Rattle.netlist.specs.declared.Gate.TheVariants.{Same};
ghost use Rattle.slicefile.specs.Format.{mode, mux_choice};
ghost use Rattle.sources.specs.Sources.{own, HasPins};
ghost use Rattle.series7.specs.Signals.{mux_signal, mc31_gate, carry_in, carry_source, by_bypass, wide_gate, family_of, slice_gate};

use netlist::{ROW, Source};
use slicefile::{BYPASS_PIN, CARRY_DATA, CARRY_START, MODE, MUX, PIN_COUNT, TABLE_PINS};
use sources::{CARRY_SIGNAL, F7A_SIGNAL, F7B_SIGNAL, O5_SIGNAL, SECOND_SIGNAL, SUM_SIGNAL, Slice};

// A slice's last carry, D's; and what to add to a letter for the carry of the letter before.
const CARRY_OUT: usize = CARRY_SIGNAL + 3;

const CARRY_BEFORE: usize = CARRY_SIGNAL - 1;

// The six pins of a look-up table, for the definitions.
#[derive(Clone, Copy)]
pub struct Pins {
    pub p1: Source,
    pub p2: Source,
    pub p3: Source,
    pub p4: Source,
    pub p5: Source,
    pub p6: Source,
}

// The eight families of four signals of a slice.
#[derive(Clone, Copy)]
pub enum Family {
    O6,
    O5,
    Carry,
    Sum,
    Wide,
    Mux,
    Main,
    Second,
}

// A slice and the numbers of its pins.
#[derive(Clone, Copy)]
pub struct Pinned<'a, 'p> {
    pub slice: Slice<'a>,
    pub pins: &'p [u16; PIN_COUNT],
    pub ghost pinned: { HasPins slice.n slice.m slice.s slice.body.now pins.now },
}

// A row with that head and up to three sources.
fn row_of(head: usize, a: u16, b: u16, c: u16) -> [u16; ROW]
    requires { head < 65536 }
    ensures { result ≡ head ∷ a ∷ b ∷ c ∷ 0 ∷ 0 ∷ 0 ∷ [] }
{
    [head as u16, a, b, c, 0, 0, 0]
}

fn mux_signal(l: usize, choice: u8) -> usize
    requires { l < 4 }
    ensures { (result ≡ mux_signal l choice) × (result < slice_signals) }
{
    match choice {
        0 => O5_SIGNAL + l,
        1 => SUM_SIGNAL + l,
        2 => CARRY_SIGNAL + l,
        3 => sources::wide_signal(l),
        _ => SECOND_SIGNAL + l,
    }
}

// The family of signal k of a slice.
fn family_of(k: usize) -> Family
    ensures { result ≡ family_of k }
{
    match k / 4 {
        0 => Family::O6,
        1 => Family::O5,
        2 => Family::Carry,
        3 => Family::Sum,
        4 => Family::Wide,
        5 => Family::Mux,
        6 => Family::Main,
        _ => Family::Second,
    }
}

impl Pinned<'_, '_> {
    ghost use Rattle.series7.specs.Rows.{letter_row};

    // Where the slice's carry chain starts.
    fn start_number(&self) -> u16
        ensures { result ≡ code_of self.now.slice.n (carry_in self.now.slice.n self.now.slice.m self.now.slice.s self.now.slice.body.now 0) }
    {
        match self.slice.body[CARRY_START] {
            0 => 0,
            1 => 1,
            2 => self.pins[BYPASS_PIN],
            _ => sources::own_number(self.slice.s.saturating_sub(1), CARRY_OUT),
        }
    }

    // The carry coming into a letter.
    fn carry_in(&self, l: usize) -> u16
        requires { l < 4 }
        ensures { result ≡ code_of self.now.slice.n (carry_in self.now.slice.n self.now.slice.m self.now.slice.s self.now.slice.body.now l) }
    {
        if l == 0 {
            self.start_number()
        } else {
            self.slice.own_number(CARRY_BEFORE + l)
        }
    }

    // A letter's carry data.
    fn carry_data(&self, l: usize) -> u16
        requires { l < 4 }
        ensures { result ≡ code_of self.now.slice.n (carry_source self.now.slice.n self.now.slice.m self.now.slice.s self.now.slice.body.now l) }
    {
        if self.slice.body[CARRY_DATA + l] == 0 {
            self.slice.own_number(O5_SIGNAL + l)
        } else {
            self.pins[BYPASS_PIN + l]
        }
    }

    fn o6_row(&self, l: usize) -> [u16; ROW]
        requires { l < 4 }
        ensures { result ≡ letter_row self.now.slice Family.O6 l }
    {
        let table = (4 * self.slice.s + l) as u16;
        let pins = self.pins;
        let first = TABLE_PINS * l;
        if self.slice.body[MODE + l] == 2 {
            // Pin by pin: pin 1 is not read, and the sixth source is 0.
            return [
                table,
                pins[first + 1],
                pins[first + 2],
                pins[first + 3],
                pins[first + 4],
                pins[first + 5],
                0,
            ];
        }
        let mut row = [table, 0, 0, 0, 0, 0, 0];
        row[1..].copy_from_slice(&pins[first..first + TABLE_PINS]);
        row
    }

    fn o5_row(&self, l: usize) -> [u16; ROW]
        requires { l < 4 }
        ensures { result ≡ letter_row self.now.slice Family.O5 l }
    {
        let table = 4 * self.slice.s + l;
        if self.slice.body[MODE + l] == 2 {
            return row_of(4 * self.slice.n + table, 0, 0, 0);
        }
        let pins = self.pins;
        let first = TABLE_PINS * l;
        let mut row = [table as u16, 0, 0, 0, 0, 0, 0];
        row[1..TABLE_PINS].copy_from_slice(&pins[first..first + TABLE_PINS - 1]);
        row
    }

    fn mc31_row(&self) -> [u16; ROW]
        ensures { result ≡ gate_numbers self.now.slice.n (mc31_gate (eqb (mode self.now.slice.body.now 0) 2) (4 * self.now.slice.s)) }
    {
        let table = 4 * self.slice.s;
        if self.slice.body[MODE] == 2 {
            return [table as u16, 1, 1, 1, 1, 1, 0];
        }
        row_of(4 * self.slice.n + table, 0, 0, 0)
    }

    // A multiplexer by a letter's bypass pin.
    fn by_bypass(&self, l: usize, one: usize, other: usize) -> [u16; ROW]
        requires { (l < 4) × (one < slice_signals) × (other < slice_signals) }
        ensures { result ≡ gate_numbers self.now.slice.n (by_bypass self.now.slice.n self.now.slice.m self.now.slice.s self.now.slice.body.now l one other) }
    {
        let select = self.pins[BYPASS_PIN + l];
        let a = self.slice.own_number(one);
        let b = self.slice.own_number(other);
        row_of(8 * self.slice.n, select, a, b)
    }

    // Signals 16 to 19.
    fn wide_row(&self, i: usize) -> [u16; ROW]
        ensures { result ≡ gate_numbers self.now.slice.n (wide_gate self.now.slice.n self.now.slice.m self.now.slice.s self.now.slice.body.now i) }
    {
        match i {
            0 => self.by_bypass(0, 0, 1),
            1 => self.by_bypass(2, 2, 3),
            2 => self.by_bypass(1, F7A_SIGNAL, F7B_SIGNAL),
            _ => self.mc31_row(),
        }
    }

    fn carry_row(&self, l: usize) -> [u16; ROW]
        requires { l < 4 }
        ensures { result ≡ letter_row self.now.slice Family.Carry l }
    {
        let select = self.slice.own_number(l);
        let one = self.carry_in(l);
        let zero = self.carry_data(l);
        row_of(8 * self.slice.n, select, one, zero)
    }

    fn sum_row(&self, l: usize) -> [u16; ROW]
        requires { l < 4 }
        ensures { result ≡ letter_row self.now.slice Family.Sum l }
    {
        let a = self.slice.own_number(l);
        let b = self.carry_in(l);
        row_of(8 * self.slice.n + 1, a, b, 0)
    }

    fn mux_row(&self, l: usize) -> [u16; ROW]
        requires { l < 4 }
        ensures { result ≡ gate_numbers self.now.slice.n (Same (own self.now.slice.s (mux_signal l (mux_choice self.now.slice.body.now l)))) }
    {
        let k = mux_signal(l, self.slice.body[MUX + l]);
        let a = self.slice.own_number(k);
        row_of(8 * self.slice.n + 2, a, 0, 0)
    }

    // The row of a letter's signal in a family.
    fn family_row(&self, f: Family, l: usize) -> [u16; ROW]
        requires { l < 4 }
        ensures { result ≡ letter_row self.now.slice f l }
    {
        let Slice { n, s, .. } = self.slice;
        match f {
            Family::O6 => self.o6_row(l),
            Family::O5 => self.o5_row(l),
            Family::Carry => self.carry_row(l),
            Family::Sum => self.sum_row(l),
            Family::Wide => self.wide_row(l),
            Family::Mux => self.mux_row(l),
            Family::Main => row_of(8 * n + 3 + (8 * s + l), 0, 0, 0),
            Family::Second => row_of(8 * n + 3 + (8 * s + 4 + l), 0, 0, 0),
        }
    }

    // The row of signal k of the slice in the gate table.
    pub fn row_at(&self, k: usize) -> [u16; ROW]
        requires { k < slice_signals }
        ensures { result ≡ gate_numbers self.now.slice.n (slice_gate self.now.slice.n self.now.slice.m self.now.slice.s self.now.slice.body.now k) }
    {
        self.family_row(family_of(k), k % 4)
    }
}
