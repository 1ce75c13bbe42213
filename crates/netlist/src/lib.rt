// A netlist of any slice family: what drives a pin, what one signal computes, and the table of numbers that holds the gates.
#![tactic(auto)]

ghost use Rattle.std.specs.Prelude.{◌≡◌, ◌+◌, ◌*◌, ◌≤◌, length};
ghost use Rattle.std.proofs.lemmas.List.Edits.{sets};
ghost use Rattle.netlist.specs.Table.{row_length, IsTable};

// How many signals and how many outside inputs a netlist may have.
pub const SIGNAL_LIMIT: usize = 2048;

pub const INPUT_ROOM: usize = 64;

// The signals of a slice; the numbers of a signal's row in the gate table, its head and six sources; and those of a slice.
// What a gate computes is told by its head, a number, since the plan that holds the table is one buffer of 16-bit numbers of fixed size.
pub const SLICE_SIGNALS: usize = 32;

pub const ROW: usize = 7;

pub const SLICE_NUMBERS: usize = ROW * SLICE_SIGNALS;

// The first of a slice's eight signals that are flip-flops.
pub const FIRST_FLOP: usize = 24;

// A source's number in the gate table is the place of its bit among the wires: the two constants, the signals, the outside inputs. The first signal's
// wire, and the wires of the largest netlist.
pub const SIGNAL_WIRE: usize = 2;

pub const WIRE_LIMIT: usize = SIGNAL_WIRE + SIGNAL_LIMIT + INPUT_ROOM;

// What drives a pin. Signal numbers are absolute.
#[derive(Clone, Copy)]
pub enum Source {
    Constant(bool),
    Input(usize),
    Signal(usize),
}

// What one signal computes, and from what.
#[derive(Clone, Copy)]
pub enum Gate {
    // The contents bit of `table` at the number on p6..p1, p1 lowest.
    Lut {
        table: usize,
        p1: Source,
        p2: Source,
        p3: Source,
        p4: Source,
        p5: Source,
        p6: Source,
    },
    // Always 0, and counted as reading the table's contents.
    ZeroOf(usize),
    // `one` where `select` is 1, `zero` where it is 0.
    Select {
        select: Source,
        one: Source,
        zero: Source,
    },
    Xor(Source, Source),
    Same(Source),
    // A flip-flop: bit slot % 8 of flip-flop byte slot / 8.
    Stored(usize),
}

// The gate table of n slices.
#[derive(Clone, Copy)]
pub struct Gates<'a> {
    pub table: &'a [u16],
    pub n: usize,
    pub ghost is_table: { IsTable n table.now },
}

// Puts signal x's row into the gate table.
pub fn put_row(table: &mut [u16], x: usize, row: [u16; ROW])
    requires { row_length * x + row_length ≤ length table.old }
    ensures { table.new ≡ sets table.old (row_length * x) row }
{
    let at = ROW * x;
    table[at..at + ROW].copy_from_slice(&row);
}
