// The walks along an order that settle or edit a value table. They go over the wires of a netlist: its inputs are laid on them first, and the value
// table is read off them last.
#![tactic(auto)]

ghost use Rattle.std.specs.Prelude.{◌≡◌, ◌+◌, ◌*◌, ◌≤◌, ◌<◌, length};
ghost use Rattle.lent.specs.Put.{Put};
ghost use Rattle.netlist.specs.Rule.{bit_at};
ghost use Rattle.netlist.specs.Settle.{is_marked};
ghost use Rattle.netlist.specs.Table.{row_length, signal_limit, signal_count, input_room, input_wire, wire_count, source_of, gate_of};
ghost use Rattle.netlist.specs.Wires.{IsWires, values_on, inputs_on};
ghost use Rattle.evaluation.specs.Numbers.{Bits};
ghost use Rattle.walks.specs.Marked.{NumbersFit, source_reached, any_reached, gate_reached};
ghost use Rattle.walks.specs.Walks.{Walkable, StillWires, FlopsOn, SettledOn, SettledBy, EditedOn, EditedBy};
ghost use Rattle.walks.specs.Props.{Walkable-prop};

use netlist::{FIRST_FLOP, Gates, ROW, SIGNAL_LIMIT, SIGNAL_WIRE, SLICE_SIGNALS, WIRE_LIMIT};

// The gate table of n slices and m outside inputs, and a topological order of its signals, the flip-flops' first.
#[derive(Clone, Copy)]
pub struct Walk<'a> {
    pub gates: Gates<'a>,
    pub m: usize,
    pub order: &'a [u16],
    pub ghost walkable: { Walkable gates.n m gates.table.now order.now } by { Walkable-prop gates.n m gates.table.now order.now },
}

// Lays the two constants and the outside inputs on the wires of n slices.
fn lay_inputs(n: usize, inputs: &[u8], wires: &mut [u8])
    requires n_bound { (signal_count n ≤ signal_limit) × (length wires.old ≡ wire_count n (length inputs.now)) }
    requires bits { Bits inputs.now × Bits wires.old }
    ensures { IsWires n (length inputs.now) wires.new × (inputs_on n wires.new ≡ inputs.now) }
{
    wires[0] = 0;
    wires[1] = 1;
    lent::copy_bytes(&mut wires[SIGNAL_WIRE + SLICE_SIGNALS * n..], inputs);
}

// Lays a value table on wires.
fn lay_values(n: usize, m: usize, values: &[u8], wires: &mut [u8])
    requires { (signal_count n ≤ signal_limit) × (length values.now ≡ signal_count n) × Bits values.now × IsWires n m wires.old }
    ensures { StillWires n m wires.old wires.new × (values_on n wires.new ≡ values.now) }
{
    lent::copy_bytes(&mut wires[SIGNAL_WIRE..SIGNAL_WIRE + values.len()], values);
}

// Reads the value table off the wires.
fn read_values(n: usize, wires: &[u8], values: &mut [u8])
    requires { (signal_count n ≤ signal_limit) × (input_wire n ≤ length wires.now) × (length values.old ≡ signal_count n) }
    ensures { values.new ≡ values_on n wires.now }
{
    lent::copy_bytes(values, &wires[SIGNAL_WIRE..SIGNAL_WIRE + SLICE_SIGNALS * n]);
}

// Puts the eight bits of a byte on wires, from a place on.
fn spread_byte(wires: &mut [u8], at: usize, byte: u8)
    requires { at + 8 ≤ length wires.old }
    ensures { Put (bit_at byte) at 8 wires.old wires.new }
{
    for b in 0..8 {
        wires[at + b] = (byte >> b) % 2;
    }
}

// Puts the stored bits of n slices on the wires of the flip-flops.
fn spread_flops(flops: &[u8], n: usize, m: usize, wires: &mut [u8])
    requires { (signal_count n ≤ signal_limit) × (length flops.now ≡ n) × IsWires n m wires.old }
    ensures { FlopsOn n m flops.now n wires.old wires.new }
{
    for (s, &byte) in flops.iter().enumerate() {
        spread_byte(wires, SIGNAL_WIRE + SLICE_SIGNALS * s + FIRST_FLOP, byte);
    }
}

// Settles the signals on the wires: the flip-flops first, then each in the order's turn is set to its rule.
fn settle_wires(walk: &Walk, contents: &[u64], flops: &[u8], wires: &mut [u8])
    requires { (length flops.now ≡ walk.now.gates.n) × IsWires walk.now.gates.n walk.now.m wires.old }
    ensures { SettledOn walk.now.gates.n walk.now.m walk.now.gates.table.now contents.now flops.now wires.old wires.new }
{
    let Walk { gates, m, order } = *walk;
    spread_flops(flops, gates.n, m, wires);
    for &signal in &order[8 * gates.n..] {
        let x = usize::from(signal);
        let value = evaluation::gate_value(&gates, x, contents, wires);
        wires[SIGNAL_WIRE + x] = value;
    }
}

// Fills the value table with the settled signals, and leaves it on the wires, with the inputs.
pub fn settle_by(
    walk: &Walk,
    contents: &[u64],
    flops: &[u8],
    inputs: &[u8],
    values: &mut [u8],
    wires: &mut [u8],
)
    requires inputs_len { (length inputs.now ≡ walk.now.m) × (length flops.now ≡ walk.now.gates.n) × (length values.old ≡ signal_count walk.now.gates.n) }
    requires wires_len { (length wires.old ≡ wire_count walk.now.gates.n walk.now.m) × Bits inputs.now × Bits wires.old }
    ensures { SettledBy walk.now.gates.n walk.now.gates.table.now contents.now flops.now inputs.now values.new wires.new }
{
    let n = walk.gates.n;
    lay_inputs(n, inputs, wires);
    settle_wires(walk, contents, flops, wires);
    read_values(n, wires, values);
}

// A mark that is set; past the end none is.
fn is_marked(marks: &[u8], x: usize) -> bool
    ensures { result ≡ is_marked marks.now x }
{
    marks.get(x).is_some_and(|&mark| 0 < mark)
}

// Whether the source of a number is a marked input or a marked signal. Both marks are read before their tests count, so that it takes no branch.
fn number_reached(n: usize, number: u16, changed: &[u8], marks: &[u8]) -> bool
    requires n_bound { (signal_count n ≤ signal_limit) × (length changed.now ≡ input_room) × (length marks.now ≡ signal_limit) }
    requires number_bound { number < wire_count n input_room }
    ensures { result ≡ source_reached changed.now marks.now (source_of n number) }
{
    let wire = usize::from(number);
    let first_input = SIGNAL_WIRE + SLICE_SIGNALS * n;
    let mark = marks[wire.saturating_sub(SIGNAL_WIRE) % SIGNAL_LIMIT];
    let change = changed[wire.saturating_sub(first_input)];
    let read = (SIGNAL_WIRE <= wire) & (wire < first_input) & (0 < mark);
    let driven = (first_input <= wire) & (0 < change);
    read | driven
}

// Whether the source of one of the k numbers from place i of a gate table is.
fn any_reached(gates: &Gates, i: usize, k: usize, changed: &[u8], marks: &[u8]) -> bool
    requires changed_len { (length changed.now ≡ input_room) × (length marks.now ≡ signal_limit) }
    requires k_in_bounds { (i + k ≤ length gates.now.table.now) × NumbersFit gates.now.n gates.now.table.now i k }
    ensures { result ≡ any_reached gates.now.n (source_reached changed.now marks.now) gates.now.table.now i k }
{
    let Gates { table, n } = *gates;
    let mut found = false;
    for &number in &table[i..i + k] {
        found |= number_reached(n, number, changed, marks);
    }
    found
}

// Whether the change reaches signal x's gate: it touches a marked input or table, or reads a marked signal.
fn gate_reached(gates: &Gates, x: usize, changed: &[u8], edited: &[u8], marks: &[u8]) -> bool
    requires table { (x < signal_count gates.now.n) × NumbersFit gates.now.n gates.now.table.now (row_length * x + 1) 6 }
    requires changed_len { (length changed.now ≡ input_room) × (length marks.now ≡ signal_limit) }
    ensures { result ≡ gate_reached changed.now edited.now marks.now (gate_of gates.now.table.now gates.now.n x) }
{
    let Gates { table, n } = *gates;
    let at = ROW * x;
    let head = usize::from(table[at]);
    if head < 4 * n {
        let contents = is_marked(edited, head);
        return any_reached(gates, at + 1, 6, changed, marks) | contents;
    }
    if head < 8 * n {
        return is_marked(edited, head - 4 * n);
    }
    if head == 8 * n {
        return any_reached(gates, at + 1, 3, changed, marks);
    }
    if head == 8 * n + 1 {
        return any_reached(gates, at + 1, 2, changed, marks);
    }
    if head == 8 * n + 2 {
        return number_reached(n, table[at + 1], changed, marks);
    }
    false
}

// Recomputes on the wires what depends on a change of the marked inputs and tables, in the order's turn behind the flip-flops, and nothing else.
fn edit_wires(walk: &Walk, contents: &[u64], changed: &[u8], edited: &[u8], wires: &mut [u8])
    requires { IsWires walk.now.gates.n walk.now.m wires.old × (walk.now.m ≤ input_room) × (length changed.now ≡ input_room) }
    ensures { EditedOn walk.now.gates.n walk.now.m walk.now.gates.table.now contents.now changed.now edited.now wires.old wires.new }
{
    let Walk { gates, order, .. } = *walk;
    let mut marks = [0u8; SIGNAL_LIMIT];
    for &signal in &order[8 * gates.n..] {
        let x = usize::from(signal);
        if gate_reached(&gates, x, changed, edited, &marks) {
            let fresh = evaluation::gate_value(&gates, x, contents, wires);
            marks[x] = 1;
            wires[SIGNAL_WIRE + x] = fresh;
        } else {
            marks[x] = 0;
        }
    }
}

// Recomputes what depends on a change of the marked inputs and tables, and nothing else. The inputs and the contents are those after the change.
pub fn edit_by(
    walk: &Walk,
    contents: &[u64],
    inputs: &[u8],
    values: &mut [u8],
    changed: &[u8],
    edited: &[u8],
)
    requires inputs_len { (length inputs.now ≡ walk.now.m) × (length values.old ≡ signal_count walk.now.gates.n) }
    requires m_bound { (walk.now.m ≤ input_room) × (length changed.now ≡ input_room) × Bits inputs.now × Bits values.old }
    ensures { EditedBy walk.now.gates.n walk.now.gates.table.now contents.now inputs.now changed.now edited.now values.old values.new }
{
    let n = walk.gates.n;
    let m = walk.m;
    let count = SIGNAL_WIRE + SLICE_SIGNALS * n + m;
    let mut room = [0u8; WIRE_LIMIT];
    let wires = &mut room[..count];
    lay_inputs(n, inputs, wires);
    lay_values(n, m, values, wires);
    edit_wires(walk, contents, changed, edited, wires);
    read_values(n, wires, values);
}
