// The gate table read over the wires of a netlist: the number on a row of wires, and what a signal's gate gives.
#![tactic(auto)]

ghost use Rattle.std.specs.Prelude.{◌≡◌, ◌+◌, ◌*◌, ◌^◌, ◌≤◌, ◌<◌, length, get_or};
ghost use Rattle.netlist.specs.Rule.{choose};
ghost use Rattle.netlist.specs.Table.{row_length, signal_count, stored_head};
ghost use Rattle.evaluation.specs.Numbers.{Bits, AreWires, number_on, GateGives};

use netlist::{Gates, ROW};

// The bit on the wire at a number.
pub fn wire(wires: &[u8], number: u16) -> u8
    requires { (number < length wires.now) × Bits wires.now }
    ensures { (result ≡ get_or wires.now number 0) × (result < 2) }
{
    wires[usize::from(number)]
}

// The number on the wires at the k numbers from place i, lowest first.
pub fn number_on(numbers: &[u16], i: usize, k: usize, wires: &[u8]) -> u8
    requires { (i + k ≤ length numbers.now) × (k ≤ 8) × AreWires wires.now numbers.now i k × Bits wires.now }
    ensures { (result ≡ number_on wires.now numbers.now i k) × (result < 2 ^ k) }
{
    let mut number: u8 = 0;
    for j in (0..k).rev() {
        let b = wire(wires, numbers[i + j]);
        number = b + 2 * number;
    }
    number
}

// A multiplexer whose sides are both at hand, so that choosing takes no branch.
fn choose(select: u8, one: u8, zero: u8) -> u8
    ensures { result ≡ choose select one zero }
{
    if select == 0 { zero } else { one }
}

// What signal x's gate gives by the wires. It is no flip-flop's. What a gate but a look-up may give is worked out before its
// head is tested, so that only the test for a look-up is a branch.
pub fn gate_value(gates: &Gates, x: usize, contents: &[u64], wires: &[u8]) -> u8
    requires table { (x < signal_count gates.now.n) × (get_or gates.now.table.now (row_length * x) 0 < stored_head gates.now.n) }
    requires are_wires { AreWires wires.now gates.now.table.now (row_length * x + 1) 6 × Bits wires.now }
    ensures { GateGives contents.now wires.now gates.now.n x gates.now.table.now result }
{
    let Gates { table, n } = *gates;
    let at = ROW * x;
    let head = usize::from(table[at]);
    if head < 4 * n {
        let k = number_on(table, at + 1, 6, wires);
        return lookup::contents_bit(contents, head, k);
    }
    let first = wire(wires, table[at + 1]);
    let second = wire(wires, table[at + 2]);
    let third = wire(wires, table[at + 3]);
    let chosen = choose(first, second, third);
    let sum = (first + second) % 2;
    if head < 8 * n {
        return 0;
    }
    if head == 8 * n {
        return chosen;
    }
    if head == 8 * n + 1 {
        return sum;
    }
    first
}
