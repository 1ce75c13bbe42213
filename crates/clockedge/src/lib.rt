// One clock edge, from the plain numbers of the slices: what it does to their flip-flop bytes and contents words. The numbers of sources are wires,
// on which the table settled before the edge stands.
#![tactic(auto)]

ghost use Rattle.std.specs.Prelude.{◌≡◌, ◌+◌, ◌*◌, ◌<◌, ◌≤◌, length, get_or, set};
ghost use Rattle.netlist.specs.Rule.{bit_at};
ghost use Rattle.series7.specs.Edge.{with_bit, shifted};
ghost use Rattle.slicefile.specs.Format.{slice_limit};
ghost use Rattle.clockedge.specs.Moves.{EdgeFits, EdgesFit, flops_by, word_by, words_by, bytes_by};
ghost use Rattle.clockedge.specs.Moved.{Moved};

use clocknumbers::{
    ADDRESS, DATA, EDGE_LENGTH, ENABLE, FLOPS, KINDS, RESET, TableKind, VALUES, WRITE,
};

// The flip-flop byte of a slice after the edge.
fn next_flops(edge: &[u16], wires: &[u8], old: u8) -> u8
    requires { EdgeFits wires.now edge.now }
    ensures { result ≡ flops_by wires.now edge.now old }
{
    if evaluation::wire(wires, edge[RESET]) == 1 {
        (edge[VALUES] % 256) as u8
    } else if evaluation::wire(wires, edge[ENABLE]) == 1 {
        evaluation::number_on(edge, FLOPS, 8, wires)
    } else {
        old
    }
}

// A word with bit i set to b.
fn with_bit(word: u64, i: u8, b: u8) -> u64
    requires { (i < 64) × (b < 2) }
    ensures { result ≡ with_bit word i b }
{
    let power = 1u64 << i;
    let was = (word >> i) % 2;
    word - was * power + u64::from(b) * power
}

// A word with d put in at bit 0 and bit 31 lost.
fn shifted_word(word: u64, d: u8) -> u64
    requires { d < 2 }
    ensures { result ≡ shifted word d }
{
    2 * (word % 2147483648) + u64::from(d)
}

fn bit_31(word: u64) -> u8
    ensures { (result ≡ bit_at word 31) × (result < 2) }
{
    ((word >> 31) % 2) as u8
}

// Letter l's word after the edge; `next` is the next letter's word before it.
fn next_word(edge: &[u16], l: usize, wires: &[u8], old: u64, next: u64) -> u64
    requires { EdgeFits wires.now edge.now × (l < 4) }
    ensures { result ≡ word_by wires.now edge.now l old next }
{
    let enable = evaluation::wire(wires, edge[WRITE]);
    if enable != 1 {
        return old;
    }
    match TableKind::from(edge[KINDS + l]) {
        TableKind::Logic => old,
        TableKind::Memory => {
            let address = evaluation::number_on(edge, ADDRESS, 6, wires);
            with_bit(old, address, evaluation::wire(wires, edge[DATA + l]))
        }
        TableKind::Shift => shifted_word(old, evaluation::wire(wires, edge[DATA + l])),
        TableKind::ShiftFromNext => shifted_word(old, bit_31(next)),
    }
}

// Moves the words of slice s, ascending, so that each letter still sees the next one's word before the edge.
fn move_words(edge: &[u16], s: usize, wires: &[u8], contents: &mut [u64])
    requires { EdgeFits wires.now edge.now × (4 * s + 4 ≤ length contents.old) }
    ensures { Moved wires.now edge.now s 4 contents.old contents.new }
{
    for l in 0..4 {
        let at = 4 * s + l;
        let next = contents.get(at + 1).copied().unwrap_or(0);
        contents[at] = next_word(edge, l, wires, contents[at], next);
    }
}

// Moves slice s: its contents words and its flip-flop byte.
fn move_slice(edge: &[u16], s: usize, wires: &[u8], contents: &mut [u64], flops: &mut [u8])
    requires { EdgeFits wires.now edge.now × (4 * s + 4 ≤ length contents.old) × (s < length flops.old) }
    ensures moved { Moved wires.now edge.now s 4 contents.old contents.new }
    ensures flops_value { flops.new ≡ set flops.old s (flops_by wires.now edge.now (get_or flops.old s 0)) }
{
    move_words(edge, s, wires, contents);
    flops[s] = next_flops(edge, wires, flops[s]);
}

// Moves the state of n slices over the clock edge. All move together, from the table on the wires.
pub fn move_all(edges: &[u16], n: usize, wires: &[u8], contents: &mut [u64], flops: &mut [u8])
    requires n_le_slice_limit { (n ≤ slice_limit) × EdgesFit n wires.now edges.now }
    requires contents_len { (length contents.old ≡ 4 * n) × (length flops.old ≡ n) }
    ensures contents_value { contents.new ≡ words_by wires.now edges.now n contents.old }
    ensures flops_value { flops.new ≡ bytes_by wires.now edges.now n flops.old }
{
    for s in 0..n {
        let at = EDGE_LENGTH * s;
        move_slice(&edges[at..at + EDGE_LENGTH], s, wires, contents, flops);
    }
}
