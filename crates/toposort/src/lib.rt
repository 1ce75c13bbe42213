// One path-based search for strongly connected components over a gate table, with no recursion.
#![tactic(auto)]

ghost use Rattle.std.specs.Prelude.{◌≡◌, ◌+◌, ◌*◌, ◌≤◌, ◌<◌, length, get_or, set};
ghost use Rattle.netlist.specs.Graph.{WellFormed};
ghost use Rattle.netlist.specs.Settle.{reads_in};
ghost use Rattle.netlist.specs.Table.{signal_limit, signal_count, IsTable, source_of, gate_of, FlopRows, FlopsFirst};
ghost use Rattle.toposort.specs.Tally.{done_mark};
ghost use Rattle.toposort.specs.Reading.{as_read, read_at, HasPlace, head_of, place_count, first_mark};
ghost use Rattle.toposort.specs.Answer.{OrderOrLoop};
ghost use Rattle.toposort.specs.Search.{with_best, cut_to, first_scan, raised, finished};
ghost use Rattle.toposort.specs.Components.{Unseen, Fresh, FlopsListed, AtPlaces, IsTop, TopReady, Above, Components, Wants, Least};
ghost use Rattle.toposort.specs.Searcher.{gates_in, signals_in, buffers_in, SameOrder, Sound, Stepped};

use netlist::{FIRST_FLOP, Gates, ROW, SIGNAL_LIMIT, SIGNAL_WIRE, SLICE_SIGNALS};

// The mark of an open signal whose six reads are done, and the mark of a done one.
const LAST_MARK: u8 = 7;

const DONE_MARK: u8 = 8;

// The signal that is read where a source has this number.
#[tactic(auto, unfolding(netlist::specs::Table::source_of, crate::specs::Reading::as_read))]
fn read_of(n: usize, code: usize) -> Option<usize>
    requires { signal_count n ≤ signal_limit }
    ensures { result ≡ as_read (source_of n code) }
{
    let signal = (SIGNAL_WIRE <= code) & (code < SIGNAL_WIRE + SLICE_SIGNALS * n);
    if signal {
        Some(code - SIGNAL_WIRE)
    } else {
        None
    }
}

// How many sources a gate with this head reads.
#[tactic(auto, unfolding(crate::specs::Reading::place_count))]
fn place_count(n: usize, head: usize) -> usize
    requires { signal_count n ≤ signal_limit }
    ensures { result ≡ place_count n head }
{
    if head < 4 * n {
        6
    } else if head < 8 * n {
        0
    } else if head == 8 * n {
        3
    } else if head == 8 * n + 1 {
        2
    } else if head == 8 * n + 2 {
        1
    } else {
        0
    }
}

// The signal that x reads at place i, which its gate has, from its sixth source down to its first.
#[tactic(auto, using(crate::proofs::Reading::counted_source))]
fn read_at(gates: &Gates, x: usize, i: usize) -> Option<usize>
    requires { (x < signals_in gates.now) × (i < 6) × HasPlace (gates_in gates.now) x i }
    ensures { result ≡ read_at (gates_in gates.now) x i }
{
    read_of(gates.n, usize::from(gates.table[ROW * x + (6 - i)]))
}

// The mark of signal x when it is opened, past the places that its gate doesn't have.
#[tactic(auto, using(crate::proofs::Reading::places_most))]
fn first_mark(gates: &Gates, x: usize) -> u8
    requires { x < signals_in gates.now }
    ensures { result ≡ first_mark gates.now.n (head_of gates.now.table.now x) }
{
    let head = usize::from(gates.table[ROW * x]);
    LAST_MARK - place_count(gates.n, head) as u8
}

// Where the search stands: the next root to try, how many signals are open, how many are on the stack, how many components
// the stack has, how many signals are done, and the smallest signal known to be on a loop (the number of signals where none is,
// so that the smaller of two is their `min`).
#[derive(Clone, Copy)]
pub struct Scan {
    pub next: usize,
    pub depth: usize,
    pub len: usize,
    pub count: usize,
    pub done: usize,
    pub best: usize,
}

// What the open signal on top asks for next.
#[derive(Clone, Copy)]
pub enum Turn {
    Close(usize),
    Leave,
    Raise,
    Open(usize),
    Merge(usize),
    Meet(usize),
}

// A search: its buffers, each with an entry a signal, and where it stands.
#[derive(Drop)]
struct Searcher<'a> {
    marks: &'a mut [u8],
    pos: &'a mut [u16],
    stack: &'a mut [u16],
    heads: &'a mut [u16],
    path: &'a mut [u16],
    order: &'a mut [u16],
    scan: Scan,
}

impl Searcher<'_> {
    // What the open signal on top asks for. After its sixth read it is done, and where its component begins with it, so is that.
    // A read that is nothing, or in a closed component, raises the mark; an unseen signal is opened; one on the stack before the
    // last component shows that the last two components are one; one in the last component shows that the top is on a loop.
    fn next_turn(&self, gates: &Gates, top: usize) -> Turn
        requires gates { WellFormed (reads_in (gates_in gates.now)) (signals_in gates.now) × AtPlaces (gates_in gates.now) self.now.marks.now }
        requires top_ready { TopReady (signals_in gates.now) (buffers_in self.now) self.now.scan top }
        ensures { Wants (gates_in gates.now) (signals_in gates.now) (buffers_in self.now) self.now.scan top result }
    {
        let head = usize::from(self.heads[self.scan.count - 1]);
        let mark = self.marks[top];
        if mark == LAST_MARK {
            let at = usize::from(self.pos[top]);
            if at == head {
                return Turn::Close(at);
            }
            return Turn::Leave;
        }
        match read_at(gates, top, usize::from(mark) - 1) {
            None => Turn::Raise,
            Some(y) => {
                if self.marks[y] == 0 {
                    return Turn::Open(y);
                }
                let place = usize::from(self.pos[y]);
                if self.scan.len <= place {
                    return Turn::Raise;
                }
                if usize::from(self.stack[place]) == y {
                    if place < head {
                        return Turn::Merge(y);
                    }
                    return Turn::Meet(y);
                }
                Turn::Raise
            }
        }
    }

    // Opens y, a component of its own at the end of the stack.
    fn open_signal(&mut self, gates: &Gates, y: usize)
        requires sound { Sound gates.now self.old }
        requires unseen { (self.old.scan.next < signals_in gates.now) × (y < signals_in gates.now) × (get_or self.old.marks.now y 0 ≡ 0) }
        requires above { Above (gates_in gates.now) self.old.stack.now self.old.scan y }
        ensures { Stepped gates.now self.old self.new }
    {
        self.marks[y] = first_mark(gates, y);
        self.pos[y] = self.scan.len as u16;
        self.stack[self.scan.len] = y as u16;
        self.heads[self.scan.count] = self.scan.len as u16;
        self.path[self.scan.depth] = y as u16;
        self.scan.depth += 1;
        self.scan.len += 1;
        self.scan.count += 1;
    }

    // The top is done: it is listed, and the stack is cut to a length and a count of components.
    fn close_top(&mut self, top: usize, len: usize, count: usize)
        requires top_in_bounds { (top < length self.old.marks.now) × (self.old.scan.done < length self.old.order.now) }
        requires top_lt_signal_limit { (top < signal_limit) × (self.old.scan.done < signal_limit) × (0 < self.old.scan.depth) }
        ensures buffers { (buffers_in self.new ≡ finished (buffers_in self.old) self.old.scan top) × SameOrder self.old self.new }
        ensures scan { self.new.scan ≡ cut_to self.old.scan len count }
    {
        self.marks[top] = DONE_MARK;
        self.order[self.scan.done] = top as u16;
        self.scan.depth -= 1;
        self.scan.len = len;
        self.scan.count = count;
        self.scan.done += 1;
    }

    // The top's read is done: its mark rises, and best is the smallest signal now known to be on a loop.
    fn raise_top(&mut self, top: usize, best: usize)
        requires { (top < length self.old.marks.now) × (top < signal_limit) × (get_or self.old.marks.now top 0 < done_mark) }
        ensures buffers { (buffers_in self.new ≡ raised (buffers_in self.old) top) × SameOrder self.old self.new }
        ensures scan { self.new.scan ≡ with_best self.old.scan best }
    {
        self.marks[top] += 1;
        self.scan.best = best;
    }

    // One turn of the open signal on top.
    fn take_turn(&mut self, gates: &Gates, top: usize)
        requires sound { Sound gates.now self.old }
        requires top { (self.old.scan.next < signals_in gates.now) × IsTop self.old.path.now self.old.scan top }
        ensures { Stepped gates.now self.old self.new }
    {
        match self.next_turn(gates, top) {
            Turn::Close(at) => self.close_top(top, at, self.scan.count - 1),
            Turn::Leave => self.close_top(top, self.scan.len, self.scan.count),
            Turn::Raise => self.raise_top(top, self.scan.best),
            Turn::Open(y) => self.open_signal(gates, y),
            Turn::Merge(_) => self.scan.count -= 1,
            Turn::Meet(_) => self.raise_top(top, self.scan.best.min(top)),
        }
    }

    // One step: a turn of the top, or the next root where nothing is open.
    fn scan_step(&mut self, gates: &Gates)
        requires sound { Sound gates.now self.old }
        requires unfinished { self.old.scan.next < signals_in gates.now }
        ensures { Stepped gates.now self.old self.new }
    {
        if 0 < self.scan.depth {
            let top = usize::from(self.path[self.scan.depth - 1]);
            self.take_turn(gates, top);
        } else if self.marks[self.scan.next] == 0 {
            self.open_signal(gates, self.scan.next);
        } else {
            self.scan.next += 1;
        }
    }

    // The smallest signal on a loop, or the number of signals and a topological order, by a search from marks that are all zero.
    fn scan_all(&mut self, gates: &Gates) -> usize
        requires gates { WellFormed (reads_in (gates_in gates.now)) (signals_in gates.now) × FlopRows gates.now.n gates.now.table.now }
        requires fresh { Fresh (signals_in gates.now) (buffers_in self.old) × (self.old.scan ≡ first_scan gates.now.n) }
        ensures least { Least (gates_in gates.now) (signals_in gates.now) self.new.order.now result }
        ensures order { FlopsFirst gates.now.n self.new.order.now × SameOrder self.old self.new }
    {
        list_flops(gates.n, self.marks, self.order);
        // A step may leave `next` as it is, so no index is counted.
        while self.scan.next < SLICE_SIGNALS * gates.n {
            self.scan_step(gates);
        }
        self.scan.best
    }
}

// Lists the signals of the flip-flops, which read nothing, ascending, and marks them as done.
fn list_flops(n: usize, marks: &mut [u8], order: &mut [u16])
    requires n_bound { (signal_count n ≤ signal_limit) × (length marks.old ≡ signal_count n) × (length order.old ≡ signal_count n) }
    requires unseen { Unseen marks.old }
    ensures { FlopsListed (8 * n) marks.new order.new }
{
    for q in 0..8 * n {
        let x = SLICE_SIGNALS * (q / 8) + (FIRST_FLOP + q % 8);
        marks[x] = DONE_MARK;
        order[q] = x as u16;
    }
}

// A topological order with the flip-flops first, or the smallest signal on a loop as the error, of the netlist of n slices in the gate table, in time
// linear in n.
pub fn order_or_loop(table: &[u16], n: usize, order: &mut [u16]) -> Result<(), usize>
    requires table { IsTable n table.now × FlopRows n table.now × (length order.old ≡ signal_count n) }
    requires well_formed { WellFormed (reads_in (gate_of table.now n)) (signal_count n) }
    ensures { OrderOrLoop (gate_of table.now n) n order.new result }
{
    let mut marks = [0u8; SIGNAL_LIMIT];
    let mut pos = [0u16; SIGNAL_LIMIT];
    let mut stack = [0u16; SIGNAL_LIMIT];
    let mut heads = [0u16; SIGNAL_LIMIT];
    let mut path = [0u16; SIGNAL_LIMIT];
    let size = SLICE_SIGNALS * n;
    let mut searcher = Searcher {
        marks: &mut marks[..size],
        pos: &mut pos[..size],
        stack: &mut stack[..size],
        heads: &mut heads[..size],
        path: &mut path[..size],
        order,
        scan: Scan {
            next: 0,
            depth: 0,
            len: 0,
            count: 0,
            done: 8 * n,
            best: size,
        },
    };
    let best = searcher.scan_all(&Gates { table, n });
    if best < size {
        return Err(best);
    }
    Ok(())
}
