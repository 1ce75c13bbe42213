// What the calls on an accepted file run on, in one buffer of numbers: the gate table, the numbers of the slices' edges, and an order of the signals.
#![tactic(auto)]

ghost use Rattle.std.specs.Prelude.{◌≡◌, ◌+◌, ◌*◌, ◌≤◌, ◌<◌, length};
ghost use Rattle.lent.specs.Put.{Put};
ghost use Rattle.clocknumbers.specs.Numbers.{edge_length};
ghost use Rattle.netlist.specs.Table.{signal_limit};
ghost use Rattle.column.specs.Compile.{Ready as Netlisted};
ghost use Rattle.plan.specs.Plan.{edges_place, plan_length, plan_limit, plan_table, plan_edges, plan_order, edges_of, Ready, Loaded, Runnable};
ghost use Rattle.plan.specs.Props.{Runnable-prop};

use clocknumbers::EDGE_LENGTH;
use column::{Sound, TABLE_LIMIT};
use netlist::{Gates, SIGNAL_LIMIT, SLICE_NUMBERS, SLICE_SIGNALS};
use slicefile::{SLICE_LIMIT, Size, Verdict};
use walks::Walk;

// The numbers of the longest file's plan.
pub const PLAN_LIMIT: usize = (SLICE_NUMBERS + EDGE_LENGTH + SLICE_SIGNALS) * SLICE_LIMIT;

// The gate table of a plan of n slices.
pub fn table(plan: &[u16], n: usize) -> &[u16]
    requires { (plan_length n ≤ length plan.now) × (plan_length n ≤ plan_limit) }
    ensures { result.now ≡ plan_table plan.now n }
{
    &plan[..SLICE_NUMBERS * n]
}

// The numbers of its slices' edges.
pub fn edges(plan: &[u16], n: usize) -> &[u16]
    requires { (plan_length n ≤ length plan.now) × (plan_length n ≤ plan_limit) }
    ensures { result.now ≡ plan_edges plan.now n }
{
    let at = SLICE_NUMBERS * n;
    &plan[at..at + EDGE_LENGTH * n]
}

// Its order.
pub fn order(plan: &[u16], n: usize) -> &[u16]
    requires { (plan_length n ≤ length plan.now) × (plan_length n ≤ plan_limit) }
    ensures { result.now ≡ plan_order plan.now n }
{
    let at = (SLICE_NUMBERS + EDGE_LENGTH) * n;
    &plan[at..at + SLICE_SIGNALS * n]
}

// A plan of n slices and m outside inputs that can be run on.
#[derive(Clone, Copy)]
pub struct Plan<'a> {
    pub numbers: &'a [u16],
    pub n: usize,
    pub m: usize,
    pub ghost runnable: { Runnable n m numbers.now } by { Runnable-prop n m numbers.now },
}

impl<'a> Plan<'a> {
    // Its gate table.
    pub fn table(&self) -> &'a [u16]
        ensures { result.now ≡ plan_table self.now.numbers.now self.now.n }
    {
        table(self.numbers, self.n)
    }

    // The numbers of its slices' edges.
    pub fn edges(&self) -> &'a [u16]
        ensures { result.now ≡ plan_edges self.now.numbers.now self.now.n }
    {
        edges(self.numbers, self.n)
    }

    // Its order.
    pub fn order(&self) -> &'a [u16]
        ensures { result.now ≡ plan_order self.now.numbers.now self.now.n }
    {
        order(self.numbers, self.n)
    }

    // The walk along its order.
    pub fn walk(&self) -> Walk<'a>
        ensures gates { (result.gates.table.now ≡ plan_table self.now.numbers.now self.now.n) × (result.gates.n ≡ self.now.n) }
        ensures order { (result.order.now ≡ plan_order self.now.numbers.now self.now.n) × (result.m ≡ self.now.m) }
    {
        let gates = Gates {
            table: self.table(),
            n: self.n,
        };
        Walk {
            gates,
            m: self.m,
            order: self.order(),
        }
    }
}

// Puts the numbers of the edges of a sound file's slices behind the gate table.
#[tactic(auto, using(crate::proofs::Numbers::sound_for))]
fn put_edges(sound: &Sound, plan: &mut [u16])
    requires { length plan.old ≡ plan_limit }
    ensures { Put (edges_of sound.now.file.now sound.now.n sound.now.m) (edges_place sound.now.n) (edge_length * sound.now.n) plan.old plan.new }
{
    for s in 0..sound.n {
        let slice = sound.slice(s);
        let at = SLICE_NUMBERS * sound.n + EDGE_LENGTH * s;
        plan[at..at + EDGE_LENGTH].copy_from_slice(&clocknumbers::edge_of(&slice));
    }
}

// Puts the edges' numbers and the order of an accepted file behind its gate table.
fn complete(sound: &Sound, turns: &[u16], plan: &mut [u16])
    requires netlisted { Netlisted sound.now.file.now sound.now.n sound.now.m plan.old turns.now }
    requires turns_len { (length turns.now ≡ signal_limit) × (length plan.old ≡ plan_limit) }
    ensures { Ready sound.now.file.now sound.now.n sound.now.m plan.new }
{
    put_edges(sound, plan);
    let place = (SLICE_NUMBERS + EDGE_LENGTH) * sound.n;
    let count = SLICE_SIGNALS * sound.n;
    plan[place..place + count].copy_from_slice(&turns[..count]);
}

// Judges any bytes, and leaves the plan of an accepted file at the front of the buffer.
pub fn load(file: &[u8], plan: &mut [u16]) -> Verdict
    requires { length plan.old ≡ plan_limit }
    ensures { Loaded file.now plan.new result }
{
    let mut turns = [0u16; SIGNAL_LIMIT];
    let Size { n, m } = column::load(file, &mut plan[..TABLE_LIMIT], &mut turns)?;
    complete(&Sound { file, n, m }, &turns, plan);
    Ok(Size { n, m })
}
