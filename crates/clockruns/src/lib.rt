// Clocks in a row over one loaded plan, to be timed. No part of the library, whose packing of answers it uses.
#![tactic(auto)]

ghost use Rattle.std.specs.Prelude.{◌≡◌, ◌*◌, length};
ghost use Rattle.netlist.specs.Table.{signal_count, wire_count};
ghost use Rattle.evaluation.specs.Numbers.{Bits};
ghost use Rattle.column.specs.Clock.{state_was, state_left};
ghost use Rattle.quagmuffin.specs.Packed.{Answered};
ghost use Rattle.clockruns.specs.Rows.{clock_count, RanPlan, RowPlanned, RunsRow};

use buffers::Edges;
use netlist::{SIGNAL_WIRE, SLICE_SIGNALS, WIRE_LIMIT};
use plan::{PLAN_LIMIT, Plan};
use slicefile::{Refusal, Size};

// How many clocks the inputs are for, m bytes each.
fn clock_count(inputs: &[u8], m: usize) -> usize
    ensures { result ≡ clock_count inputs.now m }
{
    inputs.len().checked_div(m).unwrap_or(0)
}

// Runs k clocks by a plan, on lent wires, for buffers that are not refused.
fn run_clocks(
    plan: &Plan,
    k: usize,
    contents: &mut [u64],
    flops: &mut [u8],
    inputs: &[u8],
    values: &mut [u8],
    wires: &mut [u8],
)
    requires wires_len { (length wires.old ≡ wire_count plan.now.n plan.now.m) × Bits wires.old }
    requires contents_len { (length contents.old ≡ 4 * plan.now.n) × (length flops.old ≡ plan.now.n) × (length values.old ≡ signal_count plan.now.n) }
    requires inputs_len { (length inputs.now ≡ plan.now.m * k) × Bits inputs.now }
    ensures { RanPlan plan.now.numbers.now plan.now.n plan.now.m k (state_was contents flops) (state_left contents flops) inputs.now values.old values.new }
{
    for i in 0..k {
        let at = plan.m * i;
        let part = &inputs[at..at + plan.m];
        simulator::clock_by(plan, contents, flops, part, values, wires);
    }
}

// Runs a row by a plan, on lent wires.
fn row_planned(
    plan: &Plan,
    contents: &mut [u64],
    flops: &mut [u8],
    inputs: &[u8],
    values: &mut [u8],
    wires: &mut [u8],
) -> Result<(), Refusal>
    requires { (length wires.old ≡ wire_count plan.now.n plan.now.m) × Bits wires.old }
    ensures { RowPlanned plan.now.numbers.now plan.now.n plan.now.m (state_was contents flops) (state_left contents flops) inputs.now values.old values.new result }
{
    let k = clock_count(inputs, plan.m);
    let edges = Edges {
        numbers: plan.edges(),
        n: plan.n,
    };
    let count = plan.m * k;
    let tested = edges.settle_refusal(count, contents, flops, inputs, values);
    tested.map_err(|reason| reason.at(0))?;
    run_clocks(plan, k, contents, flops, inputs, values, wires);
    Ok(())
}

// Runs a row of a file that is judged first.
#[tactic(auto, using(simulator::proofs::Planned::wires_fit))]
fn row(
    file: &[u8],
    contents: &mut [u64],
    flops: &mut [u8],
    inputs: &[u8],
    values: &mut [u8],
) -> Result<(), Refusal>
    ensures { RunsRow file contents flops inputs values result }
{
    let mut numbers = [0u16; PLAN_LIMIT];
    let Size { n, m } = plan::load(file, &mut numbers)?;
    let plan = Plan {
        numbers: &numbers,
        n,
        m,
    };
    let mut wires = [0u8; WIRE_LIMIT];
    let count = SIGNAL_WIRE + SLICE_SIGNALS * n + m;
    row_planned(&plan, contents, flops, inputs, values, &mut wires[..count])
}

// As many clocks as the inputs are for, m bytes each; the buffers are judged as for one clock. The values are those before the last edge.
pub fn clocks_in_a_row(
    file: &[u8],
    contents: &mut [u64],
    flops: &mut [u8],
    inputs: &[u8],
    values: &mut [u8],
) -> u64
    ensures { Answered (RunsRow file contents flops inputs values) result }
{
    quagmuffin::pack_answer(row(file, contents, flops, inputs, values))
}
