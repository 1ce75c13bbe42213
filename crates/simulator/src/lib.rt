// The calls on a slice file and lent buffers that run it: settle and clock.
#![tactic(auto)]

ghost use Rattle.std.specs.Prelude.{◌≡◌, ◌*◌, length};
ghost use Rattle.netlist.specs.Table.{signal_count, wire_count};
ghost use Rattle.evaluation.specs.Numbers.{Bits};
ghost use Rattle.column.specs.Clock.{state_of, state_was, state_left};
ghost use Rattle.simulator.specs.Running.{SettlePlanned, ClockPlanned, Clocked, Settles, Clocks};

use buffers::Edges;
use netlist::{SIGNAL_WIRE, SLICE_SIGNALS, WIRE_LIMIT};
use plan::{PLAN_LIMIT, Plan};
use slicefile::{Refusal, Size};

// Settles by a plan, on lent wires.
fn settle_planned(
    plan: &Plan,
    contents: &[u64],
    flops: &[u8],
    inputs: &[u8],
    values: &mut [u8],
    wires: &mut [u8],
) -> Result<(), Refusal>
    requires { (length wires.old ≡ wire_count plan.now.n plan.now.m) × Bits wires.old }
    ensures { SettlePlanned plan.now.numbers.now plan.now.n plan.now.m (state_of contents.now flops.now) inputs.now values.old values.new result }
{
    let edges = Edges {
        numbers: plan.edges(),
        n: plan.n,
    };
    let tested = edges.settle_refusal(plan.m, contents, flops, inputs, values);
    tested.map_err(|reason| reason.at(0))?;
    walks::settle_by(&plan.walk(), contents, flops, inputs, values, wires);
    Ok(())
}

// Fills 32n value bytes with the settled signals.
#[tactic(auto, using(crate::proofs::Planned::wires_fit))]
pub fn settle(
    file: &[u8],
    contents: &[u64],
    flops: &[u8],
    inputs: &[u8],
    values: &mut [u8],
) -> Result<(), Refusal>
    ensures { Settles file contents flops inputs values result }
{
    let mut numbers = [0u16; PLAN_LIMIT];
    let Size { n, m } = plan::load(file, &mut numbers)?;
    let plan = Plan {
        numbers: &numbers,
        n,
        m,
    };
    let mut wires = [0u8; WIRE_LIMIT];
    let count = SIGNAL_WIRE + SLICE_SIGNALS * n + m;
    settle_planned(&plan, contents, flops, inputs, values, &mut wires[..count])
}

// One clock by a plan, on lent wires, for buffers that are not refused.
pub fn clock_by(
    plan: &Plan,
    contents: &mut [u64],
    flops: &mut [u8],
    inputs: &[u8],
    values: &mut [u8],
    wires: &mut [u8],
)
    requires inputs_len { (length inputs.now ≡ plan.now.m) × (length wires.old ≡ wire_count plan.now.n plan.now.m) }
    requires contents_len { (length contents.old ≡ 4 * plan.now.n) × (length flops.old ≡ plan.now.n) × (length values.old ≡ signal_count plan.now.n) }
    requires bits { Bits inputs.now × Bits wires.old }
    ensures { Clocked plan.now.numbers.now plan.now.n (state_was contents flops) (state_left contents flops) inputs.now values.new wires.new }
{
    walks::settle_by(&plan.walk(), contents, flops, inputs, values, wires);
    clockedge::move_all(plan.edges(), plan.n, wires, contents, flops);
}

// Clocks by a plan, on lent wires.
fn clock_planned(
    plan: &Plan,
    contents: &mut [u64],
    flops: &mut [u8],
    inputs: &[u8],
    values: &mut [u8],
    wires: &mut [u8],
) -> Result<(), Refusal>
    requires { (length wires.old ≡ wire_count plan.now.n plan.now.m) × Bits wires.old }
    ensures { ClockPlanned plan.now.numbers.now plan.now.n plan.now.m (state_was contents flops) (state_left contents flops) inputs.now values.old values.new result }
{
    let edges = Edges {
        numbers: plan.edges(),
        n: plan.n,
    };
    let tested = edges.settle_refusal(plan.m, contents, flops, inputs, values);
    tested.map_err(|reason| reason.at(0))?;
    clock_by(plan, contents, flops, inputs, values, wires);
    Ok(())
}

// Fills 32n value bytes with the signals settled before the edge, and moves the contents and the flip-flops.
#[tactic(auto, using(crate::proofs::Planned::wires_fit))]
pub fn clock(
    file: &[u8],
    contents: &mut [u64],
    flops: &mut [u8],
    inputs: &[u8],
    values: &mut [u8],
) -> Result<(), Refusal>
    ensures { Clocks file contents flops inputs values result }
{
    let mut numbers = [0u16; PLAN_LIMIT];
    let Size { n, m } = plan::load(file, &mut numbers)?;
    let plan = Plan {
        numbers: &numbers,
        n,
        m,
    };
    let mut wires = [0u8; WIRE_LIMIT];
    let count = SIGNAL_WIRE + SLICE_SIGNALS * n + m;
    clock_planned(&plan, contents, flops, inputs, values, &mut wires[..count])
}
