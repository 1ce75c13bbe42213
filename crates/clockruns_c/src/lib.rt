// The clocks in a row as C has them: the call of that name in `clockruns`, with the same promise.
#![tactic(auto)]

ghost use Rattle.quagmuffin.specs.Packed.{Answered};
ghost use Rattle.clockruns.specs.Rows.{RunsRow};

// As many clocks as the inputs are for, m bytes each; the buffers are judged as for one clock. The values are those before the last edge.
#[unsafe(no_mangle)]
pub extern "C" fn clocks_in_a_row(
    file: &[u8],
    contents: &mut [u64],
    flops: &mut [u8],
    inputs: &[u8],
    values: &mut [u8],
) -> u64
    ensures { Answered (RunsRow file contents flops inputs values) result }
{
    clockruns::clocks_in_a_row(file, contents, flops, inputs, values)
}
