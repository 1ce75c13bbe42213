// The calls of the library as C has them: each is the call of its name in `quagmuffin`, with the same promise.
#![tactic(auto)]

ghost use Rattle.column.specs.Judge.{Judged};
ghost use Rattle.calls.specs.Calls.{PowersUp};
ghost use Rattle.simulator.specs.Running.{Settles, Clocks};
ghost use Rattle.edits.specs.Edits.{Edits};
ghost use Rattle.quagmuffin.specs.Bodies.{RecordRead, RecordWritten};
ghost use Rattle.quagmuffin.specs.Packed.{pack_verdict, Packed, Answered};
ghost use Rattle.quagmuffin.specs.Serial.{FeedsWords};

use editlist::Edit;

// Judges any bytes.
#[unsafe(no_mangle)]
pub extern "C" fn qm_judge(file: &[u8]) -> u64
    ensures { Packed pack_verdict (Judged file.now) result }
{
    quagmuffin::qm_judge(file)
}

// Fills 4n words of contents and n flip-flop bytes with the state at power-up.
#[unsafe(no_mangle)]
pub extern "C" fn qm_power_up(file: &[u8], contents: &mut [u64], flops: &mut [u8]) -> u64
    ensures { Answered (PowersUp file contents flops) result }
{
    quagmuffin::qm_power_up(file, contents, flops)
}

// Fills 32n value bytes with the settled signals.
#[unsafe(no_mangle)]
pub extern "C" fn qm_settle(
    file: &[u8],
    contents: &[u64],
    flops: &[u8],
    inputs: &[u8],
    values: &mut [u8],
) -> u64
    ensures { Answered (Settles file contents flops inputs values) result }
{
    quagmuffin::qm_settle(file, contents, flops, inputs, values)
}

// Fills 32n value bytes with the signals settled before the edge, and moves the contents and the flip-flops.
#[unsafe(no_mangle)]
pub extern "C" fn qm_clock(
    file: &[u8],
    contents: &mut [u64],
    flops: &mut [u8],
    inputs: &[u8],
    values: &mut [u8],
) -> u64
    ensures { Answered (Clocks file contents flops inputs values) result }
{
    quagmuffin::qm_clock(file, contents, flops, inputs, values)
}

// Makes the edits of a list one after another, and recomputes the signals that depend on any of their changes.
#[unsafe(no_mangle)]
pub extern "C" fn qm_edit(
    file: &[u8],
    contents: &mut [u64],
    flops: &[u8],
    inputs: &mut [u8],
    values: &mut [u8],
    edits: &[Edit],
) -> u64
    ensures { Answered (Edits file contents flops inputs values edits.now) result }
{
    quagmuffin::qm_edit(file, contents, flops, inputs, values, edits)
}

// Reads one slice record, of 127 bytes, of a file of n slices and m outside inputs, into a body of 124 bytes.
#[unsafe(no_mangle)]
pub extern "C" fn qm_read_record(bytes: &[u8], n: usize, m: usize, body: &mut [u8]) -> u64
    ensures { RecordRead bytes.now n m body.old body.new result }
{
    quagmuffin::qm_read_record(bytes, n, m, body)
}

// Writes the record with a body of 124 bytes into the first 127 bytes of a part of a file of n slices and m outside inputs.
#[unsafe(no_mangle)]
pub extern "C" fn qm_write_record(body: &[u8], n: usize, m: usize, part: &mut [u8]) -> u64
    ensures { RecordWritten body.now n m part.old part.new result }
{
    quagmuffin::qm_write_record(body, n, m, part)
}

// Gives a reader the next run of a file's bytes, and whether no more will come: 0 is "more", else its verdict.
#[unsafe(no_mangle)]
pub extern "C" fn qm_feed(state: &mut [u64], store: &mut [u8], run: &[u8], last: u8) -> u64
    ensures { FeedsWords state.old store.old run.now last result state.new store.new }
{
    quagmuffin::qm_feed(state, store, run, last)
}
