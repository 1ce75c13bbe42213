// The exported library: each call takes slices and numbers, and answers one number, the answer of the call below it, packed.
#![tactic(auto)]

ghost use Rattle.std.specs.Prelude.{◌≡◌, length};
ghost use Rattle.column.specs.Judge.{Judged};
ghost use Rattle.calls.specs.Calls.{PowersUp};
ghost use Rattle.simulator.specs.Running.{Settles, Clocks};
ghost use Rattle.edits.specs.Edits.{Edits};
ghost use Rattle.quagmuffin.specs.Bodies.{ReadInto, WrittenFrom, RecordRead, RecordWritten};
ghost use Rattle.quagmuffin.specs.Packed.{pack_refusal, pack_answer, pack_verdict, unpack_verdict, FitsRefusal, FitsAnswer, Fits, Packed, Answered};
ghost use Rattle.quagmuffin.specs.Serial.{pack_reply, unpack_reply, state_length, FitsReply, loaded, words_of, FeedsWords};

use editlist::Edit;
use slicefile::{HEAD, Reason, Refusal, SLICE_BODY, SLICE_RECORD, Size, Verdict};
use stream::{Fed, Reader};

// A refusal: its number in the low 8 bits, and above them its place.
fn pack_refusal(refusal: Refusal) -> u64
    requires { FitsRefusal refusal }
    ensures { result ≡ pack_refusal refusal }
{
    (usize::from(refusal.reason) + 256 * refusal.place) as u64
}

// A call's answer.
pub fn pack_answer(answer: Result<(), Refusal>) -> u64
    requires { FitsAnswer answer }
    ensures { result ≡ pack_answer answer }
{
    match answer {
        Ok(()) => 0,
        Err(refusal) => pack_refusal(refusal),
    }
}

// The judge's answer.
fn pack_verdict(verdict: Verdict) -> u64
    requires { Fits verdict }
    ensures { result ≡ pack_verdict verdict }
{
    match verdict {
        Ok(Size { n, m }) => (256 * (n + 65536 * m)) as u64,
        Err(refusal) => pack_refusal(refusal),
    }
}

// Judges any bytes.
#[tactic(auto, using(crate::proofs::Small::judged_small, crate::proofs::Small::small_fits))]
pub fn qm_judge(file: &[u8]) -> u64
    ensures { Packed pack_verdict (Judged file.now) result }
{
    pack_verdict(column::judge(file))
}

// Fills 4n words of contents and n flip-flop bytes with the state at power-up.
#[tactic(auto, using(crate::proofs::Small::called_fits, crate::proofs::Small::power_most))]
pub fn qm_power_up(file: &[u8], contents: &mut [u64], flops: &mut [u8]) -> u64
    ensures { Answered (PowersUp file contents flops) result }
{
    pack_answer(calls::power_up(file, contents, flops))
}

// Fills 32n value bytes with the settled signals.
#[tactic(auto, using(crate::proofs::Small::called_fits, crate::proofs::Small::settle_most))]
pub fn qm_settle(
    file: &[u8],
    contents: &[u64],
    flops: &[u8],
    inputs: &[u8],
    values: &mut [u8],
) -> u64
    ensures { Answered (Settles file contents flops inputs values) result }
{
    pack_answer(simulator::settle(file, contents, flops, inputs, values))
}

// Fills 32n value bytes with the signals settled before the edge, and moves the contents and the flip-flops.
#[tactic(auto, using(crate::proofs::Small::called_fits, crate::proofs::Small::settle_most))]
pub fn qm_clock(
    file: &[u8],
    contents: &mut [u64],
    flops: &mut [u8],
    inputs: &[u8],
    values: &mut [u8],
) -> u64
    ensures { Answered (Clocks file contents flops inputs values) result }
{
    pack_answer(simulator::clock(file, contents, flops, inputs, values))
}

// Makes the edits of a list one after another, and recomputes the signals that depend on any of their changes.
#[tactic(auto, using(crate::proofs::Small::called_fits, crate::proofs::Small::edit_most))]
pub fn qm_edit(
    file: &[u8],
    contents: &mut [u64],
    flops: &[u8],
    inputs: &mut [u8],
    values: &mut [u8],
    edits: &[Edit],
) -> u64
    ensures { Answered (Edits file contents flops inputs values edits.now) result }
{
    pack_answer(edits::edit(file, contents, flops, inputs, values, edits))
}

// Reads a record into a body.
#[tactic(auto, using(recordcalls::proofs::RoundTrip::read_whole, recordcalls::proofs::Answers::read_given), unfolding(crate::specs::Bodies::read_body_refusal, crate::specs::Bodies::body_read, recordcalls::specs::Calls::read_record))]
fn read_body(bytes: &[u8], n: usize, m: usize, body: &mut [u8]) -> Result<(), Refusal>
    ensures { ReadInto bytes.now n m body.old body.new result }
{
    if body.len() != SLICE_BODY {
        return Err(Reason::WrongBuffer.at(0));
    }
    recordcalls::read_record(bytes, n, m)?;
    lent::copy_bytes(body, &bytes[HEAD..SLICE_RECORD]);
    Ok(())
}

// Reads one slice record, of 127 bytes, of a file of n slices and m outside inputs, into a body of 124 bytes.
#[tactic(auto, using(crate::proofs::Small::answer_fits, crate::proofs::Small::read_body_most))]
pub fn qm_read_record(bytes: &[u8], n: usize, m: usize, body: &mut [u8]) -> u64
    ensures { RecordRead bytes.now n m body.old body.new result }
{
    pack_answer(read_body(bytes, n, m, body))
}

// Writes the record with a body.
#[tactic(auto, unfolding(crate::specs::Bodies::write_body_refusal, crate::specs::Bodies::body_written))]
fn write_body(body: &[u8], n: usize, m: usize, part: &mut [u8]) -> Result<(), Refusal>
    ensures { WrittenFrom body.now n m part.old part.new result }
{
    if body.len() != SLICE_BODY {
        return Err(Reason::WrongBuffer.at(0));
    }
    recordcalls::write_record(slicerecord::decode(body), n, m, part)
}

// Writes the record with a body of 124 bytes into the first 127 bytes of a part of a file of n slices and m outside inputs.
#[tactic(auto, using(crate::proofs::Small::answer_fits, crate::proofs::Small::write_body_most))]
pub fn qm_write_record(body: &[u8], n: usize, m: usize, part: &mut [u8]) -> u64
    ensures { RecordWritten body.now n m part.old part.new result }
{
    pack_answer(write_body(body, n, m, part))
}

// The verdict that a number was packed from.
fn unpack_verdict(number: u64) -> Verdict
    ensures { result ≡ unpack_verdict number }
{
    if number % 256 == 0 {
        return Ok(Size {
            n: (number / 256 % 65536) as usize,
            m: (number / 16777216) as usize,
        });
    }
    let reason = Reason::from((number % 256) as usize);
    Err(reason.at((number / 256) as usize))
}

// A reader's reply: 0 is "more".
fn pack_reply(reply: Option<Verdict>) -> u64
    requires { FitsReply reply }
    ensures { result ≡ pack_reply reply }
{
    reply.map_or(0, pack_verdict)
}

// The reply that a number was packed from.
fn unpack_reply(number: u64) -> Option<Verdict>
    ensures { result ≡ unpack_reply number }
{
    (number != 0).then(|| unpack_verdict(number))
}

// The reader of a state, if that has three words.
fn load_reader(state: &[u64]) -> Option<Reader>
    ensures { result ≡ loaded state.now }
{
    let &[len, passed, said] = state else {
        return None;
    };
    Some(Reader {
        len: len as usize,
        passed: passed as usize,
        said: unpack_reply(said),
    })
}

// Stores a reader in a state of three words.
fn store_reader(state: &mut [u64], reader: Reader)
    requires { (length state.old ≡ state_length) × FitsReply reader.said }
    ensures { state.new ≡ words_of reader }
{
    state[0] = reader.len as u64;
    state[1] = reader.passed as u64;
    state[2] = pack_reply(reader.said);
}

// Gives a reader the next run of a file's bytes, and whether no more will come: 0 is "more", else its verdict.
#[tactic(auto, using(crate::proofs::Words::loaded_length, crate::proofs::Words::reply_packs, crate::proofs::Words::said_packs))]
pub fn qm_feed(state: &mut [u64], store: &mut [u8], run: &[u8], last: u8) -> u64
    ensures { FeedsWords state.old store.old run.now last result state.new store.new }
{
    let Some(reader) = load_reader(state) else {
        return pack_refusal(Reason::WrongBuffer.at(0));
    };
    let Fed { reply, reader } = stream::feed(reader, store, run, last != 0);
    store_reader(state, reader);
    pack_reply(reply)
}
