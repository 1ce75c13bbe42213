// The record calls: one slice record read from its bytes, and written into a lent part of a file.
#![tactic(auto)]

ghost use Rattle.std.specs.Prelude.{◌≡◌, length};
ghost use Rattle.recordcalls.specs.Calls.{record_refusal, write_refusal, answer_of, read_record, written};

use slicefile::{HEAD, NUMBER, Reason, Refusal, SLICE_RECORD, SLICE_TAG};
use slicerecord::Record;

// Rules 2 to 7 on a record, any number below n being due.
#[tactic(auto, using(framing::proofs::RecordLaws::header_whole), unfolding(crate::specs::Calls::record_refusal))]
fn record_refusal(n: usize, m: usize, s: &[u8]) -> Result<(), Reason>
    ensures { result ≡ record_refusal n m s.now }
{
    framing::header_refusal(SLICE_TAG, s)?;
    let body = &s[HEAD..SLICE_RECORD];
    let number = usize::from(body[NUMBER]);
    if n <= number {
        return Err(Reason::NotDue);
    }
    rules::body_refusal(n, m, number, body)
}

// Reads one slice record, of 127 bytes, of a file of n slices and m outside inputs.
#[tactic(auto, unfolding(crate::specs::Calls::read_refusal, crate::specs::Calls::read_record))]
pub fn read_record(bytes: &[u8], n: usize, m: usize) -> Result<Record, Refusal>
    ensures { result ≡ read_record bytes.now n m }
{
    if bytes.len() != SLICE_RECORD {
        return Err(Reason::WrongBuffer.at(0));
    }
    if framing::bad_size(n, m) {
        return Err(Reason::OutOfRange.at(0));
    }
    record_refusal(n, m, bytes).map_err(|reason| reason.at(0))?;
    Ok(slicerecord::decode(&bytes[HEAD..SLICE_RECORD]))
}

// Writes one slice record into the first 127 bytes of a part of a file of n slices and m outside inputs. A refusal writes nothing.
#[tactic(auto, unfolding(crate::specs::Calls::write_refusal, crate::specs::Calls::written))]
pub fn write_record(slice: Record, n: usize, m: usize, part: &mut [u8]) -> Result<(), Refusal>
    ensures { (result ≡ answer_of (write_refusal slice n m (length part.old))) × (part.new ≡ written slice n m part.old) }
{
    if part.len() < SLICE_RECORD {
        return Err(Reason::WrongBuffer.at(0));
    }
    if framing::bad_size(n, m) {
        return Err(Reason::OutOfRange.at(0));
    }
    let bytes = slicerecord::encode(slice);
    record_refusal(n, m, &bytes).map_err(|reason| reason.at(0))?;
    part[..SLICE_RECORD].copy_from_slice(&bytes);
    Ok(())
}
