// A file read and written again, record by record: the writer is lent the part after what is written already.
#![tactic(auto)]

ghost use Rattle.std.specs.Prelude.{◌≡◌, ◌++◌, ◌≤◌, Ok, length, drop};
ghost use Rattle.slicefile.specs.Format.{slice_tag, record_length};
ghost use Rattle.recordcalls.specs.Calls.{read_refusal};
ghost use Rattle.rewrite.specs.Rewrite.{left_by, rewritten};

use column::Sound;
use slicefile::{END, Reason, Refusal, SIZE_BODY, SIZE_RECORD, SIZE_TAG, SLICE_RECORD, Size};

// The header of the size record.
const TAG: u8 = SIZE_TAG as u8;

const LENGTH: u8 = SIZE_BODY as u8;

// Reads a good slice record and writes it at the start of a part. Neither call refuses it, so neither `unwrap` gives up.
fn put_slice(bytes: &[u8], n: usize, m: usize, part: &mut [u8])
    requires { (read_refusal bytes.now n m ≡ Ok tt) × (record_length slice_tag ≤ length part.old) }
    ensures { part.new ≡ bytes.now ++ drop (record_length slice_tag) part.old }
{
    let slice = recordcalls::read_record(bytes, n, m).unwrap();
    recordcalls::write_record(slice, n, m, part).unwrap();
}

// Rewrites the records of a sound file into a buffer of its length. The record calls refuse none of them.
#[tactic(auto, using(crate::proofs::Rewriting::sound_length, crate::proofs::Rewriting::sound_slices, crate::proofs::Rewriting::sound_inputs))]
fn put_records(sound: &Sound, out: &mut [u8])
    requires { length out.old ≡ length sound.now.file.now }
    ensures { out.new ≡ sound.now.file.now }
{
    let Sound { file, n, m } = *sound;
    out[..SIZE_RECORD].copy_from_slice(&[TAG, LENGTH, 0, n as u8, m as u8]);
    for s in 0..n {
        let at = SIZE_RECORD + SLICE_RECORD * s;
        put_slice(&file[at..at + SLICE_RECORD], n, m, &mut out[at..]);
    }
    out[SIZE_RECORD + SLICE_RECORD * n..].copy_from_slice(&END);
}

// Rewrites a file into a lent buffer of its length. A refusal writes nothing.
#[tactic(auto, unfolding(crate::specs::Rewrite::rewritten))]
pub fn rewrite_file(file: &[u8], out: &mut [u8]) -> Result<(), Refusal>
    ensures { (result ≡ rewritten file.now out.old) × (out.new ≡ left_by result file.now out.old) }
{
    let Size { n, m } = column::check_file(file)?;
    if out.len() != file.len() {
        return Err(Reason::WrongBuffer.at(0));
    }
    put_records(&Sound { file, n, m }, out);
    Ok(())
}
