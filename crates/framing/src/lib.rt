// Refusals 1 to 7 of the records of a file: the header, the size record, a slice and the end.
#![tactic(auto)]

ghost use Rattle.std.specs.Prelude.{◌≡◌, true, ◌↔◌, take};
ghost use Rattle.slicefile.specs.Format.{head_length, body_length, end_record};
ghost use Rattle.framing.specs.Framing.{header_refusal, bad_size, slice_refusal, size_refusal};

use slicefile::{
    END, END_TAG, HEAD, INPUT_COUNT, INPUT_LIMIT, Reason, SIZE_BODY, SIZE_TAG, SLICE_BODY,
    SLICE_COUNT, SLICE_LIMIT, SLICE_RECORD, SLICE_TAG,
};

fn body_length(tag: usize) -> usize
    ensures { result ≡ body_length tag }
{
    if tag == SIZE_TAG {
        return SIZE_BODY;
    }
    if tag == SLICE_TAG {
        return SLICE_BODY;
    }
    0
}

// Refusals 1 to 4 of the record that begins the slice of bytes, up to its body being whole.
#[tactic(auto, unfolding(crate::specs::Framing::header_refusal))]
pub fn header_refusal(due: usize, s: &[u8]) -> Result<(), Reason>
    ensures { result ≡ header_refusal due s.now }
{
    if s.len() < HEAD {
        return Err(Reason::Cut);
    }
    let tag = usize::from(s[0]);
    let known = (SIZE_TAG <= tag) & (tag <= END_TAG);
    if !known {
        return Err(Reason::UnknownTag);
    }
    if tag != due {
        return Err(Reason::NotDue);
    }
    let len = body_length(due);
    let told = usize::from(slicefile::pair_at(s, 1));
    if told != len {
        return Err(Reason::WrongLength);
    }
    if s.len() < HEAD + len {
        return Err(Reason::Cut);
    }
    Ok(())
}

// Refusals 1 to 7 of the record of the slice of a number, which begins the slice of bytes.
#[tactic(auto, using(crate::proofs::RecordLaws::header_whole), unfolding(crate::specs::Framing::slice_refusal))]
pub fn slice_refusal(n: usize, m: usize, number: usize, s: &[u8]) -> Result<(), Reason>
    ensures { result ≡ slice_refusal n m number s.now }
{
    header_refusal(SLICE_TAG, s)?;
    rules::body_refusal(n, m, number, &s[HEAD..SLICE_RECORD])
}

// Rule 5 on a file's slice count and outside inputs.
#[tactic(auto, unfolding(crate::specs::Framing::bad_size))]
pub fn bad_size(n: usize, m: usize) -> bool
    ensures { result ≡ bad_size n m }
{
    (n == 0) | (SLICE_LIMIT < n) | (INPUT_LIMIT < m)
}

// Refusals 1 to 5 of the size record, which begins the slice of bytes.
#[tactic(auto, using(crate::proofs::RecordLaws::header_whole), unfolding(crate::specs::Framing::size_refusal))]
pub fn size_refusal(s: &[u8]) -> Result<(), Reason>
    ensures { result ≡ size_refusal s.now }
{
    header_refusal(SIZE_TAG, s)?;
    let n = usize::from(s[SLICE_COUNT]);
    let m = usize::from(s[INPUT_COUNT]);
    if bad_size(n, m) {
        return Err(Reason::OutsideList);
    }
    Ok(())
}

// Whether the bytes begin with the end record.
pub fn is_end(s: &[u8]) -> bool
    ensures { (result ≡ true) ↔ (take head_length s.now ≡ end_record) }
{
    if s.len() < HEAD {
        return false;
    }
    (s[0] == END[0]) & (s[1] == END[1]) & (s[2] == END[2])
}
