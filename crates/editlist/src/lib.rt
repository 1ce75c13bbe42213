// A lent list of edits, and its words.
#![tactic(auto)]

ghost use Rattle.std.specs.Prelude.{◌≡◌, ◌<◌, length};
ghost use Rattle.editlist.specs.Listed.{edit_limit, list_length, with_edit, listed_count, Listed};

// The most edits of a list.
pub const EDIT_LIMIT: usize = 256;

// The words of an edit in a list of words: its kind, its number, its value.
pub const EDIT_WORDS: usize = 3;

// The words of the longest list.
pub const LIST_WORDS: usize = EDIT_WORDS * EDIT_LIMIT;

// An edit as a host lends it, its kind a number since C has it so: 0 sets outside input `number` to `value`, 1 the contents of table `number`.
#[repr(C)]
#[derive(Clone, Copy)]
pub struct Edit {
    pub kind: u8,
    pub number: u64,
    pub value: u64,
}

// How many edits of a list are put into words: none of one that is too long, since it is refused for that.
fn listed_count(len: usize) -> usize
    ensures { result ≡ listed_count len }
{
    if EDIT_LIMIT < len { 0 } else { len }
}

// Puts edit i into the words.
fn put_edit(words: &mut [u64], i: usize, edit: Edit)
    requires { (i < edit_limit) × (length words.old ≡ list_length) }
    ensures { words.new ≡ with_edit words.old i edit }
{
    let at = EDIT_WORDS * i;
    words[at] = u64::from(edit.kind);
    words[at + 1] = edit.number;
    words[at + 2] = edit.value;
}

// The words of a list of edits.
#[tactic(auto, using(crate::proofs::Listing::count_there, crate::proofs::Listing::listed_next))]
pub fn list_edits(edits: &[Edit]) -> [u64; LIST_WORDS]
    ensures { Listed edits.now (listed_count (length edits.now)) result }
{
    let end = listed_count(edits.len());
    let mut words = [0u64; LIST_WORDS];
    for i in 0..end {
        put_edit(&mut words, i, edits[i]);
    }
    words
}
