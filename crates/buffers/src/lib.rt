// The buffers and arguments lent to a call: refusals 10 and 11. What the file says of them, its tables' kinds, stands among the numbers of its plan.
#![tactic(auto)]

ghost use Rattle.std.specs.Prelude.{◌≡◌, ◌*◌, ◌<◌, ◌≤◌, length};
ghost use Rattle.slicefile.specs.Format.{slice_limit};
ghost use Rattle.clocknumbers.specs.Numbers.{edge_length};
ghost use Rattle.column.specs.Clock.{state_of};
ghost use Rattle.buffers.specs.Buffers.{bad_state, bad_lengths, bad_bytes, bad_word_by, bad_words_by, settle_refusal_by, edit_refusal_by, bad_table_by};

use clocknumbers::{EDGE_LENGTH, KINDS, TableKind};
use netlist::SLICE_SIGNALS;
use slicefile::Reason;

// Whether the contents or the flip-flops have another length than n slices take.
#[tactic(auto, unfolding(crate::specs::Buffers::bad_state))]
pub fn bad_state(n: usize, contents: &[u64], flops: &[u8]) -> bool
    requires { n ≤ slice_limit }
    ensures { result ≡ bad_state n (state_of contents.now flops.now) }
{
    (contents.len() != 4 * n) | (flops.len() != n)
}

// Whether any of the four buffers has another length than named.
#[tactic(auto, unfolding(crate::specs::Buffers::bad_lengths))]
fn bad_lengths(
    n: usize,
    m: usize,
    contents: &[u64],
    flops: &[u8],
    inputs: &[u8],
    values: &[u8],
) -> bool
    requires { n ≤ slice_limit }
    ensures { result ≡ bad_lengths n m (state_of contents.now flops.now) inputs.now values.now }
{
    bad_state(n, contents, flops) | (inputs.len() != m) | (values.len() != SLICE_SIGNALS * n)
}

// Whether a byte is neither 0 nor 1.
#[tactic(auto, using(slicefile::proofs::Tests::any_next), unfolding(slicefile::specs::Lists::any_below, crate::specs::Buffers::bad_bytes))]
fn bad_bytes(bytes: &[u8]) -> bool
    ensures { result ≡ bad_bytes bytes.now }
{
    let mut found = false;
    for &byte in bytes {
        found = (1 < byte) | found;
    }
    found
}

// The numbers of the edges of n slices.
#[derive(Clone, Copy)]
pub struct Edges<'a> {
    pub numbers: &'a [u16],
    pub n: usize,
    pub ghost few: { n ≤ slice_limit },
    pub ghost whole: { length numbers.now ≡ edge_length * n },
}

impl<'a> Edges<'a> {
    // Whether a word has bits 32 to 63 set while table t is in shift mode, by the kinds among the numbers.
    fn bad_word(&self, t: usize, word: u64) -> bool
        requires { t < 4 * self.now.n }
        ensures { result ≡ bad_word_by self.now.numbers.now t word }
    {
        let kind = TableKind::from(self.numbers[EDGE_LENGTH * (t / 4) + KINDS + t % 4]);
        matches!(kind, TableKind::Shift | TableKind::ShiftFromNext) & (4294967296 <= word)
    }

    // Whether any word does.
    #[tactic(auto, using(slicefile::proofs::Tests::any_next), unfolding(slicefile::specs::Lists::any_below, crate::specs::Buffers::bad_words_by))]
    fn bad_words(&self, contents: &[u64]) -> bool
        requires { length contents.now ≡ 4 * self.now.n }
        ensures { result ≡ bad_words_by self.now.numbers.now contents.now }
    {
        let mut found = false;
        for (t, &word) in contents.iter().enumerate() {
            found = self.bad_word(t, word) | found;
        }
        found
    }

    // Whether a table is not there, or its mode does not allow the word.
    pub fn bad_table(&self, table: usize, word: u64) -> bool
        ensures { result ≡ bad_table_by self.now.numbers.now self.now.n table word }
    {
        if 4 * self.n <= table {
            return true;
        }
        self.bad_word(table, word)
    }

    // The refusal of settling and clocking these slices with m outside inputs, if there is one.
    pub fn settle_refusal(
        &self,
        m: usize,
        contents: &[u64],
        flops: &[u8],
        inputs: &[u8],
        values: &[u8],
    ) -> Result<(), Reason>
        ensures { result ≡ settle_refusal_by (bad_words_by self.now.numbers.now contents.now) (state_of contents.now flops.now) inputs.now values.now self.now.n m }
    {
        if bad_lengths(self.n, m, contents, flops, inputs, values) {
            return Err(Reason::WrongBuffer);
        }
        let bytes = bad_bytes(inputs);
        let words = self.bad_words(contents);
        if bytes | words {
            return Err(Reason::OutOfRange);
        }
        Ok(())
    }

    // The refusal of an edit call, whose list is bad or not, if there is one: that of settling, then the values and the list.
    #[tactic(auto, using(crate::proofs::Splits::edit_splits))]
    pub fn edit_refusal(
        &self,
        bad: bool,
        m: usize,
        contents: &[u64],
        flops: &[u8],
        inputs: &[u8],
        values: &[u8],
    ) -> Result<(), Reason>
        ensures { result ≡ edit_refusal_by bad (bad_words_by self.now.numbers.now contents.now) (state_of contents.now flops.now) inputs.now values.now self.now.n m }
    {
        self.settle_refusal(m, contents, flops, inputs, values)?;
        let bytes = bad_bytes(values);
        if bytes | bad {
            return Err(Reason::OutOfRange);
        }
        Ok(())
    }
}
