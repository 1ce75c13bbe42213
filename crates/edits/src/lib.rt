// The call on a slice file and lent buffers that changes it as it runs: the edits of a list.
#![tactic(auto)]

ghost use Rattle.std.specs.Prelude.{◌≡◌, [], ◌∷◌, ◌<◌, length};
ghost use Rattle.editlist.specs.Listed.{edit_limit, edits_in};
ghost use Rattle.buffers.specs.Buffers.{bad_table_by};
ghost use Rattle.edits.specs.Edits.{change_of, changes_of, bad_edit, bad_edits, Edits, PlanEdits};
ghost use Rattle.edits.specs.Storing.{store, Marks, Storable, AllStorable, Stores};
ghost use Rattle.edits.specs.Words.{handed, Handed};

use buffers::Edges;
use editlist::{EDIT_LIMIT, EDIT_WORDS, Edit, LIST_WORDS};
use plan::{PLAN_LIMIT, Plan};
use slicefile::{INPUT_LIMIT, Refusal, SLICE_LIMIT, Size};

// The most words of contents.
const CONTENTS_LIMIT: usize = 4 * SLICE_LIMIT;

// Whether an edit is of no kind, or its change is not in range.
fn bad_edit(edges: &Edges, m: usize, edit: Edit) -> bool
    ensures { result ≡ bad_edit (bad_table_by edges.now.numbers.now edges.now.n) m edit }
{
    let at = edit.number as usize;
    if edit.kind == 0 {
        return (m <= at) | (1 < edit.value);
    }
    edges.bad_table(at, edit.value) | (1 < edit.kind)
}

// Whether a list of edits is too long, or one of them is bad.
#[tactic(auto, unfolding(crate::specs::Edits::bad_edits))]
fn bad_edits(edges: &Edges, m: usize, edits: &[Edit]) -> bool
    ensures { result ≡ bad_edits (bad_table_by edges.now.numbers.now edges.now.n) m edits.now }
{
    if EDIT_LIMIT < edits.len() {
        return true;
    }
    let mut found = false;
    for edit in edits {
        found |= bad_edit(edges, m, *edit);
    }
    found
}

// Stores the byte or the word of an edit, and marks its input or its table.
#[tactic(auto, using(crate::proofs::Storing::input_stored, crate::proofs::Storing::table_stored))]
fn store_edit(
    edit: Edit,
    contents: &mut [u64],
    inputs: &mut [u8],
    changed: &mut [u8],
    edited: &mut [u8],
)
    requires storable { Storable (length contents.old) (length inputs.old) (change_of edit) }
    requires marks { Marks (store contents.old inputs.old changed.old edited.old) }
    ensures { Stores (change_of edit ∷ []) contents inputs changed edited }
{
    let at = edit.number as usize;
    if edit.kind == 0 {
        inputs[at] = edit.value as u8;
        changed[at] = 1;
    } else {
        contents[at] = edit.value;
        edited[at] = 1;
    }
}

// Stores the edits one after another.
fn store_edits(
    edits: &[Edit],
    contents: &mut [u64],
    inputs: &mut [u8],
    changed: &mut [u8],
    edited: &mut [u8],
)
    requires all_storable { AllStorable (length contents.old) (length inputs.old) (changes_of edits.now) }
    requires marks { Marks (store contents.old inputs.old changed.old edited.old) }
    ensures { Stores (changes_of edits.now) contents inputs changed edited }
{
    for edit in edits {
        store_edit(*edit, contents, inputs, changed, edited);
    }
}

// Edits by a plan.
fn edit_planned(
    plan: &Plan,
    contents: &mut [u64],
    flops: &[u8],
    inputs: &mut [u8],
    values: &mut [u8],
    edits: &[Edit],
) -> Result<(), Refusal>
    ensures { PlanEdits plan.now.numbers.now plan.now.n plan.now.m contents flops inputs values edits.now result }
{
    let edges = Edges {
        numbers: plan.edges(),
        n: plan.n,
    };
    let bad = bad_edits(&edges, plan.m, edits);
    let tested = edges.edit_refusal(bad, plan.m, contents, flops, inputs, values);
    tested.map_err(|reason| reason.at(0))?;
    let mut changed = [0u8; INPUT_LIMIT];
    let mut edited = [0u8; CONTENTS_LIMIT];
    store_edits(edits, contents, inputs, &mut changed, &mut edited);
    walks::edit_by(&plan.walk(), contents, inputs, values, &changed, &edited);
    Ok(())
}

// Makes the edits of a list one after another, and recomputes the signals that depend on any of their changes.
pub fn edit(
    file: &[u8],
    contents: &mut [u64],
    flops: &[u8],
    inputs: &mut [u8],
    values: &mut [u8],
    edits: &[Edit],
) -> Result<(), Refusal>
    ensures { Edits file contents flops inputs values edits.now result }
{
    let mut numbers = [0u16; PLAN_LIMIT];
    let Size { n, m } = plan::load(file, &mut numbers)?;
    let plan = Plan {
        numbers: &numbers,
        n,
        m,
    };
    edit_planned(&plan, contents, flops, inputs, values, edits)
}

// Edit i of a list in words; a kind above a byte's becomes one that is of no kind either.
fn edit_at(words: &[u64; LIST_WORDS], i: usize) -> Edit
    requires { i < edit_limit }
    ensures { result ≡ handed words.now i }
{
    let at = EDIT_WORDS * i;
    Edit {
        kind: u8::try_from(words[at]).unwrap_or(u8::MAX),
        number: words[at + 1],
        value: words[at + 2],
    }
}

// The edits of a list in words, and one more, so that a longer list can be told.
fn list_words(words: &[u64; LIST_WORDS]) -> [Edit; EDIT_LIMIT + 1]
    ensures { Handed words.now edit_limit result }
{
    let none = Edit {
        kind: 0,
        number: 0,
        value: 0,
    };
    let mut edits = [none; EDIT_LIMIT + 1];
    for i in 0..EDIT_LIMIT {
        edits[i] = edit_at(words, i);
    }
    edits
}

// The same with the first `count` edits of a list in words, whatever numbers they hold.
pub fn edit_words(
    file: &[u8],
    contents: &mut [u64],
    flops: &[u8],
    inputs: &mut [u8],
    values: &mut [u8],
    words: [u64; LIST_WORDS],
    count: usize,
) -> Result<(), Refusal>
    ensures { Edits file contents flops inputs values (edits_in words count) result }
{
    let edits = list_words(&words);
    let most = count.min(EDIT_LIMIT + 1);
    edit(file, contents, flops, inputs, values, &edits[..most])
}
