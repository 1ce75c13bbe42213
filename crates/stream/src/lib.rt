// A file that comes in runs of bytes: a reader says "more", or its verdict as soon as it is certain.
#![tactic(auto)]

ghost use Rattle.std.specs.Prelude.{◌≡◌, true, false, ◌≤◌, length, Some, Err};
ghost use Rattle.slicefile.specs.Format.{slice_limit};
ghost use Rattle.slicefile.specs.Refusals.{refused};
ghost use Rattle.column.specs.File.{file_limit};
ghost use Rattle.stream.specs.Feeding.{foreign, early, StaysInside, overfull, Hears, Takes, Feeds};

use column::FILE_LIMIT;
use slicefile::{
    HEAD, Reason, SIZE_RECORD, SLICE_COUNT, SLICE_LIMIT, SLICE_RECORD, SLICE_TAG, Verdict,
};

// What is handed from call to call besides the store: how many bytes stand in it, how many slices passed, and what was said last: a
// verdict, or that more bytes are needed.
#[derive(Clone, Copy)]
pub struct Reader {
    pub len: usize,
    pub passed: usize,
    pub said: Option<Verdict>,
}

// What a call gives: its reply, which is "more" or a verdict, and the reader for the next one.
#[derive(Clone, Copy)]
pub struct Fed {
    pub reply: Option<Verdict>,
    pub reader: Reader,
}

// What a check says while more bytes may come: a refusal other than `Cut` stays whatever they are.
fn early_reply(checked: Verdict) -> Option<Verdict>
    ensures { result ≡ early checked }
{
    match checked {
        Err(refusal) if refusal.reason == Reason::Cut => None,
        Err(_) => Some(checked),
        Ok(_) => None,
    }
}

// What is said of a full store when more bytes come: a verdict stays, and a file that waits for nothing but its end has bytes after it.
fn overfull_reply(said: Option<Verdict>) -> Option<Verdict>
    ensures { result ≡ overfull said }
{
    said.or(Some(Err(Reason::BytesAfterEnd.at(FILE_LIMIT))))
}

// The reader after bytes that all stand in its store, while more may come.
fn hear(bytes: &[u8], passed: usize) -> Reader
    requires { passed ≤ slice_limit }
    ensures { Hears bytes.now (length bytes.now) passed false result }
{
    let len = bytes.len();
    let progress = column::check_from(bytes, passed);
    let said = early_reply(progress.checked);
    if said.is_some() {
        return Reader { len, passed, said };
    }
    Reader {
        len,
        passed: progress.passed,
        said,
    }
}

// Takes a run into the store of a reader that has given no verdict yet. Where a run has no room, the part of it that has is stored, and the store is
// checked from its start. Never inlined: most runs of a few bytes don't get here, and shall not pay for it.
#[inline(never)]
fn take_run(reader: Reader, store: &mut [u8], run: &[u8], last: bool) -> Reader
    requires { (length store.old ≡ file_limit) × (foreign reader ≡ false) }
    ensures { Takes reader store.old run.now last result store.new }
{
    let at = reader.len;
    let passed = reader.passed;
    let room = FILE_LIMIT - at;
    if room < run.len() {
        lent::copy_bytes(&mut store[at..], &run[..room]);
        let full = hear(store, 0);
        return Reader {
            len: FILE_LIMIT,
            passed,
            said: overfull_reply(full.said),
        };
    }
    let len = at + run.len();
    lent::copy_bytes(&mut store[at..len], run);
    let bytes = &store[..len];
    if last {
        return Reader {
            len,
            passed,
            said: Some(column::judge(bytes)),
        };
    }
    hear(bytes, passed)
}

// Whether the bytes end in the body of the slice behind those that passed, and still do with so many more: then nothing more is certain.
fn stays_inside(bytes: &[u8], passed: usize, more: usize) -> bool
    requires { passed ≤ slice_limit }
    ensures { result ≡ true → StaysInside bytes.now passed more }
{
    let at = SIZE_RECORD + SLICE_RECORD * passed;
    let left = (at + SLICE_RECORD).saturating_sub(bytes.len());
    at + HEAD <= bytes.len()
        && more < left
        && framing::size_refusal(bytes).is_ok()
        && passed < usize::from(bytes[SLICE_COUNT])
        && matches!(
            framing::header_refusal(SLICE_TAG, &bytes[at..]),
            Err(Reason::Cut)
        )
}

// Takes a run. In the body of a slice, where most runs of a few bytes end, there is nothing to check.
fn take(reader: Reader, store: &mut [u8], run: &[u8], last: bool) -> Reader
    requires { (length store.old ≡ file_limit) × (foreign reader ≡ false) }
    ensures { Takes reader store.old run.now last result store.new }
{
    let at = reader.len;
    let passed = reader.passed;
    let waits = stays_inside(&store[..at], passed, run.len());
    if last | !waits {
        return take_run(reader, store, run, last);
    }
    let len = at + run.len();
    lent::copy_bytes(&mut store[at..len], run);
    Reader {
        len,
        passed,
        said: None,
    }
}

// A refusal that leaves the reader as it was.
fn kept(reason: Reason, reader: Reader) -> Fed
    ensures { (result.reply ≡ Some (Err (refused reason 0))) × (result.reader ≡ reader) }
{
    Fed {
        reply: Some(Err(reason.at(0))),
        reader,
    }
}

// Gives a reader the next run, and whether the sender says that there is no more.
pub fn feed(reader: Reader, store: &mut [u8], run: &[u8], last: bool) -> Fed
    ensures { Feeds reader store.old run.now last result store.new }
{
    if store.len() != FILE_LIMIT {
        return kept(Reason::WrongBuffer, reader);
    }
    if reader.said.is_some() {
        return Fed {
            reply: reader.said,
            reader,
        };
    }
    if (FILE_LIMIT < reader.len) | (SLICE_LIMIT < reader.passed) {
        return kept(Reason::OutOfRange, reader);
    }
    let next = take(reader, store, run, last);
    Fed {
        reply: next.said,
        reader: next,
    }
}
