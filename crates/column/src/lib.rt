// A whole slice file: its records checked, its netlist, and the judge.
#![tactic(auto)]

ghost use Rattle.std.specs.Prelude.{◌≡◌, ◌+◌, ◌*◌, ◌≤◌, ◌<◌, ◌^◌, length, Err};
ghost use Rattle.column.specs.File.{slice_body};
ghost use Rattle.slicefile.specs.Format.{slice_limit};
ghost use Rattle.slicefile.specs.Refusals.{refused};
ghost use Rattle.column.specs.Check.{check_end, check_file, check_from, passed_from, IsSound};
ghost use Rattle.column.specs.Judge.{Judged};
ghost use Rattle.netlist.specs.Table.{slice_signals, signal_limit, signal_count, table_length};
ghost use Rattle.column.specs.Compile.{table_limit, LoweredTo, Lowered, Compiled, Loaded};

use netlist::{SIGNAL_LIMIT, SLICE_NUMBERS, SLICE_SIGNALS};
use series7::Pinned;
use slicefile::{
    END_TAG, HEAD, INPUT_COUNT, Reason, SIZE_RECORD, SLICE_BODY, SLICE_COUNT, SLICE_LIMIT,
    SLICE_RECORD, Size, Verdict,
};
use sources::Slice;

// The longest file.
pub const FILE_LIMIT: usize = SIZE_RECORD + SLICE_RECORD * SLICE_LIMIT + HEAD;

// The numbers of the gate table of the longest file.
pub const TABLE_LIMIT: usize = SLICE_NUMBERS * SLICE_LIMIT;

// How far a check came: what the records say, and how many slices passed.
#[derive(Clone, Copy)]
pub struct Progress {
    pub checked: Verdict,
    pub passed: usize,
}

// A check that stopped at a bad record.
fn stopped(reason: Reason, place: usize, passed: usize) -> Progress
    ensures { (result.checked ≡ Err (refused reason place)) × (result.passed ≡ passed) }
{
    Progress {
        checked: Err(reason.at(place)),
        passed,
    }
}

// The end record at a place of the file, and that nothing follows it.
#[tactic(auto, using(framing::proofs::EndLaws::end_header), unfolding(crate::specs::Check::check_end))]
fn check_end(n: usize, m: usize, place: usize, s: &[u8]) -> Verdict
    requires { place < 2 ^ 32 }
    ensures { result ≡ check_end n m place s.now }
{
    if !framing::is_end(s) {
        framing::header_refusal(END_TAG, s).map_err(|reason| reason.at(place))?;
    }
    if HEAD < s.len() {
        return Err(Reason::BytesAfterEnd.at(place + HEAD));
    }
    Ok(Size { n, m })
}

// Rules 1 to 8 on a whole file, of which some slices passed before.
pub fn check_from(file: &[u8], passed: usize) -> Progress
    requires { passed ≤ slice_limit }
    ensures { (result.checked ≡ check_from passed file.now) × (result.passed ≡ passed_from passed file.now) }
{
    if let Err(reason) = framing::size_refusal(file) {
        return stopped(reason, 0, passed);
    }
    let n = usize::from(file[SLICE_COUNT]);
    let m = usize::from(file[INPUT_COUNT]);
    let mut at = SIZE_RECORD + SLICE_RECORD * passed;
    if file.len() < at {
        return stopped(Reason::Cut, at, passed);
    }
    for s in passed..n {
        if let Err(reason) = framing::slice_refusal(n, m, s, &file[at..]) {
            return stopped(reason, at, s);
        }
        at += SLICE_RECORD;
    }
    Progress {
        checked: check_end(n, m, at, &file[at..]),
        passed: passed.max(n),
    }
}

// Rules 1 to 8 on a whole file.
pub fn check_file(file: &[u8]) -> Verdict
    ensures { result ≡ check_file file.now }
{
    check_from(file, 0).checked
}

// A file whose records are sound, of n slices and m outside inputs.
#[derive(Clone, Copy)]
pub struct Sound<'a> {
    pub file: &'a [u8],
    pub n: usize,
    pub m: usize,
    pub ghost checked: { IsSound file.now n m },
}

impl<'a> Sound<'a> {
    // The body of slice s.
    pub fn slice_body(&self, s: usize) -> &'a [u8]
        requires { s < self.now.n }
        ensures { result.now ≡ slice_body self.now.file.now s }
    {
        let at = SIZE_RECORD + SLICE_RECORD * s + HEAD;
        &self.file[at..at + SLICE_BODY]
    }

    // Slice s.
    pub fn slice(&self, s: usize) -> Slice<'a>
        requires { s < self.now.n }
        ensures sizes { (result.n ≡ self.now.n) × (result.m ≡ self.now.m) × (result.s ≡ s) }
        ensures body { result.body.now ≡ slice_body self.now.file.now s }
    {
        Slice {
            n: self.n,
            m: self.m,
            s,
            body: self.slice_body(s),
        }
    }
}

// Puts the rows of slice s of a sound file into the gate table, after those of the slices before it.
fn lower_slice(sound: &Sound, s: usize, table: &mut [u16])
    requires table_len { (s < sound.now.n) × (length table.old ≡ table_length sound.now.n) }
    requires lowered_to { LoweredTo sound.now.file.now sound.now.n table.old (slice_signals * s) }
    ensures { LoweredTo sound.now.file.now sound.now.n table.new (slice_signals * s + slice_signals) }
{
    let slice = sound.slice(s);
    let pins = slice.pin_numbers();
    let pinned = Pinned { slice, pins: &pins };
    for k in 0..SLICE_SIGNALS {
        let row = pinned.row_at(k);
        netlist::put_row(table, SLICE_SIGNALS * s + k, row);
    }
}

// Puts the netlist of a sound file into the gate table.
fn lower(sound: &Sound, table: &mut [u16])
    requires { length table.old ≡ table_length sound.now.n }
    ensures { Lowered sound.now.file.now sound.now.n table.new }
{
    for s in 0..sound.n {
        lower_slice(sound, s, table);
    }
}

// Lowers a sound file and puts its signals in order, or finds the smallest one on a loop.
fn compile(sound: &Sound, table: &mut [u16], order: &mut [u16]) -> Result<(), usize>
    requires { (length table.old ≡ table_length sound.now.n) × (length order.old ≡ signal_count sound.now.n) }
    ensures { Compiled sound.now.file.now sound.now.n table.new order.new result }
{
    lower(sound, table);
    toposort::order_or_loop(table, sound.n, order)
}

// The verdict on a file whose records are sound, its netlist at the front of the table and an order of its signals at the front of the other.
fn load_sound(sound: &Sound, table: &mut [u16], order: &mut [u16]) -> Verdict
    requires { (length table.old ≡ table_limit) × (length order.old ≡ signal_limit) }
    ensures { Loaded sound.now.file.now table.new order.new result }
{
    let Sound { n, m, .. } = *sound;
    let numbers = SLICE_NUMBERS * n;
    let signals = SLICE_SIGNALS * n;
    match compile(sound, &mut table[..numbers], &mut order[..signals]) {
        Err(signal) => Err(Reason::OnLoop.at(signal)),
        Ok(()) => Ok(Size { n, m }),
    }
}

// Judges any bytes, and leaves what the calls on an accepted file run on: its netlist in the gate table, and an order.
#[tactic(auto, using(crate::proofs::Verdicts::bad_judged))]
pub fn load(file: &[u8], table: &mut [u16], order: &mut [u16]) -> Verdict
    requires { (length table.old ≡ table_limit) × (length order.old ≡ signal_limit) }
    ensures { Loaded file.now table.new order.new result }
{
    let Size { n, m } = check_file(file)?;
    load_sound(&Sound { file, n, m }, table, order)
}

// Judges any bytes. Never inlined: a caller that doesn't get here shall not pay for its arrays.
#[inline(never)]
pub fn judge(file: &[u8]) -> Verdict
    ensures { Judged file.now result }
{
    let mut table = [0u16; TABLE_LIMIT];
    let mut order = [0u16; SIGNAL_LIMIT];
    load(file, &mut table, &mut order)
}
