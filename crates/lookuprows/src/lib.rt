// Look-ups in a row, to be timed: what a row gives is a sum over all of them, so that none can be left out. No part of the library.
#![tactic(auto)]

ghost use Rattle.std.specs.Prelude.{◌≡◌, ◌<◌, length};
ghost use Rattle.lookuprows.specs.Rows.{picked, summed};

// The bit that a pick names, `on` places on.
fn picked_bit(contents: &[u64], pick: u16, on: u8) -> u8
    requires { on < 2 }
    ensures { (result ≡ picked contents.now pick on) × (result < 2) }
{
    let k = ((pick % 64) as u8 + on) % 64;
    lookup::contents_bit(contents, usize::from(pick / 64), k)
}

// The sum of the bits that the picks name, each place moved on by the bit before it where the link is 1.
fn row(contents: &[u64], picks: &[u16], link: u8) -> u64
    requires { link < 2 }
    ensures { result ≡ summed contents.now picks.now link (length picks.now) }
{
    let mut sum: u64 = 0;
    let mut bit: u8 = 0;
    for pick in picks {
        bit = picked_bit(contents, *pick, link * bit);
        sum += u64::from(bit);
    }
    sum
}

// Each look-up by itself. C has a name for each of the two, so the link is no parameter of theirs.
pub fn lookups_apart(contents: &[u64], picks: &[u16]) -> u64
    ensures { result ≡ summed contents.now picks.now 0 (length picks.now) }
{
    row(contents, picks, 0)
}

// Each look-up has to wait for the last.
pub fn lookups_chained(contents: &[u64], picks: &[u16]) -> u64
    ensures { result ≡ summed contents.now picks.now 1 (length picks.now) }
{
    row(contents, picks, 1)
}
