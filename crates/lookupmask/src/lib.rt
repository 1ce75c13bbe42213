// One bit of a table's contents, by a mask: the promise of `lookup`, word for word, with other operations. It stays a crate of its own, to be timed beside that.
#![tactic(auto)]

ghost use Rattle.std.specs.Prelude.{◌≡◌, ◌<◌, get_or};
ghost use Rattle.netlist.specs.Rule.{bit_at};

// Bit `k` of word `table`, 0 past the end.
pub fn contents_bit(contents: &[u64], table: usize, k: u8) -> u8
    requires { k < 64 }
    ensures { result ≡ bit_at (get_or contents.now table 0) k }
{
    let word = contents.get(table).copied().unwrap_or(0);
    let mask: u64 = 1 << k;
    u8::from(word & mask != 0)
}
