// The look-ups in a row as C has them: each is the call of its name in `lookuprows`, with the same promise.
#![tactic(auto)]

ghost use Rattle.std.specs.Prelude.{◌≡◌, length};
ghost use Rattle.lookuprows.specs.Rows.{summed};

// Each look-up by itself.
#[unsafe(no_mangle)]
pub extern "C" fn lookups_apart(contents: &[u64], picks: &[u16]) -> u64
    ensures { result ≡ summed contents.now picks.now 0 (length picks.now) }
{
    lookuprows::lookups_apart(contents, picks)
}

// Each look-up has to wait for the last.
#[unsafe(no_mangle)]
pub extern "C" fn lookups_chained(contents: &[u64], picks: &[u16]) -> u64
    ensures { result ≡ summed contents.now picks.now 1 (length picks.now) }
{
    lookuprows::lookups_chained(contents, picks)
}
