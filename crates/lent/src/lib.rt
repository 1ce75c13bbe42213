// What contracts say of a lent slice, and the copy of lent bytes.
#![tactic(auto)]

ghost use Rattle.std.specs.Prelude.{◌≡◌, length};

// Copies bytes one by one. Not `copy_from_slice`: of slices that a host lends, it makes an archive ask for `memmove` from outside, and a run of one byte pay
// for that call.
#[tactic(auto, using(crate::proofs::Putting::copied_whole))]
pub fn copy_bytes(to: &mut [u8], from: &[u8])
    requires { length to.old ≡ length from.now }
    ensures { to.new ≡ from.now }
{
    for (i, byte) in to.iter_mut().enumerate() {
        *byte = from[i];
    }
}
