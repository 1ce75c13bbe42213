// Judges the slice file on standard input and writes one line: `accepted N M` or `refused NUMBER PLACE`.
#![tactic(auto)]

ghost use Rattle.std.specs.Prelude.{◌≤◌, length};

use column::FILE_LIMIT;
use slicefile::{Refusal, Size};
use std::io;
use std::io::Read;

// Reads until the buffer is full, the input ends or a read fails, and gives how many bytes it put at the start of the buffer. A `while`: no read says
// how many bytes the next one gives, so there is nothing for a `for` to count.
fn read_full<R: Read>(input: &mut R, bytes: &mut [u8]) -> usize
    ensures { result ≤ length bytes.new }
{
    let mut done = 0;
    while done < bytes.len() {
        match input.read(&mut bytes[done..]) {
            Ok(0) | Err(_) => break,
            Ok(n) => done += n,
        }
    }
    done
}

// One byte more than the longest file is read: those decide on any input. A read that fails counts as the end of the input.
fn main(rt: HostRuntime) -> io::Result<()> {
    let mut bytes = [0u8; FILE_LIMIT + 1];
    let mut input = rt.stdin();
    let count = read_full(&mut input, &mut bytes);
    match column::judge(&bytes[..count]) {
        Ok(Size { n, m }) => println!(rt; "accepted {n} {m}"),
        Err(Refusal { reason, place }) => {
            let number = usize::from(reason);
            println!(rt; "refused {number} {place}")
        }
    }
}
