// The ladder program: standard input to standard output. All that matters is in `ladder_print::print_ladder`; what was
// read and written no contract can say.
// No heap, and fixed memory: the part of a buffer that is in use goes on as a slice.
#![tactic(auto)]

ghost use Rattle.std.specs.Prelude.{◌≡◌, ◌≤◌, length, take};
ghost use Rattle.std.specs.Io.KnownBytes.{Consumes};

use ladder_print::TEXT_MOST;
use std::io::{ErrorKind, Read, Write};

// A buffer, zeroed.
fn buffer<const N: usize>() -> [u8; N]
    ensures { N ≡ length result }
{
    [0; N]
}

// Reads until the buffer is full or the input ends, a failed read being the end; how many bytes.
fn read_full<R: Read>(from: &mut R, buf: &mut [u8]) -> usize
    ensures within { result ≤ length buf.new }
    ensures bytes { Consumes (R.remaining from.old) (R.remaining from.new) (take result buf.new) }
{
    let mut n = 0;
    for _ in 0..u64::MAX {
        if n == buf.len() {
            return n;
        }
        match from.read(&mut buf[n..]) {
            Ok(0) => return n,
            Ok(more) => n += more,
            Err(e) => {
                if e.kind() != ErrorKind::Interrupted {
                    return n;
                }
            }
        }
    }
    n
}

// A failed write is not reported.
fn write_whole(to: &mut impl Write, text: &[u8]) {
    let _ = to.write_all(text);
}

fn main(rt: HostRuntime) {
    // one byte more than is taken, so that too long an input is seen
    let mut input: [u8; 65_537] = buffer();
    let n = read_full(&mut rt.stdin(), &mut input);
    let mut out: [u8; TEXT_MOST] = buffer();
    let Some(len) = ladder_print::print_ladder(&input[..n], &mut out) else {
        return;
    };
    write_whole(&mut rt.stdout(), &out[..len]);
}
