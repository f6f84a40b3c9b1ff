// Reads an input into a buffer, for the programs.

#![tactic(auto)]

ghost use Rattle.std.specs.Prelude.{◌≤◌, length, IfOk};

use std::io;
use std::io::Read;

// Reads until the buffer is full or the input ends, and returns how many bytes it put at the start of the buffer. An
// error says that a read failed: then nothing is known of the input. The count is kept by hand, since no function of std
// reads the same: read_exact fails at an early end, io::copy and read_to_end try an interrupted read again, and the last
// needs a heap.
pub fn read_full(from: &mut impl Read, buffer: &mut [u8]) -> io::Result<usize>
    ensures { IfOk result (λ n. n ≤ length buffer.new) }
{
    let mut done = 0;
    while done < buffer.len() {
        let more = from.read(&mut buffer[done..])?;
        if more == 0 {
            break;
        }
        done += more;
    }
    Ok(done)
}
