// Reads the input of difcheck.
ghost use Rattle.std.specs.Prelude.{◌≤◌, length, IfOk};

use reading::read_full;
use std::io;
use std::io::Read;

// Fills the buffer from an input. Returns how many bytes it put there, and whether the input has more: it tries to read
// one more byte if the buffer is full. If it is not, the input has ended.
pub(crate) fn read_input(from: &mut impl Read, buffer: &mut [u8]) -> io::Result<(usize, bool)>
    ensures { IfOk result (λ r. r.0 ≤ length buffer.new) }
{
    let n = read_full(from, buffer)?;
    let has_more = n == buffer.len() && read_full(from, &mut [0])? > 0;
    Ok((n, has_more))
}
