// replay: makes the calls that its standard input lists, through the C API, and prints what each returns and digests of
// memory and wire after it. tests/reference writes the list and the right answers; its README says what the lines mean.

#![tactic(auto)]

mod buffers;
mod calls;
mod lines;
mod settings;

use std::io;

// The most bytes of the case file that are read. The program uses no heap, so they go into a buffer of fixed size.
const TEXT_SIZE: usize = 262144;

fn main(rt: HostRuntime) -> io::Result<()> {
    let mut text = [0u8; TEXT_SIZE];
    let n = reading::read_full(&mut rt.stdin(), &mut text)?;
    calls::run_lines(&rt, &text[..n])
}
