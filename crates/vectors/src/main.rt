// Runs SBC-3's and RFC 1071's vectors and the scope paper's cases E, F, G, J, K and L through guard and layout. The
// file `stdout` holds what the papers give; it was computed without this code.

#![tactic(auto)]

mod guards;
mod layouts;
mod moves;
mod sound;

use std::io;

// The length of the memory of case J.
const J_MEMORY: u64 = 1044;

fn main(rt: HostRuntime) -> io::Result<()> {
    guards::print_crc(&rt)?;
    guards::print_checksum(&rt)?;
    guards::print_seeds(&rt)?;
    layouts::print_answers(&rt)?;
    layouts::print_malformed(&rt)?;
    layouts::print_edges(&rt)?;
    layouts::print_spots(&rt)?;
    moves::print_moves(&rt)
}
