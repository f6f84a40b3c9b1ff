// difcheck checks the fields of a wire on standard input, and prints the numbers that check returns, or "refused 9". If
// standard input can't be read, it says so and prints no numbers.

#![tactic(auto)]

mod input;

use key::Refusal;
use slot::ErrorNumbers;
use std::{fmt, io};

// The program uses no heap, so its input goes into a buffer of fixed size.
const BUFFER_SIZE: usize = 65536;

const MEMORY_SIZE: usize = 32768;

// An answer as difcheck prints it.
#[derive(Drop)]
struct Printed(Result<ErrorNumbers, Refusal>);

impl fmt::Display for Printed {
    fn fmt<W: fmt::Write>(&self, f: &mut fmt::Formatter<W>) -> fmt::Result {
        match self.0 {
            Err(refusal) => write!(f, "refused {}", u32::from(refusal)),
            Ok(error) => write!(
                f,
                "{} {} {} {} {}",
                error.error_type, error.actual, error.expected, error.offset, error.differing
            ),
        }
    }
}

fn main(rt: HostRuntime) -> io::Result<()> {
    let mut buffer = [0u8; BUFFER_SIZE];
    let Ok((n, has_more)) = input::read_input(&mut rt.stdin(), &mut buffer) else {
        return println!(rt; "standard input can't be read");
    };
    let mut memory = [0u8; MEMORY_SIZE];
    let answer = wirecheck::check_wire(&buffer[..n], has_more, &mut memory);
    println!(rt; "{}", Printed(answer))
}
