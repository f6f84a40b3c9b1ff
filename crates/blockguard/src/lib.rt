// Exports the guard of a block to C, for the benchmark and the tests. It is no part of libgaroalva.

#![tactic(auto)]

ghost use Rattle.std.specs.Prelude.{◌≡◌};
ghost use Rattle.guard.specs.Guards.{guard_of};

// The most bytes that `guard::advance` takes at once.
const PART_LIMIT: usize = 4294967296;

// Returns the guard of a block of any length.
#[unsafe(no_mangle)]
pub extern "C" fn block_guard(guard_type: u32, seed: u16, block: &[u8]) -> u16
    ensures { result ≡ guard_of guard_type seed block.now }
{
    let mut g = guard::start(seed);
    for part in block.chunks(PART_LIMIT) {
        g = guard::advance(guard_type, g, part);
    }
    guard::value(guard_type, g)
}
