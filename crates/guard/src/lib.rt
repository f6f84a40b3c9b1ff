// The CRC and checksum guards of a block's data, computed as the data arrives (01, "The protection field").

#![tactic(auto)]

mod checksum;

ghost use Rattle.std.specs.Prelude.{◌≡◌, ◌≤◌, length};
ghost use Rattle.guard.specs.Guards.{part_limit, started, advanced, guard_value};

// 01's guard types. Configure refuses any other number; in this crate each number above 0 is a checksum. They are
// numbers and no enum: the C struct Domain holds one, and a caller of `advance` and `value` may pass each `u32`.
pub const CRC: u32 = 0;

pub const CHECKSUM: u32 = 1;

// The guard of the bytes so far: the CRC register, or the ones' complement sum and whether it holds an odd number of
// bytes.
#[derive(Clone, Copy, PartialEq, Eq, Debug)]
pub struct RunningGuard {
    pub value: u16,
    pub odd: bool,
}

// Returns a running guard before the first byte.
pub fn start(seed: u16) -> RunningGuard
    ensures { result ≡ started seed }
{
    RunningGuard {
        value: seed,
        odd: false,
    }
}

// Returns the running guard after a part of the block. A part may start and end at any byte.
#[tactic(auto, using(crate::proofs::Laws::advanced_crc, crate::proofs::Laws::advanced_checksum))]
pub fn advance(guard_type: u32, g: RunningGuard, part: &[u8]) -> RunningGuard
    requires { length part.now ≤ part_limit }
    ensures { result ≡ advanced guard_type g part.now }
{
    if guard_type == CRC {
        RunningGuard {
            value: crc::register(g.value, part),
            odd: g.odd,
        }
    } else {
        checksum::sum(g, part)
    }
}

// Returns the guard of the bytes so far.
#[tactic(auto, unfolding(crate::specs::Guards::guard_value))]
pub fn value(guard_type: u32, g: RunningGuard) -> u16
    ensures { result ≡ guard_value guard_type g }
{
    if guard_type == CRC {
        g.value
    } else {
        65535 - g.value
    }
}
