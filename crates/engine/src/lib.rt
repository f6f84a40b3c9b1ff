// The engine of the transfer rule: it takes bytes of the input stream and stores bytes of the output stream through a
// layout. It does not know which side is memory, and it knows no key.

#![tactic(auto)]

mod parts;
mod sides;
mod stream;
mod unit;

use field::{Domain, FIELD_SIZE};
use guard::RunningGuard;
use layout::Cursor;
use slot::Slot;

// The settings of a transfer. The copy mask is the one in force, configured or automatic.
#[derive(Clone, Copy, Debug, PartialEq, Eq)]
pub struct Rule {
    pub input: Domain,
    pub output: Domain,
    pub check_mask: u8,
    pub copy_mask: u8,
}

// The position in a domain's stream: the number of the current block, the offset in its unit, and the running guard.
#[derive(Clone, Copy)]
pub struct Side {
    pub index: u64,
    pub at: u64,
    pub guard: RunningGuard,
}

// A transfer in progress. The field bytes of the current input unit are held until the unit is whole; data bytes are
// stored at once. C sees the held bytes as eight, and `input.at` says how many have come.
#[derive(Clone, Copy)]
pub struct Progress {
    pub input: Side,
    pub output: Side,
    pub held: [u8; FIELD_SIZE],
    pub slot: Slot,
}

// What feeding returns: the progress, and the cursor at which the next output byte goes.
#[derive(Clone, Copy)]
pub struct FeedResult {
    pub progress: Progress,
    pub cursor: Cursor,
}

ghost use Rattle.std.specs.Prelude.{◌≡◌};
ghost use Rattle.engine.specs.Feeding.{begun};

impl Rule {
    // Returns the progress before the first byte.
    pub fn begin(self, slot: Slot) -> Progress
        ensures { result ≡ begun self slot }
    {
        Progress {
            input: sides::block_start(self.input, 0),
            output: sides::block_start(self.output, 0),
            held: [0, 0, 0, 0, 0, 0, 0, 0],
            slot,
        }
    }
}
