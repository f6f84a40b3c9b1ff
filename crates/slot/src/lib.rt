// The error slot: the first error that transfers found, and the numbers that check returns for it (01, "Error slot").

#![tactic(auto)]

ghost use Rattle.std.specs.Prelude.{◌≡◌};
ghost use Rattle.slot.specs.Slots as slots;

use field::{Mismatch, Tag};

// A tag that is not what the rule computes, and where its block's data begins in the input stream. No stream has 2^32
// bytes. With a 64-bit offset a slot has seven bytes of padding, and copying those stalls.
#[derive(Clone, Copy, Debug, PartialEq, Eq)]
pub struct Error {
    pub mismatch: Mismatch,
    pub offset: u32,
}

// A slot holds an error or none. Of two slots `or` keeps the first error.
pub type Slot = Option<Error>;

// An error slot as check returns it and as C sees it: all five numbers are 0 if the slot is empty.
#[repr(C)]
#[derive(Clone, Copy, Debug, Default, PartialEq, Eq)]
pub struct ErrorNumbers {
    pub error_type: u32,
    pub actual: u32,
    pub expected: u32,
    pub offset: u32,
    pub differing: u32,
}

// 01's error types. They don't follow the order of the tags in the field.
pub const GUARD_ERROR: u32 = 1;

pub const REFERENCE_ERROR: u32 = 2;

const APPLICATION_ERROR: u32 = 3;

// Returns the error type of a wrong tag. It is no `From`, because both types are those of other crates.
fn error_type(tag: Tag) -> u32
    ensures { result ≡ slots.error_type tag }
{
    match tag {
        Tag::Guard => GUARD_ERROR,
        Tag::Reference => REFERENCE_ERROR,
        Tag::Application => APPLICATION_ERROR,
    }
}

impl From<Slot> for ErrorNumbers {
    ghost from_gives = { λ slot numbers. numbers ≡ slots.error_numbers slot };

    #[tactic(auto, unfolding(crate::specs::Slots::error_numbers))]
    fn from(slot: Slot) -> Self {
        match slot {
            None => ErrorNumbers::default(),
            Some(e) => {
                let mismatch = e.mismatch;
                let tag = mismatch.tag;
                ErrorNumbers {
                    error_type: error_type(tag),
                    actual: mismatch.actual,
                    expected: mismatch.expected,
                    offset: e.offset,
                    differing: mismatch.differing,
                }
            }
        }
    }
}
