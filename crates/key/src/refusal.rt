// The refusals of the calls, and their numbers in 01's table.
ghost use Rattle.std.specs.Prelude.{◌≡◌};
ghost use Rattle.key.specs.Numbers as numbers;

use layout::LayoutError;

// A refusal for each number of 01's table.
#[derive(Clone, Copy, Debug, PartialEq, Eq)]
pub enum Refusal {
    // 1: a domain's numbers or the attribute flags are bad.
    BadDomain,
    // 2: a domain with an escape flag has the application tag that escapes.
    EscapeTag,
    // 3: a copy mask is given, but not two signatures of one block size.
    CopyMask,
    // 4: two signatures have different block sizes.
    BlockSizes,
    // 5: the layout has a wrong number of entries, repeats or bytes.
    MalformedLayout,
    // 6: a piece ends beyond the memory.
    OutsideMemory,
    // 7: two pieces share a byte.
    Overlap,
    // 8: the memory is above the limit, or of another length than configured.
    MemoryLength,
    // 9: the data length is not a multiple of a block size.
    PartialBlock,
    // 10: the memory stream ends beyond the layout.
    PastLayout,
    // 11: the wire buffer is shorter than the wire stream.
    ShortWire,
    // 12: the packet is longer than the wire bytes still to come.
    LongPacket,
    // 13: finish is called before all wire bytes have come.
    BytesToCome,
    // 14: the key was never configured.
    NotConfigured,
    // 20: a domain's edition is neither 1 nor 2, or it is 2 and the block size is not a multiple of 512.
    Edition,
}

impl From<Refusal> for u32 {
    ghost from_gives = { λ refusal number. number ≡ numbers.refusal_number refusal };

    fn from(refusal: Refusal) -> u32 {
        match refusal {
            Refusal::BadDomain => 1,
            Refusal::EscapeTag => 2,
            Refusal::CopyMask => 3,
            Refusal::BlockSizes => 4,
            Refusal::MalformedLayout => 5,
            Refusal::OutsideMemory => 6,
            Refusal::Overlap => 7,
            Refusal::MemoryLength => 8,
            Refusal::PartialBlock => 9,
            Refusal::PastLayout => 10,
            Refusal::ShortWire => 11,
            Refusal::LongPacket => 12,
            Refusal::BytesToCome => 13,
            Refusal::NotConfigured => 14,
            Refusal::Edition => 20,
        }
    }
}

// Answers 5, 6 and 7 are those of a layout error.
impl From<LayoutError> for Refusal {
    ghost from_gives = { λ error refusal. refusal ≡ numbers.layout_refusal error };

    fn from(error: LayoutError) -> Refusal {
        match error {
            LayoutError::Malformed => Refusal::MalformedLayout,
            LayoutError::Outside => Refusal::OutsideMemory,
            LayoutError::Overlapping => Refusal::Overlap,
        }
    }
}

// Returns the number of an answer: 0 if the call was not refused.
pub fn number(answer: Result<(), Refusal>) -> u32
    ensures { result ≡ numbers.number answer }
{
    match answer {
        Ok(()) => 0,
        Err(refusal) => u32::from(refusal),
    }
}
