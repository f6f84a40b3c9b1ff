// Admits a transfer or an open, or refuses it.
ghost use Rattle.std.specs.Prelude.{◌≡◌, ◌+◌, ltb, length};
ghost use Rattle.layout.specs.Pieces as pieces;
ghost use Rattle.key.specs.Streams.{stream_length};
ghost use Rattle.key.specs.Inner.Admission.{Measured, Sized};
ghost use Rattle.key.specs.Admitting as admitting;
ghost use Rattle.key.specs.Inner.Admission.{Bounded};
ghost use Rattle.key.specs.Keys.{KeyValid};

use crate::{Key, Refusal};
use field::{Domain, FIELD_SIZE};
use layout::{Layout, LayoutOffset};

// Returns the length of a domain's stream: the data, and a field after each block if the domain is signed.
#[tactic(auto, unfolding(crate::specs::Streams::stream_length))]
pub fn stream_length(d: Domain, data_length: u64) -> u64
    requires { Measured d data_length }
    ensures { result ≡ stream_length d data_length }
{
    if field::signed(d) {
        data_length + data_length / d.block_size as u64 * FIELD_SIZE as u64
    } else {
        data_length
    }
}

// True if answer 9 applies to this domain: the data length is not a whole number of its blocks.
fn partial(d: Domain, data_length: u64) -> bool
    requires { Sized d }
    ensures { result ≡ admitting.partial d data_length }
{
    if field::signed(d) {
        data_length % d.block_size as u64 != 0
    } else {
        false
    }
}

// True if answer 10 applies. The data length is compared before fields are added to it, and the offset with what the
// stream leaves of the layout, so that no sum wraps.
#[tactic(auto, using(crate::proofs::Laws::data_in_stream))]
fn past(l: Layout, d: Domain, offset: LayoutOffset, data_length: u64) -> bool
    requires bounded { Bounded l }
    requires sized { Sized d }
    ensures { result ≡ ltb (pieces.total l) (offset.0 + stream_length d data_length) }
{
    let total = layout::total(l);
    if total < data_length {
        return true;
    }
    let stream = stream_length(d, data_length);
    if total < stream {
        return true;
    }
    total - stream < offset.number()
}

impl Key {
    // Refuses an open with the first of answers 14, 8, 9 and 10 that applies.
    #[tactic(auto, unfolding(crate::specs::Admitting::open_answer), using(crate::proofs::Laws::memory_sized, crate::proofs::Laws::wire_sized))]
    pub fn admit(
        &self,
        memory_length: u64,
        offset: LayoutOffset,
        data_length: u64,
    ) -> Result<(), Refusal>
        requires { KeyValid self.now }
        ensures { result ≡ admitting.open_answer self.now memory_length offset.0 data_length }
    {
        if !self.configured {
            return Err(Refusal::NotConfigured);
        }
        if memory_length != self.memory_length {
            return Err(Refusal::MemoryLength);
        }
        let signature = self.signature;
        if partial(signature.memory, data_length) | partial(signature.wire, data_length) {
            return Err(Refusal::PartialBlock);
        }
        if past(self.layout, signature.memory, offset, data_length) {
            return Err(Refusal::PastLayout);
        }
        Ok(())
    }

    // Refuses a transfer with the first of answers 14, 8, 9, 10 and 11 that applies.
    #[tactic(auto, unfolding(crate::specs::Admitting::transfer_answer), using(crate::proofs::Laws::wire_measured))]
    pub fn admit_transfer(
        &self,
        memory: &[u8],
        wire: &[u8],
        offset: LayoutOffset,
        data_length: u64,
    ) -> Result<(), Refusal>
        requires { KeyValid self.now }
        ensures { result ≡ admitting.transfer_answer self.now (length memory.now) offset.0 data_length (length wire.now) }
    {
        self.admit(memory.len() as u64, offset, data_length)?;
        let signature = self.signature;
        if (wire.len() as u64) < stream_length(signature.wire, data_length) {
            return Err(Refusal::ShortWire);
        }
        Ok(())
    }
}
