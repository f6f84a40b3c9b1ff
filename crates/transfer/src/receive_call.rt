// Receive: moves a stream from the wire to memory.
ghost use Rattle.std.specs.Prelude.{◌≡◌};
ghost use Rattle.key.specs.Keys.{KeyValid};
ghost use Rattle.transfer.specs.Transferring as transferring;

use crate::{Totals, rules};
use key::{Key, Refusal};
use layout::LayoutOffset;

// Checks the wire's stream, stores it in memory through the key's layout, and records its first error in the key.
#[tactic(auto, unfolding(crate::specs::Transferring::receive_result, crate::specs::Transferring::memory_after_receive))]
pub fn receive(
    key: &mut Key,
    memory: &mut [u8],
    wire: &[u8],
    offset: LayoutOffset,
    data_length: u64,
) -> Result<Totals, Refusal>
    requires { KeyValid key.old }
    ensures totals { result ≡ transferring.totals_of (transferring.receive_result key.old memory.old wire.now offset.0 data_length) }
    ensures key_after { key.new ≡ (transferring.receive_result key.old memory.old wire.now offset.0 data_length).key }
    ensures memory_after { memory.new ≡ transferring.memory_after_receive key.old memory.old wire.now offset.0 data_length }
{
    key.admit_transfer(memory, wire, offset, data_length)?;
    let signature = key.signature;
    let layout = key.layout;
    let rule = rules::receive_rule(signature);
    let taken = key::stream_length(signature.wire, data_length);
    let written = key::stream_length(signature.memory, data_length);
    let n = taken as usize;
    let at = layout::walk(layout, offset);
    let fed = rule.feed(rule.begin(None), layout, memory, at, &wire[0..n]);
    let progress = fed.progress;
    key.keep_error(progress.slot);
    Ok(Totals { taken, written })
}
