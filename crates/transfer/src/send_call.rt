// Send: moves a stream from memory to the wire. Receive is no twin of it: here the input is in pieces, there it is whole.
ghost use Rattle.std.specs.Prelude.{◌≡◌, ◌<◌, ◌^◌, length};
ghost use Rattle.key.specs.Keys.{KeyValid};
ghost use Rattle.transfer.specs.Transferring as transferring;
ghost use Rattle.transfer.specs.Inner.SendStream.{prefix_layout, StreamReady, StreamSent};

use crate::{Totals, rules};
use engine::{FeedResult, Rule};
use key::{Key, Refusal};
use layout::{ENTRIES_MAX, Entry, Layout, LayoutOffset, MemoryOffset};
use slot::Slot;

// Returns the layout of the first n bytes of a buffer.
fn prefix_layout(n: u64) -> Layout
    requires { n < 2 ^ 32 }
    ensures { result ≡ prefix_layout n }
{
    let all = Entry {
        start: MemoryOffset::new(0),
        count: n as u32,
        skip: 0,
    };
    Layout {
        entries: [all; ENTRIES_MAX],
        used: 1,
        repeat: 1,
    }
}

// Feeds n layout bytes from the offset on, piece by piece, and stores the output in the wire's first bytes. Returns the
// first error. The loop counts bytes and no index: how many it feeds in a turn, the cursor tells.
fn send_stream(
    rule: Rule,
    from: Layout,
    memory: &[u8],
    offset: LayoutOffset,
    n: u64,
    to: Layout,
    wire: &mut [u8],
) -> Slot
    requires { StreamReady rule from memory.now offset.0 n to (length wire.old) }
    ensures { StreamSent rule from memory.now offset.0 n to wire.old result wire.new }
{
    let begun = rule.begin(None);
    let cursor = layout::walk(to, LayoutOffset::new(0));
    let mut p = FeedResult {
        progress: begun,
        cursor,
    };
    let mut c = layout::walk(from, offset);
    let mut done: u64 = 0;
    while done < n {
        c = layout::next_piece_if_spent(from, c);
        let piece = layout::rest_of_piece(memory, c);
        let m = (piece.len() as u64).min(n - done) as usize;
        p = rule.feed(p.progress, to, wire, p.cursor, &piece[0..m]);
        c = layout::forward(c, m as u64);
        done += m as u64;
    }
    let progress = p.progress;
    progress.slot
}

// Checks the stream in memory, writes it to the wire, and records its first error in the key.
#[tactic(auto, unfolding(crate::specs::Transferring::send_result, crate::specs::Transferring::wire_after_send))]
pub fn send(
    key: &mut Key,
    memory: &[u8],
    wire: &mut [u8],
    offset: LayoutOffset,
    data_length: u64,
) -> Result<Totals, Refusal>
    requires { KeyValid key.old }
    ensures totals { result ≡ transferring.totals_of (transferring.send_result key.old memory.now wire.old offset.0 data_length) }
    ensures key_after { key.new ≡ (transferring.send_result key.old memory.now wire.old offset.0 data_length).key }
    ensures wire_after { wire.new ≡ transferring.wire_after_send key.old memory.now wire.old offset.0 data_length }
{
    key.admit_transfer(memory, wire, offset, data_length)?;
    let signature = key.signature;
    let from = key.layout;
    let rule = rules::send_rule(signature);
    let taken = key::stream_length(signature.memory, data_length);
    let written = key::stream_length(signature.wire, data_length);
    let slot = send_stream(
        rule,
        from,
        memory,
        offset,
        taken,
        prefix_layout(written),
        wire,
    );
    key.keep_error(slot);
    Ok(Totals { taken, written })
}
