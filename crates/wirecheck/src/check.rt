// Receives a wire in packets, and checks it.
ghost use Rattle.std.specs.Prelude.{◌≡◌, ◌/◌, length, Ok};
ghost use Rattle.transfer.specs.Transferring.{memory_after_receive};
ghost use Rattle.wirecheck.specs.Checking as checks;
ghost use Rattle.wirecheck.specs.Inner.Receiving.{Receivable};

use crate::setup;
use key::{Key, Refusal};
use layout::LayoutOffset;
use packets::Session;
use slot::ErrorNumbers;

// A packet has at most 4,168 bytes.
const PACKET_MAX: usize = 4168;

// The input has at most 65,536 bytes, in units of 16.
const WIRE_MAX: usize = 65536;

const UNIT: usize = 16;

// Receives the wire in packets, and returns the key with the first error in its slot.
fn receive_in_packets(key: &Key, wire: &[u8], memory: &mut [u8]) -> Result<Key, Refusal>
    requires { Receivable key.now (length memory.old) (length wire.now) }
    ensures value { result ≡ Ok (checks.received key.now memory.old wire.now) }
    ensures memory_after { memory.new ≡ memory_after_receive key.now memory.old wire.now 0 (length wire.now / 2) }
{
    let data_length = wire.len() as u64 / 2;
    let mut session = Session::open(key, memory, LayoutOffset::new(0), data_length)?;
    for packet in wire.chunks(PACKET_MAX) {
        session.packet(memory, packet)?;
    }
    session.finish()
}

// Checks the fields of a wire that the caller has read into a buffer. `more` says that there was more input than the
// buffer holds, which no slice of the buffer can tell. A wire that is too long or ends inside a unit is refused.
#[tactic(auto, unfolding(crate::specs::Checking::check_of, crate::specs::Checking::memory_of), using(crate::proofs::Laws::check_asks))]
pub fn check_wire(wire: &[u8], more: bool, memory: &mut [u8]) -> Result<ErrorNumbers, Refusal>
    ensures value { result ≡ checks.check_of wire.now more memory.old }
    ensures memory_after { memory.new ≡ checks.memory_of wire.now more memory.old }
{
    if more | ((WIRE_MAX < wire.len()) | (wire.len() % UNIT != 0)) {
        return Err(Refusal::PartialBlock);
    }
    let mut key = Key::fresh();
    key.configure(memory, setup::configuration())?;
    let mut checked = receive_in_packets(&key, wire, memory)?;
    Ok(checked.check())
}
