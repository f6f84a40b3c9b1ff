// Packet: takes the next bytes of the wire stream.
ghost use Rattle.std.specs.Prelude.{◌≡◌, length};
ghost use Rattle.packets.specs.Sessions as sessions;
ghost use Rattle.packets.specs.Sessions.{SessionValid};

use crate::Session;
use key::Refusal;
use transfer::Totals;

impl Session {
    // Returns the number of wire bytes accepted so far.
    #[tactic(auto, using(crate::proofs::PacketLaws::valid_countable))]
    pub(crate) fn taken(&self) -> u64
        requires { SessionValid self.now }
        ensures { result ≡ sessions.taken_by self.now }
    {
        transfer::receive_rule(self.key.signature).taken(self.progress)
    }

    // Returns the number of wire bytes of the whole transfer.
    pub(crate) fn wire_length(&self) -> u64
        requires { SessionValid self.now }
        ensures { result ≡ sessions.wire_length self.now }
    {
        key::stream_length(self.key.signature.wire, self.data_length)
    }

    // Refuses a wrong memory length (8), then a packet longer than the bytes still expected (12).
    #[tactic(auto, unfolding(crate::specs::Sessions::packet_answer))]
    fn admit_packet(&self, memory: &[u8], bytes: &[u8]) -> Result<(), Refusal>
        requires { SessionValid self.now }
        ensures { result ≡ sessions.packet_answer self.now (length memory.now) (length bytes.now) }
    {
        if memory.len() as u64 != self.key.memory_length {
            return Err(Refusal::MemoryLength);
        }
        if self.wire_length() - self.taken() < bytes.len() as u64 {
            return Err(Refusal::LongPacket);
        }
        Ok(())
    }

    // Takes the next wire bytes, which may end anywhere, and returns the totals since open. If they are refused, the
    // session and memory are unchanged.
    #[tactic(auto, unfolding(crate::specs::Sessions::packet_result, crate::specs::Sessions::memory_after_packet))]
    pub fn packet(&mut self, memory: &mut [u8], bytes: &[u8]) -> Result<Totals, Refusal>
        requires { SessionValid self.old }
        ensures totals { result ≡ sessions.packet_totals (sessions.packet_result self.old (length memory.old) bytes.now) }
        ensures session_after { self.new ≡ (sessions.packet_result self.old (length memory.old) bytes.now).session }
        ensures memory_after { memory.new ≡ sessions.memory_after_packet self.old memory.old bytes.now }
    {
        self.admit_packet(memory, bytes)?;
        let before = self.progress;
        // A local of its own, because the compiler would copy a field of the key.
        let layout = self.key.layout;
        let rule = transfer::receive_rule(self.key.signature);
        let at = layout::walk(layout, self.offset.ahead(rule.written(before)));
        let fed = rule.feed(before, layout, memory, at, bytes);
        let progress = fed.progress;
        self.progress = progress;
        Ok(Totals {
            taken: rule.taken(progress),
            written: rule.written(progress),
        })
    }
}
