// Validates an untrusted session.
ghost use Rattle.std.specs.Prelude.{◌≡◌, length};
ghost use Rattle.field.specs.Fields.{field_bytes};
ghost use Rattle.key.specs.Keys.{KeyValid};
ghost use Rattle.packets.specs.Sessions as sessions;

use crate::Session;
use field::FIELD_SIZE;

// Returns nothing: its contract states the length of an array as a fact for proofs.
pub fn held_is_eight(held: [u8; FIELD_SIZE])
    ensures { length held ≡ field_bytes }
{}

impl Session {
    // True if the session meets the precondition of packet, finish and abandon. Every session from these calls does; one
    // rebuilt from a C struct may not.
    #[tactic(auto, unfolding(crate::specs::Sessions::session_valid))]
    pub fn is_valid(&self) -> bool
        requires { KeyValid self.now.key }
        ensures valid { result ≡ sessions.session_valid self.now }
        ensures eight_held { length self.now.progress.held ≡ field_bytes }
    {
        let progress = self.progress;
        held_is_eight(progress.held);
        let outcome = self
            .key
            .admit(self.key.memory_length, self.offset, self.data_length);
        let Ok(()) = outcome else {
            return false;
        };
        let signature = self.key.signature;
        let rule = transfer::receive_rule(signature);
        if rule.in_step(progress) {
            let wire = key::stream_length(signature.wire, self.data_length);
            if wire < progress.input.index {
                return false;
            }
            return rule.taken(progress) <= wire;
        }
        false
    }
}
