// Finish and abandon: end a receive by packets.
ghost use Rattle.std.specs.Prelude.{◌≡◌};
ghost use Rattle.packets.specs.Sessions as sessions;
ghost use Rattle.packets.specs.Sessions.{SessionValid};

use crate::Session;
use key::{Key, Refusal};

impl Session {
    // Returns the key given to open, with the recorded error in its slot.
    #[tactic(auto, using(crate::proofs::PacketLaws::valid_configured))]
    fn ended_key(&self) -> Key
        requires valid { SessionValid self.now }
        ensures { result ≡ sessions.ended_key self.now }
    {
        let mut key = self.key;
        key.keep_error(self.progress.slot);
        key
    }

    // Ends the transfer if all wire bytes have come, and returns the key. Else it refuses with 13, and the session goes
    // on as it is.
    #[tactic(auto, unfolding(crate::specs::Sessions::finish_answer))]
    pub fn finish(&self) -> Result<Key, Refusal>
        requires { SessionValid self.now }
        ensures { result ≡ sessions.key_of (sessions.finish_result self.now) }
    {
        if self.taken() < self.wire_length() {
            return Err(Refusal::BytesToCome);
        }
        Ok(self.ended_key())
    }

    // Ends the transfer, however many wire bytes have come, and returns the key.
    pub fn abandon(&self) -> Key
        requires { SessionValid self.now }
        ensures { result ≡ (sessions.abandon_result self.now).key }
    {
        self.ended_key()
    }
}
