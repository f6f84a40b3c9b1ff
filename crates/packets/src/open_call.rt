// Open: begins a receive by packets.
ghost use Rattle.std.specs.Prelude.{◌≡◌, length};
ghost use Rattle.key.specs.Keys.{KeyValid};
ghost use Rattle.packets.specs.Sessions as sessions;

use crate::Session;
use key::{Key, Refusal};
use layout::LayoutOffset;

impl Session {
    // Begins a received transfer, unless it is refused. The key stays as it is.
    pub fn open(
        key: &Key,
        memory: &[u8],
        offset: LayoutOffset,
        data_length: u64,
    ) -> Result<Self, Refusal>
        requires { KeyValid key.now }
        ensures { result ≡ sessions.session_of (sessions.open_result key.now (length memory.now) offset data_length) }
    {
        key.admit(memory.len() as u64, offset, data_length)?;
        let progress = transfer::receive_rule(key.signature).begin(None);
        Ok(Session {
            key: *key,
            offset,
            data_length,
            progress,
        })
    }
}
