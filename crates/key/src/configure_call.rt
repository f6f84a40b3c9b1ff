// Configure: sets a key's configuration, or refuses it.
ghost use Rattle.std.specs.Prelude.{◌≡◌, length};
ghost use Rattle.key.specs.Configuring as answers;
ghost use Rattle.key.specs.Keys as keys;

use crate::signature_rules::signature_answer;
use crate::{Configuration, Key, MEMORY_LIMIT, Refusal};

// Refuses with the first of answers 8, 1, 20 and 2 to 7 that applies.
#[tactic(auto, unfolding(crate::specs::Configuring::configure_answer))]
fn answer(memory_length: u64, c: Configuration) -> Result<(), Refusal>
    ensures { result ≡ answers.configure_answer memory_length c }
{
    if MEMORY_LIMIT < memory_length {
        return Err(Refusal::MemoryLength);
    }
    signature_answer(c.signature)?;
    layout::judge(c.layout, memory_length)?;
    Ok(())
}

impl Key {
    // Gives the key a new configuration over this memory. Only the length of the memory is looked at, and the slot stays
    // as it is. If it is refused, the key is unchanged.
    pub fn configure(&mut self, memory: &[u8], configuration: Configuration) -> Result<(), Refusal>
        ensures outcome { result ≡ (keys.configure_result self.old (length memory.now) configuration).outcome }
        ensures key_after { self.new ≡ (keys.configure_result self.old (length memory.now) configuration).key }
    {
        let memory_length = memory.len() as u64;
        answer(memory_length, configuration)?;
        self.configured = true;
        self.memory_length = memory_length;
        self.layout = configuration.layout;
        self.signature = configuration.signature;
        Ok(())
    }
}
