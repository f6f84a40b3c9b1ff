// Check returns the recorded error, and `keep_error` records the first error of a transfer.
ghost use Rattle.std.specs.Prelude.{◌≡◌, true};
ghost use Rattle.key.specs.Keys as keys;
ghost use Rattle.slot.specs.Slots as slots;

use crate::Key;
use slot::{ErrorNumbers, Slot};

impl Key {
    // Returns the numbers of the recorded error, zeros if there is none, and empties the slot.
    #[tactic(auto, unfolding(crate::specs::Keys::check_result))]
    pub fn check(&mut self) -> ErrorNumbers
        ensures error { result ≡ (keys.check_result self.old).error }
        ensures key_after { self.new ≡ (keys.check_result self.old).key }
    {
        ErrorNumbers::from(self.slot.take())
    }

    // Records the error of a transfer, unless the slot held an error before. A key that was never configured transfers
    // nothing and holds no error.
    pub fn keep_error(&mut self, found: Slot)
        requires { self.old.configured ≡ true }
        ensures { self.new ≡ keys.with_slot self.old (slots.keep self.old.slot found) }
    {
        self.slot = self.slot.or(found);
    }
}
