// Tests which C structs are a key or a session.
ghost use Rattle.std.specs.Prelude.{◌≡◌, length};
ghost use Rattle.field.specs.Fields.{field_bytes};
ghost use Rattle.cstructs.specs.CStructs as cstructs;

use crate::{CKey, CSession, CSide, KEY_SEAL, SESSION_SEAL, convert};
use key::Signature;
use packets::Session;
use slot::ErrorNumbers;

// True if the numbers are those of a slot: converting them to a slot and back gives them again.
fn error_valid(n: ErrorNumbers) -> bool
    ensures { result ≡ cstructs.error_valid n }
{
    n == ErrorNumbers::from(convert::slot_from_numbers(n))
}

// True if the number is 0 or 1.
fn is_flag(n: u32) -> bool
    ensures { result ≡ cstructs.is_flag n }
{
    n == u32::from(n == 1)
}

impl CKey {
    // True if the struct is a key: converting it and back gives it again, the key meets the precondition of the calls,
    // and a key that was never configured holds no error.
    #[tactic(auto, unfolding(crate::specs::CStructs::c_key_valid, key::specs::Keys::key_valid))]
    pub fn is_valid(&self) -> bool
        ensures { result ≡ cstructs.c_key_valid self.now }
    {
        let whole = (self.seal == KEY_SEAL)
            & is_flag(self.configured)
            & (self.signature.spare == 0);
        let configured_or_empty = (self.configured == 1) | (self.error.error_type == 0);
        whole
            & error_valid(self.error)
            & configured_or_empty
            & key::fields_valid(
                self.configured == 1,
                self.memory_length,
                Signature::from(self.signature),
                self.layout,
            )
    }
}

impl CSide {
    fn is_valid(&self) -> bool
        ensures { result ≡ cstructs.c_side_valid self.now }
    {
        is_flag(self.odd) & (self.spare == 0)
    }
}

impl CSession {
    // True if the struct is a session.
    #[tactic(auto, unfolding(crate::specs::CStructs::c_session_valid), using(crate::proofs::Laws::valid_key))]
    pub fn is_valid(&self) -> bool
        ensures valid { result ≡ cstructs.c_session_valid self.now }
        ensures eight_held { length self.now.held ≡ field_bytes }
    {
        packets::held_is_eight(self.held);
        if !self.key.is_valid() {
            return false;
        }
        let whole = (self.seal == SESSION_SEAL) & self.input.is_valid() & self.output.is_valid();
        whole & (self.spare == 0) & error_valid(self.error) & Session::from(*self).is_valid()
    }
}
