// Converts a field between its eight bytes and its three numbers. High bytes come first.
ghost use Rattle.std.specs.Prelude.{◌≡◌, ◌+◌, ◌*◌, ◌/◌, ◌%◌};
ghost use Rattle.field.specs.Fields.{bytes_of, field_of, two_bytes};

use crate::{FIELD_SIZE, ProtectionField};

impl ProtectionField {
    // Returns the eight bytes of the field.
    #[tactic(auto, unfolding(crate::specs::Fields::bytes_of))]
    pub fn to_be_bytes(self) -> [u8; FIELD_SIZE]
        ensures { result ≡ bytes_of self }
    {
        let guard = self.guard.to_be_bytes();
        let application = self.application.to_be_bytes();
        let reference = self.reference.to_be_bytes();
        [
            guard[0],
            guard[1],
            application[0],
            application[1],
            reference[0],
            reference[1],
            reference[2],
            reference[3],
        ]
    }

    // Returns the field that eight bytes hold.
    #[tactic(auto, unfolding(crate::specs::Fields::field_of))]
    pub fn from_be_bytes(b: [u8; FIELD_SIZE]) -> Self
        ensures { result ≡ field_of b }
    {
        ProtectionField {
            guard: u16::from_be_bytes([b[0], b[1]]),
            application: u16::from_be_bytes([b[2], b[3]]),
            reference: u32::from_be_bytes([b[4], b[5], b[6], b[7]]),
        }
    }
}

// The reference tag is joined from halves and taken apart into them, since a mask judges and merges its bytes two at a
// time, as those of the other numbers.

// Joins two 16-bit halves, high half first.
pub(crate) fn be32(high: u16, low: u16) -> u32
    ensures { result ≡ high * 65536 + low }
{
    u32::from(high) * 65536 + u32::from(low)
}

// Returns the two high bytes.
pub(crate) fn high_half(x: u32) -> u16
    ensures { result ≡ x / 65536 }
{
    (x / 65536) as u16
}

// Returns the two low bytes.
pub(crate) fn low_half(x: u32) -> u16
    ensures { result ≡ x % 65536 }
{
    (x % 65536) as u16
}
