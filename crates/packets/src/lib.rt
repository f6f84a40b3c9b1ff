// Receive by packets: open, packet, finish, abandon. Data is stored in memory as it arrives, a field once its unit is
// whole.

#![tactic(auto)]

mod end_calls;
mod open_call;
mod packet_call;
mod validate;

use engine::Progress;
use key::Key;
use layout::LayoutOffset;
pub use validate::held_is_eight;

// A received transfer in progress: what open was given, and how far the transfer is. `SessionValid` is no invariant of
// the type: the conversion from C and `is_valid` take sessions of which it is false.
#[derive(Clone, Copy)]
pub struct Session {
    pub key: Key,
    pub offset: LayoutOffset,
    pub data_length: u64,
    pub progress: Progress,
}
