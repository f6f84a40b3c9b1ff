// The C API (include/garoalva.h): 01's calls on plain structs. A struct that came from these calls gets what the call
// of the crates below returns, one that only looks so is used as it is, and any other is refused with a number of our
// own. The crate capi_c exports the calls under their C symbols.

#![tactic(auto)]

mod key_calls;
mod session_calls;

use cstructs::{CKey, CSession};
pub use key_calls::{
    garoalva_check, garoalva_configure, garoalva_fresh, garoalva_receive, garoalva_send,
};
pub use session_calls::{garoalva_abandon, garoalva_finish, garoalva_open, garoalva_packet};
use slot::ErrorNumbers;

// Answers of our own: the struct is no key, or no session.
pub(crate) const NOT_A_KEY: u64 = 1000;

pub(crate) const NOT_A_SESSION: u64 = 1001;

#[repr(C)]
#[derive(Clone, Copy)]
pub struct CConfigureResult {
    pub key: CKey,
    pub answer: u64,
}

#[repr(C)]
#[derive(Clone, Copy)]
pub struct CTransferResult {
    pub key: CKey,
    pub answer: u64,
    pub taken: u64,
    pub written: u64,
}

#[repr(C)]
#[derive(Clone, Copy)]
pub struct CCheckResult {
    pub key: CKey,
    pub answer: u64,
    pub error: ErrorNumbers,
    pub spare: u32,
}

#[repr(C)]
#[derive(Clone, Copy)]
pub struct COpenResult {
    pub key: CKey,
    pub session: CSession,
    pub answer: u64,
}

#[repr(C)]
#[derive(Clone, Copy)]
pub struct CPacketResult {
    pub session: CSession,
    pub answer: u64,
    pub taken: u64,
    pub written: u64,
}

#[repr(C)]
#[derive(Clone, Copy)]
pub struct CFinishResult {
    pub key: CKey,
    pub session: CSession,
    pub answer: u64,
}

#[repr(C)]
#[derive(Clone, Copy)]
pub struct CAbandonResult {
    pub key: CKey,
    pub answer: u64,
}
