// This crate has keys and sessions as the structs that C sees. It converts to and from them, and tests which are valid.

#![tactic(auto)]

mod convert;
mod validate;

use field::{Domain, FIELD_SIZE};
use layout::Layout;
use slot::ErrorNumbers;

// The first words of a key and of a session. The lowest byte is the version of the structs.
pub(crate) const KEY_SEAL: u64 = 0x4741524F4B455904;

pub(crate) const SESSION_SEAL: u64 = 0x4741524F53455304;

// Each struct stands beside that of a crate below, because C sees its seal, flags and spare numbers.
#[repr(C)]
#[derive(Clone, Copy)]
pub struct CSignature {
    pub memory: Domain,
    pub wire: Domain,
    pub attribute_flags: u32,
    pub check_mask: u8,
    pub copy_mask: u8,
    pub spare: u16,
}

#[repr(C)]
#[derive(Clone, Copy)]
pub struct CConfiguration {
    pub layout: Layout,
    pub signature: CSignature,
}

#[repr(C)]
#[derive(Clone, Copy)]
pub struct CKey {
    pub seal: u64,
    pub memory_length: u64,
    pub layout: Layout,
    pub signature: CSignature,
    pub configured: u32,
    pub error: ErrorNumbers,
}

// The position in a stream: the number of the current block, the offset in its unit, and the running guard.
#[repr(C)]
#[derive(Clone, Copy, Default)]
pub struct CSide {
    pub index: u64,
    pub at: u64,
    pub odd: u32,
    pub guard: u16,
    pub spare: u16,
}

#[repr(C)]
#[derive(Clone, Copy)]
pub struct CSession {
    pub seal: u64,
    pub key: CKey,
    pub offset: u64,
    pub data_length: u64,
    pub input: CSide,
    pub output: CSide,
    pub error: ErrorNumbers,
    pub held: [u8; FIELD_SIZE],
    pub spare: u32,
}
