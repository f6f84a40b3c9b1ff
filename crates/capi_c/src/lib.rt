// The C symbols of the C API (include/garoalva.h): each export makes the call of the same name in capi, and promises what
// that call promises. They are functions of their own, because audit and replay use the calls as a library, and a static
// library can't be used so.

#![tactic(auto)]

ghost use Rattle.std.specs.Prelude.{◌≡◌, length};
ghost use Rattle.key.specs.Keys.{fresh_key};
ghost use Rattle.cstructs.specs.CStructs.{key_to_c};
ghost use Rattle.capi.specs.Calls as calls;

use capi::{
    CAbandonResult, CCheckResult, CConfigureResult, CFinishResult, COpenResult, CPacketResult,
    CTransferResult,
};
use cstructs::{CConfiguration, CKey, CSession};

#[unsafe(no_mangle)]
pub extern "C" fn garoalva_fresh() -> CKey
    ensures { result ≡ key_to_c fresh_key }
{
    capi::garoalva_fresh()
}

#[unsafe(no_mangle)]
pub extern "C" fn garoalva_configure(
    key: CKey,
    memory: &[u8],
    configuration: CConfiguration,
) -> CConfigureResult
    ensures { result ≡ calls.c_configure key (length memory.now) configuration }
{
    capi::garoalva_configure(key, memory, configuration)
}

#[unsafe(no_mangle)]
pub extern "C" fn garoalva_send(
    key: CKey,
    memory: &[u8],
    wire: &mut [u8],
    offset: u64,
    data_length: u64,
) -> CTransferResult
    ensures value { result ≡ calls.c_send key memory.now wire.old offset data_length }
    ensures wire_after { wire.new ≡ calls.wire_after_c_send key memory.now wire.old offset data_length }
{
    capi::garoalva_send(key, memory, wire, offset, data_length)
}

#[unsafe(no_mangle)]
pub extern "C" fn garoalva_receive(
    key: CKey,
    memory: &mut [u8],
    wire: &[u8],
    offset: u64,
    data_length: u64,
) -> CTransferResult
    ensures value { result ≡ calls.c_receive key memory.old wire.now offset data_length }
    ensures memory_after { memory.new ≡ calls.memory_after_c_receive key memory.old wire.now offset data_length }
{
    capi::garoalva_receive(key, memory, wire, offset, data_length)
}

#[unsafe(no_mangle)]
pub extern "C" fn garoalva_check(key: CKey) -> CCheckResult
    ensures { result ≡ calls.c_check key }
{
    capi::garoalva_check(key)
}

#[unsafe(no_mangle)]
pub extern "C" fn garoalva_open(
    key: CKey,
    memory: &[u8],
    offset: u64,
    data_length: u64,
) -> COpenResult
    ensures { result ≡ calls.c_open key (length memory.now) offset data_length }
{
    capi::garoalva_open(key, memory, offset, data_length)
}

#[unsafe(no_mangle)]
pub extern "C" fn garoalva_packet(
    session: CSession,
    memory: &mut [u8],
    bytes: &[u8],
) -> CPacketResult
    ensures value { result ≡ calls.c_packet session (length memory.old) bytes.now }
    ensures memory_after { memory.new ≡ calls.memory_after_c_packet session memory.old bytes.now }
{
    capi::garoalva_packet(session, memory, bytes)
}

#[unsafe(no_mangle)]
pub extern "C" fn garoalva_finish(session: CSession) -> CFinishResult
    ensures { result ≡ calls.c_finish session }
{
    capi::garoalva_finish(session)
}

#[unsafe(no_mangle)]
pub extern "C" fn garoalva_abandon(session: CSession) -> CAbandonResult
    ensures { result ≡ calls.c_abandon session }
{
    capi::garoalva_abandon(session)
}
