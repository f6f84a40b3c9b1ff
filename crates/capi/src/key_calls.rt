// These are the calls on a key: fresh, configure, send, receive, check.
ghost use Rattle.std.specs.Prelude.{◌≡◌, length};
ghost use Rattle.key.specs.Keys.{fresh_key, with_slot};
ghost use Rattle.key.specs.Numbers.{refusal_number};
ghost use Rattle.cstructs.specs.CStructs.{key_from_c, key_to_c};
ghost use Rattle.capi.specs.Calls as calls;

use crate::{CCheckResult, CConfigureResult, CTransferResult, NOT_A_KEY};
use cstructs::{CConfiguration, CKey};
use key::{Configuration, Key, Refusal};
use layout::LayoutOffset;
use slot::{ErrorNumbers, Slot};
use transfer::Totals;

// Returns the number of a refusal, in the 64 bits that C gets: std has no conversion from a refusal to these.
pub(crate) fn number(refusal: Refusal) -> u64
    ensures { result ≡ refusal_number refusal }
{
    u64::from(u32::from(refusal))
}

pub fn garoalva_fresh() -> CKey
    ensures { result ≡ key_to_c fresh_key }
{
    CKey::from(Key::fresh())
}

#[tactic(auto, unfolding(crate::specs::Calls::c_configure))]
pub fn garoalva_configure(
    key: CKey,
    memory: &[u8],
    configuration: CConfiguration,
) -> CConfigureResult
    ensures { result ≡ calls.c_configure key (length memory.now) configuration }
{
    if !key.is_valid() {
        return CConfigureResult {
            key,
            answer: NOT_A_KEY,
        };
    }
    let mut k = Key::from(key);
    let outcome = k.configure(memory, Configuration::from(configuration));
    CConfigureResult {
        key: CKey::from(k),
        answer: u64::from(key::number(outcome)),
    }
}

// Returns the result of a transfer as a C struct: its totals, or its refusal with zeros. A transfer changes nothing of the
// key but its slot. The struct is written once, since each literal of it would copy the key.
fn transfer_result(key: CKey, slot: Slot, totals: Result<Totals, Refusal>) -> CTransferResult
    requires { key_to_c (key_from_c key) ≡ key }
    ensures { result ≡ calls.totals_to_c (key_to_c (with_slot (key_from_c key) slot)) totals }
{
    let (answer, taken, written) = match totals {
        Ok(t) => (0, t.taken, t.written),
        Err(refusal) => (number(refusal), 0, 0),
    };
    CTransferResult {
        key: key.with_slot(slot),
        answer,
        taken,
        written,
    }
}

// Returns the result of a transfer on a struct that is no key.
fn not_a_key_result(key: CKey) -> CTransferResult
    ensures { result ≡ calls.not_transferred key }
{
    CTransferResult {
        key,
        answer: NOT_A_KEY,
        taken: 0,
        written: 0,
    }
}

#[tactic(auto, unfolding(crate::specs::Calls::c_send, crate::specs::Calls::wire_after_c_send), using(cstructs::proofs::Laws::key_back, cstructs::proofs::Laws::valid_key, crate::proofs::Calls::sent))]
pub fn garoalva_send(
    key: CKey,
    memory: &[u8],
    wire: &mut [u8],
    offset: u64,
    data_length: u64,
) -> CTransferResult
    ensures value { result ≡ calls.c_send key memory.now wire.old offset data_length }
    ensures wire_after { wire.new ≡ calls.wire_after_c_send key memory.now wire.old offset data_length }
{
    if !key.is_valid() {
        return not_a_key_result(key);
    }
    let mut k = Key::from(key);
    let at = LayoutOffset::new(offset);
    let totals = transfer::send(&mut k, memory, wire, at, data_length);
    transfer_result(key, k.slot, totals)
}

#[tactic(auto, unfolding(crate::specs::Calls::c_receive, crate::specs::Calls::memory_after_c_receive), using(cstructs::proofs::Laws::key_back, cstructs::proofs::Laws::valid_key, crate::proofs::Calls::received))]
pub fn garoalva_receive(
    key: CKey,
    memory: &mut [u8],
    wire: &[u8],
    offset: u64,
    data_length: u64,
) -> CTransferResult
    ensures value { result ≡ calls.c_receive key memory.old wire.now offset data_length }
    ensures memory_after { memory.new ≡ calls.memory_after_c_receive key memory.old wire.now offset data_length }
{
    if !key.is_valid() {
        return not_a_key_result(key);
    }
    let mut k = Key::from(key);
    let at = LayoutOffset::new(offset);
    let totals = transfer::receive(&mut k, memory, wire, at, data_length);
    transfer_result(key, k.slot, totals)
}

#[tactic(auto, unfolding(crate::specs::Calls::c_check))]
pub fn garoalva_check(key: CKey) -> CCheckResult
    ensures { result ≡ calls.c_check key }
{
    if !key.is_valid() {
        return CCheckResult {
            key,
            answer: NOT_A_KEY,
            error: ErrorNumbers::default(),
            spare: 0,
        };
    }
    let mut k = Key::from(key);
    let error = k.check();
    CCheckResult {
        key: CKey::from(k),
        answer: 0,
        error,
        spare: 0,
    }
}
