// These are the calls of a receive by packets: open, packet, finish, abandon.
ghost use Rattle.std.specs.Prelude.{◌≡◌, length};
ghost use Rattle.capi.specs.Calls as calls;

use crate::key_calls::number;
use crate::{CAbandonResult, CFinishResult, COpenResult, CPacketResult, NOT_A_KEY, NOT_A_SESSION};
use cstructs::{CKey, CSession};
use key::Key;
use layout::LayoutOffset;
use packets::Session;

// After an accepted open the key that is returned is none, because a caller who went on with that key would never hear
// of the errors that the session finds. A refused open returns the key as it was given, and no session.
#[tactic(auto, unfolding(crate::specs::Calls::c_open), using(cstructs::proofs::Laws::key_back, cstructs::proofs::Laws::valid_key))]
pub fn garoalva_open(key: CKey, memory: &[u8], offset: u64, data_length: u64) -> COpenResult
    ensures { result ≡ calls.c_open key (length memory.now) offset data_length }
{
    if !key.is_valid() {
        return COpenResult {
            key,
            session: CSession::none(key),
            answer: NOT_A_KEY,
        };
    }
    let k = Key::from(key);
    match Session::open(&k, memory, LayoutOffset::new(offset), data_length) {
        Ok(session) => COpenResult {
            key: key.unsealed(),
            session: CSession::from(session),
            answer: 0,
        },
        Err(refusal) => COpenResult {
            key,
            session: CSession::none(key),
            answer: number(refusal),
        },
    }
}

#[tactic(auto, unfolding(crate::specs::Calls::c_packet, crate::specs::Calls::memory_after_c_packet), using(cstructs::proofs::Laws::session_back))]
pub fn garoalva_packet(session: CSession, memory: &mut [u8], bytes: &[u8]) -> CPacketResult
    ensures value { result ≡ calls.c_packet session (length memory.old) bytes.now }
    ensures memory_after { memory.new ≡ calls.memory_after_c_packet session memory.old bytes.now }
{
    if !session.is_valid() {
        return CPacketResult {
            session,
            answer: NOT_A_SESSION,
            taken: 0,
            written: 0,
        };
    }
    let mut s = Session::from(session);
    match s.packet(memory, bytes) {
        Ok(totals) => CPacketResult {
            session: session.with_progress(s.progress),
            answer: 0,
            taken: totals.taken,
            written: totals.written,
        },
        Err(refusal) => CPacketResult {
            session,
            answer: number(refusal),
            taken: 0,
            written: 0,
        },
    }
}

// An accepted finish ends the session. A refused one returns it as it was, and no key.
#[tactic(auto, unfolding(crate::specs::Calls::c_finish), using(cstructs::proofs::Laws::session_back))]
pub fn garoalva_finish(session: CSession) -> CFinishResult
    ensures { result ≡ calls.c_finish session }
{
    if !session.is_valid() {
        return CFinishResult {
            key: session.key.unsealed(),
            session,
            answer: NOT_A_SESSION,
        };
    }
    match Session::from(session).finish() {
        Ok(key) => CFinishResult {
            key: CKey::from(key),
            session: CSession::none(CKey::from(key)),
            answer: 0,
        },
        Err(refusal) => CFinishResult {
            key: session.key.unsealed(),
            session,
            answer: number(refusal),
        },
    }
}

#[tactic(auto, unfolding(crate::specs::Calls::c_abandon))]
pub fn garoalva_abandon(session: CSession) -> CAbandonResult
    ensures { result ≡ calls.c_abandon session }
{
    if !session.is_valid() {
        return CAbandonResult {
            key: session.key.unsealed(),
            answer: NOT_A_SESSION,
        };
    }
    CAbandonResult {
        key: CKey::from(Session::from(session).abandon()),
        answer: 0,
    }
}
