// Converts keys and sessions to and from C structs.
ghost use Rattle.std.specs.Prelude.{◌≡◌};
ghost use Rattle.key.specs.Keys.{with_slot};
ghost use Rattle.packets.specs.Sessions.{with_progress};
ghost use Rattle.cstructs.specs.CStructs as cstructs;

use crate::{CConfiguration, CKey, CSession, CSide, CSignature, KEY_SEAL, SESSION_SEAL};
use engine::{Progress, Side};
use field::{FIELD_SIZE, Mismatch, Tag};
use guard::RunningGuard;
use key::{Configuration, Key, Signature};
use layout::LayoutOffset;
use packets::Session;
use slot::{Error, ErrorNumbers, GUARD_ERROR, REFERENCE_ERROR, Slot};

// Returns the tag of an error type that is not 0. Types above 3 are taken for the application tag's here, and
// `error_valid` refuses them. It is no `From`, because both types are those of other crates.
fn tag_of(error_type: u32) -> Tag
    ensures { result ≡ cstructs.tag_of error_type }
{
    match error_type {
        GUARD_ERROR => Tag::Guard,
        REFERENCE_ERROR => Tag::Reference,
        _ => Tag::Application,
    }
}

// Returns the slot that these numbers stand for. It is no `From` either.
#[tactic(auto, unfolding(crate::specs::CStructs::slot_from_numbers))]
pub(crate) fn slot_from_numbers(n: ErrorNumbers) -> Slot
    ensures { result ≡ cstructs.slot_from_numbers n }
{
    if n.error_type == 0 {
        return None;
    }
    let tag = tag_of(n.error_type);
    let mismatch = Mismatch {
        tag,
        actual: n.actual,
        expected: n.expected,
        differing: n.differing,
    };
    Some(Error {
        mismatch,
        offset: n.offset,
    })
}

impl From<CSignature> for Signature {
    ghost from_gives = { λ s signature. signature ≡ cstructs.signature_from_c s };

    fn from(s: CSignature) -> Signature {
        let memory = s.memory;
        let wire = s.wire;
        Signature {
            memory,
            wire,
            attribute_flags: s.attribute_flags,
            check_mask: s.check_mask,
            copy_mask: s.copy_mask,
        }
    }
}

impl From<Signature> for CSignature {
    ghost from_gives = { λ signature s. s ≡ cstructs.signature_to_c signature };

    fn from(s: Signature) -> CSignature {
        let memory = s.memory;
        let wire = s.wire;
        CSignature {
            memory,
            wire,
            attribute_flags: s.attribute_flags,
            check_mask: s.check_mask,
            copy_mask: s.copy_mask,
            spare: 0,
        }
    }
}

impl From<CConfiguration> for Configuration {
    ghost from_gives = { λ c configuration. configuration ≡ cstructs.configuration_from_c c };

    fn from(c: CConfiguration) -> Configuration {
        let layout = c.layout;
        let signature = Signature::from(c.signature);
        Configuration { signature, layout }
    }
}

impl From<CKey> for Key {
    ghost from_gives = { λ c key. key ≡ cstructs.key_from_c c };

    fn from(k: CKey) -> Key {
        let layout = k.layout;
        let signature = Signature::from(k.signature);
        let slot = slot_from_numbers(k.error);
        Key {
            configured: k.configured == 1,
            memory_length: k.memory_length,
            layout,
            signature,
            slot,
        }
    }
}

impl From<Key> for CKey {
    ghost from_gives = { λ key c. c ≡ cstructs.key_to_c key };

    fn from(k: Key) -> CKey {
        let layout = k.layout;
        let signature = CSignature::from(k.signature);
        let error = ErrorNumbers::from(k.slot);
        CKey {
            seal: KEY_SEAL,
            memory_length: k.memory_length,
            layout,
            signature,
            configured: u32::from(k.configured),
            error,
        }
    }
}

impl CKey {
    // Returns the struct with another error. A transfer changes nothing else, and converting the whole key back would
    // copy it again.
    pub fn with_slot(mut self, slot: Slot) -> Self
        requires { cstructs.key_to_c (cstructs.key_from_c self) ≡ self }
        ensures { result ≡ cstructs.key_to_c (with_slot (cstructs.key_from_c self) slot) }
    {
        self.error = ErrorNumbers::from(slot);
        self
    }

    // Returns the struct without its seal, so that no call takes it for a key.
    pub fn unsealed(mut self) -> Self
        ensures { result ≡ cstructs.unsealed self }
    {
        self.seal = 0;
        self
    }
}

impl From<CSide> for Side {
    ghost from_gives = { λ s side. side ≡ cstructs.side_from_c s };

    fn from(s: CSide) -> Side {
        let guard = RunningGuard {
            value: s.guard,
            odd: s.odd == 1,
        };
        Side {
            index: s.index,
            at: s.at,
            guard,
        }
    }
}

impl From<Side> for CSide {
    ghost from_gives = { λ side s. s ≡ cstructs.side_to_c side };

    fn from(s: Side) -> CSide {
        let guard = s.guard;
        CSide {
            index: s.index,
            at: s.at,
            odd: u32::from(guard.odd),
            guard: guard.value,
            spare: 0,
        }
    }
}

impl From<CSession> for Session {
    ghost from_gives = { λ s session. session ≡ cstructs.session_from_c s };

    fn from(s: CSession) -> Session {
        let key = Key::from(s.key);
        let offset = LayoutOffset::new(s.offset);
        let held = s.held;
        let slot = slot_from_numbers(s.error);
        let input = Side::from(s.input);
        let output = Side::from(s.output);
        let progress = Progress {
            input,
            output,
            held,
            slot,
        };
        Session {
            key,
            offset,
            data_length: s.data_length,
            progress,
        }
    }
}

impl From<Session> for CSession {
    ghost from_gives = { λ session s. s ≡ cstructs.session_to_c session };

    fn from(session: Session) -> CSession {
        let offset = session.offset;
        let progress = session.progress;
        let key = CKey::from(session.key);
        let held = progress.held;
        let error = ErrorNumbers::from(progress.slot);
        let input = CSide::from(progress.input);
        let output = CSide::from(progress.output);
        CSession {
            seal: SESSION_SEAL,
            key,
            offset: offset.number(),
            data_length: session.data_length,
            input,
            output,
            error,
            held,
            spare: 0,
        }
    }
}

impl CSession {
    // Returns the struct with another progress, which is all that a packet changes.
    pub fn with_progress(mut self, progress: Progress) -> Self
        requires { cstructs.session_to_c (cstructs.session_from_c self) ≡ self }
        ensures { result ≡ cstructs.session_to_c (with_progress (cstructs.session_from_c self) progress) }
    {
        let held = progress.held;
        self.input = CSide::from(progress.input);
        self.output = CSide::from(progress.output);
        self.error = ErrorNumbers::from(progress.slot);
        self.held = held;
        self
    }

    // Returns a struct without a seal, so that no call takes it for a session.
    pub fn none(key: CKey) -> Self
        ensures { result ≡ cstructs.no_session key }
    {
        CSession {
            seal: 0,
            key,
            offset: 0,
            data_length: 0,
            input: CSide::default(),
            output: CSide::default(),
            error: ErrorNumbers::default(),
            held: [0; FIELD_SIZE],
            spare: 0,
        }
    }
}
