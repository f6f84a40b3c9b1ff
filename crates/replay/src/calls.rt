// Makes the calls that the lines name.
use crate::buffers::{change_bytes, digest, fill_pattern};
use crate::lines::Fields;
use crate::settings;
use cstructs::{CKey, CSession};
use slot::ErrorNumbers;
use std::{fmt, io};

// The size of memory, and that of wire.
const BUFFER_SIZE: usize = 16384;

// What a call returned, as far as it is printed.
#[derive(Drop)]
enum Printed {
    // A line whose letter names no call.
    NoCall,
    Answer(char, u64),
    Transfer {
        letter: char,
        answer: u64,
        taken: u64,
        written: u64,
    },
    Check(u64, ErrorNumbers),
}

impl fmt::Display for Printed {
    fn fmt<W: fmt::Write>(&self, f: &mut fmt::Formatter<W>) -> fmt::Result {
        match *self {
            Printed::NoCall => Ok(()),
            Printed::Answer(letter, answer) => write!(f, "{letter} {answer}"),
            Printed::Transfer {
                letter,
                answer,
                taken,
                written,
            } => write!(f, "{letter} {answer} {taken} {written}"),
            Printed::Check(answer, error) => write!(
                f,
                "K {answer} {} {} {} {} {}",
                error.error_type, error.actual, error.expected, error.offset, error.differing
            ),
        }
    }
}

// The key and the session that the next call takes, and the buffers that it works on.
#[derive(Drop)]
struct Replay {
    key: CKey,
    session: CSession,
    memory: [u8; BUFFER_SIZE],
    wire: [u8; BUFFER_SIZE],
}

// Returns a session that is none. Open refuses a fresh key, and returns such a session.
fn no_session() -> CSession {
    capi::garoalva_open(capi::garoalva_fresh(), b"", 0, 0).session
}

impl Replay {
    fn new() -> Self {
        Replay {
            key: capi::garoalva_fresh(),
            session: no_session(),
            memory: [0; BUFFER_SIZE],
            wire: [0; BUFFER_SIZE],
        }
    }

    // Takes a fresh key, and no session.
    fn start_anew(&mut self) {
        self.key = capi::garoalva_fresh();
        self.session = no_session();
    }

    // Gives the key the seal of a fresh one. After an accepted open, it is then a copy of the key that was passed to
    // open.
    fn restore_seal(&mut self) {
        let fresh = capi::garoalva_fresh();
        self.key.seal = fresh.seal;
    }

    fn configure(&mut self, fields: &mut Fields<'_>) -> Printed {
        let m = fields.length(BUFFER_SIZE);
        let configuration = settings::read_configuration(fields);
        let c = capi::garoalva_configure(self.key, &self.memory[..m], configuration);
        self.key = c.key;
        Printed::Answer('C', c.answer)
    }

    fn send(&mut self, fields: &mut Fields<'_>) -> Printed {
        let m = fields.length(BUFFER_SIZE);
        let w = fields.length(BUFFER_SIZE);
        let offset = fields.number();
        let data_length = fields.number();
        let key = self.key;
        let wire = &mut self.wire[..];
        let t = capi::garoalva_send(key, &self.memory[..m], &mut wire[..w], offset, data_length);
        self.key = t.key;
        Printed::Transfer {
            letter: 'S',
            answer: t.answer,
            taken: t.taken,
            written: t.written,
        }
    }

    fn receive(&mut self, fields: &mut Fields<'_>) -> Printed {
        let m = fields.length(BUFFER_SIZE);
        let w = fields.length(BUFFER_SIZE);
        let offset = fields.number();
        let data_length = fields.number();
        let key = self.key;
        let memory = &mut self.memory[..];
        let t = capi::garoalva_receive(key, &mut memory[..m], &self.wire[..w], offset, data_length);
        self.key = t.key;
        Printed::Transfer {
            letter: 'R',
            answer: t.answer,
            taken: t.taken,
            written: t.written,
        }
    }

    fn check(&mut self) -> Printed {
        let c = capi::garoalva_check(self.key);
        self.key = c.key;
        Printed::Check(c.answer, c.error)
    }

    // A refused open leaves the key and the session as they are.
    fn open(&mut self, fields: &mut Fields<'_>) -> Printed {
        let m = fields.length(BUFFER_SIZE);
        let offset = fields.number();
        let data_length = fields.number();
        let o = capi::garoalva_open(self.key, &self.memory[..m], offset, data_length);
        if o.answer == 0 {
            self.key = o.key;
            self.session = o.session;
        }
        Printed::Answer('O', o.answer)
    }

    fn packet(&mut self, fields: &mut Fields<'_>) -> Printed {
        let m = fields.length(BUFFER_SIZE);
        let from = fields.length(BUFFER_SIZE);
        let end = from + fields.length(BUFFER_SIZE - from);
        let session = self.session;
        let wire = &self.wire[..];
        let memory = &mut self.memory[..];
        let p = capi::garoalva_packet(session, &mut memory[..m], &wire[from..end]);
        self.session = p.session;
        Printed::Transfer {
            letter: 'B',
            answer: p.answer,
            taken: p.taken,
            written: p.written,
        }
    }

    // A refused finish leaves the key and the session as they are.
    fn finish(&mut self) -> Printed {
        let f = capi::garoalva_finish(self.session);
        if f.answer == 0 {
            self.key = f.key;
            self.session = f.session;
        }
        Printed::Answer('F', f.answer)
    }

    // A refused abandon leaves the key and the session as they are.
    fn abandon(&mut self) -> Printed {
        let a = capi::garoalva_abandon(self.session);
        if a.answer == 0 {
            self.key = a.key;
            self.session = no_session();
        }
        Printed::Answer('A', a.answer)
    }

    // Makes the call that a letter names, and returns what is printed of it.
    fn make_call(&mut self, letter: u8, fields: &mut Fields<'_>) -> Printed {
        match letter {
            b'C' => self.configure(fields),
            b'S' => self.send(fields),
            b'R' => self.receive(fields),
            b'K' => self.check(),
            b'O' => self.open(fields),
            b'B' => self.packet(fields),
            b'F' => self.finish(),
            b'A' => self.abandon(),
            _ => Printed::NoCall,
        }
    }

    // Does what a line says: changes the key or a buffer, or makes a call and returns what is printed of it. An enum of
    // the letters would need the same two lists of them, and a third.
    fn run_line(&mut self, line: &[u8]) -> Option<Printed> {
        let letter = *line.first()?;
        let fields = &mut Fields::after_letter(line);
        match letter {
            b'N' => self.start_anew(),
            b'Z' => self.key.seal = 0,
            b'Y' => self.restore_seal(),
            b'M' => fill_pattern(&mut self.memory, fields.low()),
            b'W' => fill_pattern(&mut self.wire, fields.low()),
            b'm' => change_bytes(&mut self.memory, fields),
            b'w' => change_bytes(&mut self.wire, fields),
            _ => return Some(self.make_call(letter, fields)),
        }
        None
    }
}

// Does what all lines of a case file say, in order. After each call it prints what the call returned, and digests of
// memory and wire.
pub(crate) fn run_lines(rt: &impl Print, text: &[u8]) -> io::Result<()> {
    let mut replay = Replay::new();
    for line in text.split(|byte| *byte == b'\n') {
        if let Some(printed) = replay.run_line(line) {
            println!(rt;
                "{printed} {} {}",
                digest(&replay.memory),
                digest(&replay.wire)
            )?;
        }
    }
    Ok(())
}
